// The rules of two words: ADRP_ADRP, ADRP_LDR and ADRP_ADD.
ghost use Rattle.std.specs.Prelude.{◌≡◌, ◌<◌};
ghost use Rattle.arm64_hint_adrp.specs.Two.{same_page, adrp_adrp, ldr_at_page, adrp_ldr, adr_to, add_at_page, adrp_add};

use arm64_hint_terms::answer::{Decision, Insns, NoRewrite, Rewrite, fits_literal, sum_of};
use arm64_hint_terms::plans::{adr_first, drop_second, literal_second};
use arm64_insn::add::Add;
use arm64_insn::adrp::Adrp;
use arm64_insn::ldst::LoadStore;
use arm64_insn::page::within_1mb;

// Two ADRPs of one page into one register: the second is redundant.
#[tactic(auto, unfolding(crate::specs::Two::same_page, util::specs::Choice::choose))]
fn same_page(s: Insns, a: Adrp, b: Adrp) -> Decision
    ensures { result ≡ same_page s a b }
{
    if a.rd != b.rd || a.page(s.p0) != b.page(s.p1) {
        return Err(NoRewrite::Declined);
    }
    drop_second()
}

// ADRP_ADRP. `pages`: both entries are page halves.
#[tactic(auto, unfolding(crate::specs::Two::adrp_adrp, util::specs::Choice::choose))]
pub fn adrp_adrp(s: Insns, pages: bool) -> Decision
    ensures { result ≡ adrp_adrp s pages }
{
    if !pages {
        return Err(NoRewrite::Declined);
    }
    let a = Adrp::decode(s.w0).ok_or(NoRewrite::Declined)?;
    let b = Adrp::decode(s.w1).ok_or(NoRewrite::Declined)?;
    same_page(s, a, b)
}

// A load through the ADRP's register, from within 1 MiB of itself, becomes a literal load.
#[tactic(auto, unfolding(crate::specs::Two::ldr_at_page, crate::specs::Two::ldr_second, util::specs::Choice::choose))]
fn ldr_at_page(s: Insns, a: Adrp, ld: LoadStore) -> Decision
    requires { ld.reg < 32 }
    ensures { result ≡ ldr_at_page s a ld }
{
    if ld.base != a.rd {
        return Err(NoRewrite::Declined);
    }
    let target = sum_of(a.page(s.p0), ld.offset).ok_or(NoRewrite::Nine)?;
    if !fits_literal(ld, target, s.p1) {
        return Err(NoRewrite::Declined);
    }
    literal_second(Rewrite::Literal, s, ld, target)
}

// ADRP_LDR. `pair`: the entries are the halves of one reference.
#[tactic(auto, unfolding(crate::specs::Two::adrp_ldr, util::specs::Choice::choose))]
pub fn adrp_ldr(s: Insns, pair: bool) -> Decision
    ensures { result ≡ adrp_ldr s pair }
{
    if !pair {
        return Err(NoRewrite::Declined);
    }
    let a = Adrp::decode(s.w0).ok_or(NoRewrite::Declined)?;
    let ld = LoadStore::decode(s.w1).ok_or(NoRewrite::Declined)?;
    ldr_at_page(s, a, ld)
}

// The target by an ADR into rd, if it is within 1 MiB of the ADRP.
#[tactic(auto, unfolding(crate::specs::Two::adr_to, util::specs::Choice::choose))]
pub fn adr_to(s: Insns, rd: u32, target: u64) -> Decision
    requires { rd < 32 }
    ensures { result ≡ adr_to s rd target }
{
    if !within_1mb(s.p0, target) {
        return Err(NoRewrite::Declined);
    }
    adr_first(s, rd, target)
}

// What an ADD to the ADRP's register makes, within 1 MiB of the ADRP, is made by an ADR.
#[tactic(auto, unfolding(crate::specs::Two::add_at_page, util::specs::Choice::choose))]
fn add_at_page(s: Insns, a: Adrp, d: Add) -> Decision
    requires { d.rd < 32 }
    ensures { result ≡ add_at_page s a d }
{
    if d.rn != a.rd {
        return Err(NoRewrite::Declined);
    }
    let target = sum_of(a.page(s.p0), d.imm).ok_or(NoRewrite::Nine)?;
    adr_to(s, d.rd, target)
}

// ADRP_ADD. `pair`: the entries are the halves of one reference.
#[tactic(auto, unfolding(crate::specs::Two::adrp_add, util::specs::Choice::choose))]
pub fn adrp_add(s: Insns, pair: bool) -> Decision
    ensures { result ≡ adrp_add s pair }
{
    if !pair {
        return Err(NoRewrite::Declined);
    }
    let a = Adrp::decode(s.w0).ok_or(NoRewrite::Declined)?;
    let d = Add::decode(s.w1).ok_or(NoRewrite::Declined)?;
    add_at_page(s, a, d)
}
