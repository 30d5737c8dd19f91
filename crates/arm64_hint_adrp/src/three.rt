// The rules ADRP_ADD_LDR and ADRP_ADD_STR.
ghost use Rattle.std.specs.Prelude.{◌≡◌, ◌<◌};
ghost use Rattle.arm64_hint_adrp.specs.Three.{add_access, through, folds, fold_third, fold_or_adr, adrp_add_ldr, adrp_add_str};

use arm64_hint_terms::answer::{AddAccess, Decision, Insns, NoRewrite, fits_literal, sum_of};
use arm64_hint_terms::plans::{adr_third, fold, literal_third};
use arm64_insn::add::Add;
use arm64_insn::adrp::Adrp;
use arm64_insn::ldst::LoadStore;
use arm64_insn::page::within_1mb;

// The address that ADRP and ADD make, the ADD, and the access through it: an ADD to the ADRP's register, and an access through what the ADD made.
#[tactic(auto, unfolding(crate::specs::Three::add_access, util::specs::Choice::choose))]
fn add_access(s: Insns, a: Adrp, d: Add, ls: LoadStore) -> Result<(u64, Add, LoadStore), NoRewrite>
    ensures { result ≡ add_access s a d ls }
{
    if d.rn != a.rd || ls.base != d.rd {
        return Err(NoRewrite::Declined);
    }
    let addr = sum_of(a.page(s.p0), d.imm).ok_or(NoRewrite::Nine)?;
    Ok((addr, d, ls))
}

// The same of the words as ADRP, ADD and access. `pair`: the entries are the halves of one reference.
#[tactic(auto, unfolding(crate::specs::Three::through, util::specs::Choice::choose))]
fn adrp_add_ldst(s: Insns, pair: bool) -> Result<(u64, Add, LoadStore), NoRewrite>
    ensures { result ≡ through s pair }
{
    if !pair {
        return Err(NoRewrite::Declined);
    }
    let a = Adrp::decode(s.w0).ok_or(NoRewrite::Declined)?;
    let d = Add::decode(s.w1).ok_or(NoRewrite::Declined)?;
    let ls = LoadStore::decode(s.w2).ok_or(NoRewrite::Declined)?;
    add_access(s, a, d, ls)
}

// Whether the ADD folds into an access: that has no offset of its own, and the ADD makes a multiple of the bytes moved. The division comes last, for
// its time.
#[tactic(auto, unfolding(crate::specs::Three::folds))]
fn folds(addr: u64, ls: LoadStore) -> bool
    requires { 0 < ls.size }
    ensures { result ≡ folds addr ls }
{
    ls.offset == 0 && addr % ls.size == 0
}

// The fold of the ADD's immediate into an access.
#[tactic(auto, unfolding(crate::specs::Three::fold_third, util::specs::Choice::choose))]
pub fn fold_third(addr: u64, via: AddAccess) -> Decision
    ensures { result ≡ fold_third addr via.add via.access }
{
    if !folds(addr, via.access) {
        return Err(NoRewrite::Declined);
    }
    fold(via.access, via.add.rn, via.add.imm)
}

// The fold; else the accessed address by an ADR, in reach of the ADRP.
#[tactic(auto, unfolding(crate::specs::Three::fold_or_adr, crate::specs::Three::fold_third, util::specs::Choice::choose))]
fn fold_or_adr(s: Insns, addr: u64, via: AddAccess, target: u64) -> Decision
    ensures { result ≡ fold_or_adr s addr via.add via.access target }
{
    fold_third(addr, via).or_else(|_| {
        if !within_1mb(s.p0, target) {
            return Err(NoRewrite::Declined);
        }
        adr_third(s, via.access, target)
    })
}

// A load through ADRP and ADD: a literal load within 1 MiB of the load, else the fold, else an ADR within 1 MiB of the ADRP. The Rust has the ADR
// before the fold.
#[tactic(auto, unfolding(crate::specs::Three::adrp_add_ldr, crate::specs::Three::load_through, util::specs::Choice::choose))]
pub fn adrp_add_ldr(s: Insns, pair: bool) -> Decision
    ensures { result ≡ adrp_add_ldr s pair }
{
    let (addr, d, ld) = adrp_add_ldst(s, pair)?;
    let target = sum_of(addr, ld.offset).ok_or(NoRewrite::Nine)?;
    if fits_literal(ld, target, s.p2) {
        return literal_third(s, ld, target);
    }
    fold_or_adr(s, addr, AddAccess { add: d, access: ld }, target)
}

// A store through ADRP and ADD, as a load but for the literal form.
#[tactic(auto, unfolding(crate::specs::Three::adrp_add_str, util::specs::Choice::choose))]
pub fn adrp_add_str(s: Insns, pair: bool) -> Decision
    ensures { result ≡ adrp_add_str s pair }
{
    let (addr, d, st) = adrp_add_ldst(s, pair)?;
    if !st.is_store {
        return Err(NoRewrite::Declined);
    }
    let target = sum_of(addr, st.offset).ok_or(NoRewrite::Nine)?;
    fold_or_adr(s, addr, AddAccess { add: d, access: st }, target)
}
