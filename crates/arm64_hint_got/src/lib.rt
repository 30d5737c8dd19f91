// The hint rules of a GOT load: ADRP_LDR_GOT, ADRP_LDR_GOT_LDR and ADRP_LDR_GOT_STR (arch/arm64.rs).
#![tactic(auto)]

ghost use Rattle.std.specs.Prelude.{◌≡◌, ◌<◌, Some};
ghost use Rattle.arm64_insn.specs.LoadStore.{load_store_of};
ghost use Rattle.arm64_hint_got.specs.Got.{loads_slot, slot_load, relaxed_load, got_load, adrp_ldr_got, got_literal};
ghost use Rattle.arm64_hint_got.specs.Got.{fold_load, adr_or_fold_load, relaxed_ldr, adrp_ldr_got_ldr, relaxed_str, adrp_ldr_got_str, ThroughGot};

use arm64_hint_adrp::three::fold_third;
use arm64_hint_adrp::two::adr_to;
use arm64_hint_terms::answer::{AddAccess, Decision, Insns, NoRewrite, Rewrite, sum_of};
use arm64_hint_terms::plans::{fold, literal_second, literal_third};
use arm64_insn::add::Add;
use arm64_insn::adrp::Adrp;
use arm64_insn::ldst::LoadStore;
use arm64_insn::page::within_1mb;

// The GOT load as it now stands: a load of the slot at an address, or an ADD that makes the target.
#[derive(Clone, Copy)]
pub enum GotLoad {
    Slot(u64, LoadStore),
    Relaxed(u64, Add),
}

// Whether an access is an 8-byte load into a general register, through the register rd.
#[tactic(auto, unfolding(crate::specs::Got::loads_slot, util::specs::Choice::choose))]
fn loads_slot(ld: LoadStore, rd: u32) -> bool
    ensures { result ≡ loads_slot ld rd }
{
    ld.size == 8 && !ld.is_float && !ld.is_store && ld.base == rd
}

// The second word as a load of the slot.
#[tactic(auto, unfolding(crate::specs::Got::slot_load, util::specs::Choice::choose))]
fn slot_load(s: Insns, a: Adrp, ld: LoadStore) -> Result<GotLoad, NoRewrite>
    ensures { result ≡ slot_load s a ld }
{
    if !loads_slot(ld, a.rd) {
        return Err(NoRewrite::Declined);
    }
    let slot = sum_of(a.page(s.p0), ld.offset).ok_or(NoRewrite::Nine)?;
    Ok(GotLoad::Slot(slot, ld))
}

// The second word as the ADD that a relaxed load became.
#[tactic(auto, unfolding(crate::specs::Got::relaxed_load, util::specs::Choice::choose))]
fn relaxed_load(s: Insns, a: Adrp, d: Add) -> Result<GotLoad, NoRewrite>
    ensures { result ≡ relaxed_load s a d }
{
    if d.rn != a.rd {
        return Err(NoRewrite::Declined);
    }
    let target = sum_of(a.page(s.p0), d.imm).ok_or(NoRewrite::Nine)?;
    Ok(GotLoad::Relaxed(target, d))
}

// The GOT load of the first two words. `pair`: the entries are the halves of one reference to a GOT slot.
#[tactic(auto, unfolding(crate::specs::Got::got_load, util::specs::Choice::choose))]
fn got_load(s: Insns, pair: bool) -> Result<GotLoad, NoRewrite>
    ensures { result ≡ got_load s pair }
{
    if !pair {
        return Err(NoRewrite::Declined);
    }
    let a = Adrp::decode(s.w0).ok_or(NoRewrite::Declined)?;
    if let Some(ld) = LoadStore::decode(s.w1) {
        return slot_load(s, a, ld);
    }
    let d = Add::decode(s.w1).ok_or(NoRewrite::Declined)?;
    relaxed_load(s, a, d)
}

// A slot within 1 MiB of its load is loaded by a literal load; relaxed, a target within 1 MiB of the ADRP becomes an ADR.
#[tactic(auto, unfolding(crate::specs::Got::adrp_ldr_got, util::specs::Choice::choose))]
pub fn adrp_ldr_got(s: Insns, pair: bool) -> Decision
    ensures { result ≡ adrp_ldr_got s pair }
{
    match got_load(s, pair)? {
        GotLoad::Slot(slot, got) => {
            if !within_1mb(s.p1, slot) {
                return Err(NoRewrite::Declined);
            }
            literal_second(Rewrite::Slot, s, got, slot)
        }
        GotLoad::Relaxed(target, d) => adr_to(s, d.rd, target),
    }
}

// An access through the slot's load. Reach and alignment are measured to the slot plus the access's offset.
#[tactic(auto, unfolding(crate::specs::Got::got_literal, crate::specs::Got::slot_to, util::specs::Choice::choose))]
fn got_literal(s: Insns, slot: u64, got: LoadStore, ls: LoadStore) -> Decision
    requires { got.reg < 32 }
    ensures { result ≡ got_literal s slot got ls }
{
    let end = sum_of(slot, ls.offset).ok_or(NoRewrite::Nine)?;
    if ls.base != got.reg || end % 4 != 0 {
        return Err(NoRewrite::Declined);
    }
    if !within_1mb(s.p1, end) || !within_1mb(s.p1, slot) {
        return Err(NoRewrite::Declined);
    }
    literal_second(Rewrite::Slot, s, got, slot)
}

// The fold of the ADD's immediate into a load, added to the load's own offset.
#[tactic(auto, unfolding(crate::specs::Got::fold_load, util::specs::Choice::choose))]
fn fold_load(target: u64, via: AddAccess) -> Decision
    ensures { result ≡ fold_load target via.add via.access }
{
    let offset = via.add.imm + via.access.offset;
    if target % via.access.size != 0 || offset >= 4096 {
        return Err(NoRewrite::Declined);
    }
    fold(via.access, via.add.rn, offset)
}

// The target by an ADR in reach of the ADRP, else the fold.
#[tactic(auto, unfolding(crate::specs::Got::adr_or_fold_load, arm64_hint_adrp::specs::Two::adr_to, util::specs::Choice::choose))]
fn adr_or_fold_load(s: Insns, target: u64, via: AddAccess) -> Decision
    ensures { result ≡ adr_or_fold_load s target via.add via.access }
{
    adr_to(s, via.access.base, target).or_else(|_| fold_load(target, via))
}

// A load through the ADD that a relaxed load became: a literal load, an ADR, or the fold.
#[tactic(auto, unfolding(crate::specs::Got::relaxed_ldr, crate::specs::Got::relaxed_to, util::specs::Choice::choose))]
fn relaxed_ldr(s: Insns, target: u64, via: AddAccess) -> Decision
    ensures { result ≡ relaxed_ldr s target via.add via.access }
{
    if !via.access.has_literal_form() || target % 4 != 0 {
        return adr_or_fold_load(s, target, via);
    }
    let end = sum_of(target, via.access.offset).ok_or(NoRewrite::Nine)?;
    if !within_1mb(s.p2, end) {
        return adr_or_fold_load(s, target, via);
    }
    literal_third(s, via.access, end)
}

// An access through a GOT load: what the slot's load becomes, or what `relaxed` makes of the target and of the ADD to the access's base.
fn through_got<F: FnOnce(u64, AddAccess) -> Decision>(
    s: Insns,
    pair: bool,
    ls: LoadStore,
    relaxed: F,
) -> Decision
    requires decoded { load_store_of s.w2 ≡ Some ls }
    requires callable { F.IsAlwaysCallable relaxed }
    ensures { ThroughGot s ls (got_load s pair) (F.post relaxed) result }
{
    match got_load(s, pair)? {
        GotLoad::Slot(slot, got) => got_literal(s, slot, got, ls),
        GotLoad::Relaxed(target, d) if d.rd == ls.base => relaxed(
            target,
            AddAccess { add: d, access: ls },
        ),
        GotLoad::Relaxed(..) => Err(NoRewrite::Declined),
    }
}

// A load through a GOT load. A store passes on to all but a literal load of its own.
#[tactic(auto, unfolding(crate::specs::Got::adrp_ldr_got_ldr, util::specs::Choice::choose))]
pub fn adrp_ldr_got_ldr(s: Insns, pair: bool) -> Decision
    ensures { result ≡ adrp_ldr_got_ldr s pair }
{
    let ld = LoadStore::decode(s.w2).ok_or(NoRewrite::Declined)?;
    through_got(s, pair, ld, |target, via| relaxed_ldr(s, target, via))
}

// A store through the ADD that a relaxed load became: an ADR, or the fold.
#[tactic(auto, unfolding(crate::specs::Got::relaxed_str, arm64_hint_adrp::specs::Two::adr_to, util::specs::Choice::choose))]
fn relaxed_str(s: Insns, target: u64, via: AddAccess) -> Decision
    ensures { result ≡ relaxed_str s target via.add via.access }
{
    adr_to(s, via.access.base, target).or_else(|_| fold_third(target, via))
}

// A store through a GOT load.
#[tactic(auto, unfolding(crate::specs::Got::adrp_ldr_got_str, util::specs::Choice::choose))]
pub fn adrp_ldr_got_str(s: Insns, pair: bool) -> Decision
    ensures { result ≡ adrp_ldr_got_str s pair }
{
    let st = LoadStore::decode(s.w2).ok_or(NoRewrite::Declined)?;
    if !st.is_store {
        return Err(NoRewrite::Declined);
    }
    through_got(s, pair, st, |target, via| relaxed_str(s, target, via))
}
