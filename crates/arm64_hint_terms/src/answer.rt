// What a rule decides.
ghost use Rattle.std.specs.Prelude.{◌≡◌};
ghost use Rattle.arm64_hint_terms.specs.Answer.{sum_of, fits_literal};
ghost use Rattle.arm64_hint_terms.specs.Operands.{Operands};

use arm64_insn::add::Add;
use arm64_insn::ldst::LoadStore;

// The words of a hint and their addresses, in the order of its places.
#[derive(Clone, Copy)]
pub struct Insns {
    pub w0: u32,
    pub w1: u32,
    pub w2: u32,
    pub p0: u64,
    pub p1: u64,
    pub p2: u64,
}

// Which rewrite a rule makes: second ADRP dropped, literal load, ADR, fold, literal load of a GOT slot.
#[derive(Clone, Copy)]
pub enum Rewrite {
    Drop,
    Literal,
    Adr,
    Fold,
    Slot,
}

// A rewrite with the new word of each place, or none where the place is not written.
#[derive(Clone, Copy)]
pub struct Plan {
    pub rewrite: Rewrite,
    pub w0: Option<u32>,
    pub w1: Option<u32>,
    pub w2: Option<u32>,
}

// Why a rule makes no rewrite: it declined, or a sum was above 2^64 - 1 (decision_number, 9).
#[derive(Clone, Copy, PartialEq, Eq)]
pub enum NoRewrite {
    Declined,
    Nine,
}

// A rule's answer.
pub type Decision = Result<Plan, NoRewrite>;

// An ADD and an access through what it makes, as decoded.
#[derive(Clone, Copy)]
pub struct AddAccess {
    pub add: Add,
    pub access: LoadStore,
    ghost decoded: { Operands add access },
}

// a + b, where that is below 2^64.
#[tactic(auto, unfolding(crate::specs::Answer::sum_of, util::specs::Choice::choose))]
pub fn sum_of(a: u64, b: u64) -> Option<u64>
    ensures { result ≡ sum_of a b }
{
    a.checked_add(b)
}

// Whether a load has a literal form that reaches target from pc.
#[tactic(auto, unfolding(crate::specs::Answer::fits_literal))]
pub fn fits_literal(ld: LoadStore, target: u64, pc: u64) -> bool
    ensures { result ≡ fits_literal ld target pc }
{
    ld.has_literal_form() && target % 4 == 0 && arm64_insn::page::within_1mb(pc, target)
}
