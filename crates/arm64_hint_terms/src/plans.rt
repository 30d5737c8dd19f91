// The rewrites: what each writes at each place.
ghost use Rattle.std.specs.Prelude.{◌≡◌, ◌<◌};
ghost use Rattle.arm64_insn.specs.Literal.{Rebased};
ghost use Rattle.arm64_hint_terms.specs.Plans.{rewritten, dropped, literal_second, literal_third, adr_first, adr_third, folded};

use crate::answer::{Decision, Insns, Plan, Rewrite};
use arm64_insn::adrp::adr;
use arm64_insn::fix::NOP;
use arm64_insn::ldst::LoadStore;

// A rewrite with what it writes at each place.
fn rewritten(rewrite: Rewrite, w0: Option<u32>, w1: Option<u32>, w2: Option<u32>) -> Decision
    ensures { result ≡ rewritten rewrite w0 w1 w2 }
{
    Ok(Plan {
        rewrite,
        w0,
        w1,
        w2,
    })
}

// The second ADRP dropped.
pub fn drop_second() -> Decision
    ensures { result ≡ dropped }
{
    rewritten(Rewrite::Drop, None, Some(NOP), None)
}

// The second word as a literal load of target.
pub fn literal_second(rewrite: Rewrite, s: Insns, ld: LoadStore, target: u64) -> Decision
    requires { ld.reg < 32 }
    ensures { result ≡ literal_second rewrite s ld target }
{
    let word = ld.to_literal(target, s.p1);
    rewritten(rewrite, Some(NOP), Some(word), None)
}

// The third word as a literal load of target.
pub fn literal_third(s: Insns, ld: LoadStore, target: u64) -> Decision
    requires { ld.reg < 32 }
    ensures { result ≡ literal_third s ld target }
{
    let word = ld.to_literal(target, s.p2);
    rewritten(Rewrite::Literal, Some(NOP), Some(NOP), Some(word))
}

// The target by an ADR into the register rd. A third word is not written.
pub fn adr_first(s: Insns, rd: u32, target: u64) -> Decision
    requires { rd < 32 }
    ensures { result ≡ adr_first s rd target }
{
    let word = adr(rd, target, s.p0);
    rewritten(Rewrite::Adr, Some(word), Some(NOP), None)
}

// The target by an ADR into the base of the third word's access, which loses its offset.
pub fn adr_third(s: Insns, ls: LoadStore, target: u64) -> Decision
    requires { Rebased ls ls.base 0 }
    ensures { result ≡ adr_third s ls target }
{
    let first = adr(ls.base, target, s.p0);
    let third = ls.with_base(ls.base, 0);
    rewritten(Rewrite::Adr, Some(first), Some(NOP), Some(third))
}

// The ADD dropped, and the access through the register rn at the offset.
pub fn fold(ls: LoadStore, rn: u32, offset: u64) -> Decision
    requires { Rebased ls rn offset }
    ensures { result ≡ folded ls rn offset }
{
    let word = ls.with_base(rn, offset);
    rewritten(Rewrite::Fold, None, Some(NOP), Some(word))
}
