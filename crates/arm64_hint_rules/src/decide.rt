// What is decided of a hint of each kind: number 31 bars it, or its rule decides. The Rust has no such test.
#![tactic(auto, unfolding(arm64_hint_laws::specs::Decide::decide, arm64_hint_laws::specs::Decide::by_rule, arm64_hint_laws::specs::Decide::bars31, macho::specs::Hint::word_count, util::specs::Choice::choose))]

ghost use Rattle.std.specs.Prelude.{◌≡◌, ℕ};
ghost use Rattle.macho.specs.Types.{MCLOH_AdrpAdrp, MCLOH_AdrpLdr, MCLOH_AdrpAddLdr, MCLOH_AdrpLdrGotLdr};
ghost use Rattle.macho.specs.Types.{MCLOH_AdrpAddStr, MCLOH_AdrpLdrGotStr, MCLOH_AdrpAdd, MCLOH_AdrpLdrGot};
ghost use Rattle.arm64_hint_laws.specs.Decide.{by_rule, bars31, decide};

use arm64_hint_adrp::three::{adrp_add_ldr, adrp_add_str};
use arm64_hint_adrp::two::{adrp_add, adrp_adrp, adrp_ldr};
use arm64_hint_got::{adrp_ldr_got, adrp_ldr_got_ldr, adrp_ldr_got_str};
use arm64_hint_terms::answer::{Decision, Insns, NoRewrite};
use arm64_hint_terms::rels::{Rels, both_pages, has_page_pair};
use arm64_insn::links::meet_31;

// The rule of a kind of hints.
pub trait Rule {
    // The kind's number.
    ghost kind: { ℕ };

    // Whether number 31 bars a hint with these words.
    fn bars_31(s: Insns) -> bool
        ensures { result ≡ bars31 kind s };

    // What the rule decides of the words and the entries of a hint that is not barred.
    fn by_rule(s: Insns, r: Rels) -> Decision
        ensures { result ≡ by_rule kind s r };
}

// What is decided of a hint with these words and entries.
pub fn decide<R: Rule>(s: Insns, r: Rels) -> Decision
    ensures { result ≡ decide R.kind s r }
{
    if R::bars_31(s) {
        return Err(NoRewrite::Declined);
    }
    R::by_rule(s, r)
}

// Two ADRPs of one page into one register: the second is dropped. Number 31 is not asked.
pub struct AdrpAdrp;

impl Rule for AdrpAdrp {
    ghost kind = { MCLOH_AdrpAdrp };

    fn bars_31(_s: Insns) -> bool {
        false
    }

    fn by_rule(s: Insns, r: Rels) -> Decision {
        adrp_adrp(s, both_pages(r))
    }
}

// A load from within 1 MiB of itself becomes a literal load.
pub struct AdrpLdr;

impl Rule for AdrpLdr {
    ghost kind = { MCLOH_AdrpLdr };

    fn bars_31(s: Insns) -> bool {
        meet_31(&[s.w0, s.w1])
    }

    fn by_rule(s: Insns, r: Rels) -> Decision {
        adrp_ldr(s, has_page_pair(r, 2, false))
    }
}

// A load through ADRP and ADD: a literal load, an ADR, or the fold.
pub struct AdrpAddLdr;

impl Rule for AdrpAddLdr {
    ghost kind = { MCLOH_AdrpAddLdr };

    fn bars_31(s: Insns) -> bool {
        meet_31(&[s.w0, s.w1, s.w2])
    }

    fn by_rule(s: Insns, r: Rels) -> Decision {
        adrp_add_ldr(s, has_page_pair(r, 3, false))
    }
}

// A load through a GOT load.
pub struct AdrpLdrGotLdr;

impl Rule for AdrpLdrGotLdr {
    ghost kind = { MCLOH_AdrpLdrGotLdr };

    fn bars_31(s: Insns) -> bool {
        meet_31(&[s.w0, s.w1, s.w2])
    }

    fn by_rule(s: Insns, r: Rels) -> Decision {
        adrp_ldr_got_ldr(s, has_page_pair(r, 3, true))
    }
}

// A store through ADRP and ADD: an ADR, or the fold.
pub struct AdrpAddStr;

impl Rule for AdrpAddStr {
    ghost kind = { MCLOH_AdrpAddStr };

    fn bars_31(s: Insns) -> bool {
        meet_31(&[s.w0, s.w1, s.w2])
    }

    fn by_rule(s: Insns, r: Rels) -> Decision {
        adrp_add_str(s, has_page_pair(r, 3, false))
    }
}

// A store through a GOT load.
pub struct AdrpLdrGotStr;

impl Rule for AdrpLdrGotStr {
    ghost kind = { MCLOH_AdrpLdrGotStr };

    fn bars_31(s: Insns) -> bool {
        meet_31(&[s.w0, s.w1, s.w2])
    }

    fn by_rule(s: Insns, r: Rels) -> Decision {
        adrp_ldr_got_str(s, has_page_pair(r, 3, true))
    }
}

// An address within 1 MiB of the ADRP becomes an ADR.
pub struct AdrpAdd;

impl Rule for AdrpAdd {
    ghost kind = { MCLOH_AdrpAdd };

    fn bars_31(s: Insns) -> bool {
        meet_31(&[s.w0, s.w1])
    }

    fn by_rule(s: Insns, r: Rels) -> Decision {
        adrp_add(s, has_page_pair(r, 2, false))
    }
}

// A GOT load: a literal load of the slot, or an ADR where it was relaxed.
pub struct AdrpLdrGot;

impl Rule for AdrpLdrGot {
    ghost kind = { MCLOH_AdrpLdrGot };

    fn bars_31(s: Insns) -> bool {
        meet_31(&[s.w0, s.w1])
    }

    fn by_rule(s: Insns, r: Rels) -> Decision {
        adrp_ldr_got(s, has_page_pair(r, 2, true))
    }
}
