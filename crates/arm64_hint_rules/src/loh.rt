// The eight hint rules at work (the Rust's `loh_adrp_adrp` to `loh_adrp_ldr_got_str`).
ghost use Rattle.std.specs.Prelude.{◌≡◌, length};
ghost use Rattle.arm64_hint_places.specs.Hint.{Inside};
ghost use Rattle.arm64_hint_rules.specs.Rule.{ruled_in, section_after};

use crate::decide::{Rule, decide};
use crate::outcome::HintOutcome;
use crate::part::part;
use crate::store::store;
use arm64_hint_places::insns_of;
use arm64_hint_terms::rels::Rels;
use macho::hint::HintRecord;

// A rule at work: it gets its section as the part of what is lent, reads its words there, and stores what is decided through it. The run lends the
// hint's part itself, so that the part taken here starts at 0 and is all of it.
pub fn loh<R: Rule>(section: &mut [u8], h: HintRecord, r: Rels) -> HintOutcome
    requires { Inside h (length section.old) }
    ensures outcome { result ≡ ruled_in R.kind h r section.old }
    ensures section { section.new ≡ section_after R.kind h r section.old }
{
    let len = section.len();
    let buf = part(section, 0, len);
    let s = insns_of(buf, h);
    let d = decide::<R>(s, r);
    store(buf, h, d);
    Some((d, s))
}
