// The work of one hint.
ghost use Rattle.std.specs.Prelude.{◌≡◌, ◌/◌, ◌<◌, length, Ok};
ghost use Rattle.macho.specs.Hint.{hint_count, hint_of};
ghost use Rattle.macho.specs.Reloc.{reloc_size};
ghost use Rattle.image.specs.Steps.{answered, written};
ghost use Rattle.arm64_hint_places.specs.Hint.{Inside, is_skipped};
ghost use Rattle.arm64_hint_check.specs.Check.{check_hint};
ghost use Rattle.arm64_hint_rules.specs.Rule.{ruled_in, section_after};
ghost use Rattle.arm64_hint_work.specs.Step.{steps_of};

use arm64_hint_places::rels_of;
use arm64_hint_rules::decide::{
    AdrpAdd, AdrpAddLdr, AdrpAddStr, AdrpAdrp, AdrpLdr, AdrpLdrGot, AdrpLdrGotLdr, AdrpLdrGotStr,
};
use arm64_hint_rules::loh::loh;
use arm64_hint_rules::outcome::HintOutcome;
use arm64_hint_terms::rels::Rels;
use macho::consts;
use macho::hint::HintRecord;

// The rule of a hint's kind on its section: a choice over the kind where the Rust has function pointers.
fn apply(section: &mut [u8], h: HintRecord, r: Rels) -> HintOutcome
    requires { Inside h (length section.old) }
    ensures outcome { result ≡ ruled_in h.kind h r section.old }
    ensures section { section.new ≡ section_after h.kind h r section.old }
{
    match h.kind {
        consts::LOH_ARM64_ADRP_ADRP => loh::<AdrpAdrp>(section, h, r),
        consts::LOH_ARM64_ADRP_LDR => loh::<AdrpLdr>(section, h, r),
        consts::LOH_ARM64_ADRP_ADD_LDR => loh::<AdrpAddLdr>(section, h, r),
        consts::LOH_ARM64_ADRP_LDR_GOT_LDR => loh::<AdrpLdrGotLdr>(section, h, r),
        consts::LOH_ARM64_ADRP_ADD_STR => loh::<AdrpAddStr>(section, h, r),
        consts::LOH_ARM64_ADRP_LDR_GOT_STR => loh::<AdrpLdrGotStr>(section, h, r),
        consts::LOH_ARM64_ADRP_ADD => loh::<AdrpAdd>(section, h, r),
        consts::LOH_ARM64_ADRP_LDR_GOT => loh::<AdrpLdrGot>(section, h, r),
        _ => None,
    }
}

// What `is_skipped` says, without a branch by the kind, which kinds that come mixed would mispredict: kinds 3 to 6 have three words, the others two.
#[tactic(auto, unfolding(arm64_hint_places::specs::Hint::is_skipped, macho::specs::Hint::word_count, util::specs::Choice::choose))]
fn skips(h: HintRecord) -> bool
    ensures { result ≡ is_skipped h }
{
    let third = consts::LOH_ARM64_ADRP_ADD_LDR <= h.kind
        && h.kind <= consts::LOH_ARM64_ADRP_LDR_GOT_STR;
    h.kind == 0 || consts::LOH_ARM64_ADRP_LDR_GOT < h.kind || h.n != 2 + u8::from(third)
}

// Works hint k on the image: lends its part to the rule of its kind.
pub fn work(image: &mut [u8], hints: &[u8], entries: &[u8], k: usize) -> HintOutcome
    requires { (k < hint_count hints.now) × (check_hint (length image.old) (length entries.now / reloc_size) (hint_of hints.now k) ≡ Ok tt) }
    ensures outcome { result ≡ answered (steps_of hints.now entries.now) k image.old }
    ensures image { image.new ≡ written (steps_of hints.now entries.now) k image.old }
{
    let at = HintRecord::SIZE * k;
    // Read for the test alone, and whole after it: so a hint that is skipped costs the two fields that are tested.
    if skips(HintRecord::read(hints, at)) {
        return None;
    }
    let h = HintRecord::read(hints, at);
    let r = rels_of(entries, h);
    let start = h.start as usize;
    let end = start + h.len as usize;
    apply(&mut image[start..end], h, r)
}
