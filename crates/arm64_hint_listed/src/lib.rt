// The listed hint run: as the hint run, with a record of each hint in the order of work (arch/arm64.rs, `apply_hints`).
#![tactic(auto)]

ghost use Rattle.std.specs.Prelude.{◌≡◌};
ghost use Rattle.arm64_hint_listed.specs.Listed.{listed_of, image_of, slots_of};

use arm64_hint_check::check_listed;
use arm64_hint_run::run::work_and_list;
use arm64_hint_work::tally::Tally;
use macho::refusal::Refusal;

// Works the hints on the image by the entries and fills the slots with their records, unless something lent is turned down.
pub fn run_listed(
    image: &mut [u8],
    hints: &[u8],
    entries: &[u8],
    slots: &mut [u8],
) -> Result<Tally, Refusal>
    ensures answer { result ≡ listed_of image.old hints.now entries.now slots.old }
    ensures image { image.new ≡ image_of image.old hints.now entries.now slots.old }
    ensures slots { slots.new ≡ slots_of image.old hints.now entries.now slots.old }
{
    let rises = check_listed(image.len(), hints, entries.len(), slots.len())?;
    Ok(work_and_list(image, hints, entries, slots, true, rises))
}
