// The hint run, and the listed one.
ghost use Rattle.std.specs.Prelude.{◌≡◌};
ghost use Rattle.hauklivo.specs.Hints.{number_to, tally_to, image_to};
ghost use Rattle.hauklivo.specs.Hints.{listed_number_to, listed_tally_to, listed_image_to, records_to};

use arm64_hint_listed::run_listed;
use arm64_hint_run::tally::apply_hints;
use arm64_hint_work::tally::Tally;
use macho::refusal::settle;

// Works the hints on the image by the entries; `tally` gets the counts.
pub fn hauklivo_apply_hints(image: &mut [u8], hints: &[u8], entries: &[u8], tally: &mut Tally) -> u8
    ensures { (result ≡ number_to image.old hints.now entries.now)
        × (tally.new ≡ tally_to image.old hints.now entries.now tally.old)
        × (image.new ≡ image_to image.old hints.now entries.now) }
{
    apply_hints(image, hints, entries, tally)
}

// Works the hints as hauklivo_apply_hints does, and fills `records` with what became of each, in the order of work; `tally` gets the counts.
pub fn hauklivo_apply_hints_listed(
    image: &mut [u8],
    hints: &[u8],
    entries: &[u8],
    records: &mut [u8],
    tally: &mut Tally,
) -> u8
    ensures { (result ≡ listed_number_to image.old hints.now entries.now records.old)
        × (tally.new ≡ listed_tally_to image.old hints.now entries.now records.old tally.old)
        × (image.new ≡ listed_image_to image.old hints.now entries.now records.old)
        × (records.new ≡ records_to image.old hints.now entries.now records.old) }
{
    settle(run_listed(image, hints, entries, records), tally)
}
