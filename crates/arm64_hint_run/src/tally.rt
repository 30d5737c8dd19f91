// The hint run with a lent tally.
ghost use Rattle.std.specs.Prelude.{◌≡◌};
ghost use Rattle.arm64_hint_run.specs.Run.{run_of, image_of, run_number, tally_after};

use crate::run::run;
use arm64_hint_work::tally::Tally;
use macho::refusal::settle;

// Works the hints on the image by the entries: 0 and the tally overwritten, or the number of the refusal and everything lent as it was.
pub fn apply_hints(image: &mut [u8], hints: &[u8], entries: &[u8], tally: &mut Tally) -> u8
    ensures { (result ≡ run_number (run_of image.old hints.now entries.now))
        × (tally.new ≡ tally_after tally.old (run_of image.old hints.now entries.now))
        × (image.new ≡ image_of image.old hints.now entries.now) }
{
    settle(run(image, hints, entries), tally)
}
