// What the toolchain does not carry, each with the must-fail edit that asks for it (docs/DECISIONS.md). Nothing else uses this crate.
#![tactic(auto)]

ghost use Rattle.std.specs.Prelude.{◌≡◌, ◌+◌, ◌≤◌, length};
ghost use Rattle.util.specs.Word.{put};

use arm64_hint_rules::part::part;
use util::write32;

// A word stored through the part of an image that is still held. The part has a ghost name of its own, so that of the image only the length is
// known afterwards. The hint rules are therefore lent the cut, and their part is all of it.
pub fn store_through(image: &mut [u8], start: usize, len: usize, at: usize, word: u32)
    requires { (start + len ≤ length image.old) × (at + 4 ≤ len) }
    ensures { length image.new ≡ length (put 4 image.old (start + at) word) }
{
    let section = part(image, start, len);
    write32(section, at, word);
}
