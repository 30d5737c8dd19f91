// The part of a lent image.
ghost use Rattle.std.specs.Prelude.{◌≡◌, ◌+◌, ◌≤◌, length};
ghost use Rattle.util.specs.Part.{part};

// The part from start over len. In the run, which lends the part itself, start is 0 and len is all: the lender knows what is written through it.
pub fn part(image: &mut [u8], start: usize, len: usize) -> &mut [u8]
    requires { start + len ≤ length image.old }
    ensures bytes { result.now ≡ part image.old start len }
    ensures whole { start ≡ 0 → len ≡ length image.old → result ≡ image.entry }
{
    if start == 0 {
        if len == image.len() {
            return image;
        }
    }
    &mut image[start..start + len]
}
