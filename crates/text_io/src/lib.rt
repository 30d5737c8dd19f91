// Bytes from a reader, and a text to a writer. Where a reader or a writer says which bytes it has, the contracts say what becomes of them.
#![tactic(auto)]

pub mod row;

ghost use Rattle.std.specs.Prelude.{◌≡◌, ℕ, ◌<◌, ◌≤◌, length, take, IfOk, OnErr, OnOk};
ghost use Rattle.std.specs.Io.KnownBytes.{Appends, Consumes, IsAtEnd};

use std::io;
use std::io::{Read, Write};

// Reads until `input` is full or nothing is left, and says how many bytes were put at its front. After an error those that were read before
// it stand there.
pub fn read_full<R: Read>(from: &mut R, input: &mut [u8]) -> io::Result<usize>
    ensures bound { IfOk result (λ n. n ≤ length input.new) }
    ensures bytes { IfOk result (λ n. Consumes (R.remaining from.old) (R.remaining from.new) (take n input.new)) }
    ensures end { IfOk result (λ n. n < length input.new → IsAtEnd (R.remaining from.new)) }
    ensures lent { OnErr result (length input.new ≡ length input.old) }
    ensures none_lost { OnErr result ((n : ℕ) × Consumes (R.remaining from.old) (R.remaining from.new) (take n input.new)) }
{
    let mut done = 0;
    while done < input.len() {
        let n = from.read(&mut input[done..])?;
        if n == 0 {
            break;
        }
        done += n;
    }
    Ok(done)
}

// Writes the first n bytes, and leaves all of them as they are.
pub fn write_first<W: Write>(to: &mut W, out: &[u8], n: usize) -> io::Result<()>
    requires { n ≤ length out.now }
    ensures stay { out.exit.now ≡ out.entry.now }
    ensures written { OnOk result (Appends (W.contents to.old) (W.contents to.new) (take n out.now)) }
{
    to.write_all(&out[..n])
}
