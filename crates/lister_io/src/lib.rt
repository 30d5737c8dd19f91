// The word lister (RULES 10) at work: what a reader gives is listed on a writer.
#![tactic(auto)]

ghost use Rattle.std.specs.Prelude.{◌≡◌, ℕ, ◌⊎◌, ◌<◌, ◌≤◌, length, take, IfOk, OnErr};
ghost use Rattle.std.specs.Io.KnownBytes.{Appends, Consumes, IsAtEnd};
ghost use Rattle.lister_text.specs.Text.{text_of};
ghost use Rattle.util.specs.Puts.{Puts};

use std::io;
use std::io::{Read, Write};

// How many bytes were read, and how many bytes of text they came to.
#[derive(Drop)]
pub struct Listed {
    pub input: usize,
    pub text: usize,
}

// Reads into `input`, puts the text of what was read into `out`, and writes it. What reaches the two ends of the program is outside
// every contract, but not what a reader or a writer says it has. After an error what was read stands at the front of `input`, and `out` is
// as it was or has the text of that.
pub fn run<R: Read, W: Write>(
    from: &mut R,
    to: &mut W,
    input: &mut [u8],
    out: &mut [u8; 110592],
) -> io::Result<Listed>
    ensures read { IfOk result (λ r. r.input ≤ length input.new) }
    ensures text { IfOk result (λ r. Puts out.old 0 (text_of (take r.input input.new)) r.text out.new) }
    ensures taken { IfOk result (λ r. Consumes (R.remaining from.old) (R.remaining from.new) (take r.input input.new)) }
    ensures end { IfOk result (λ r. r.input < length input.new → IsAtEnd (R.remaining from.new)) }
    ensures lent { OnErr result ((length input.new ≡ length input.old) × (length out.new ≡ length out.old)) }
    ensures none_lost { OnErr result ((n : ℕ) × Consumes (R.remaining from.old) (R.remaining from.new) (take n input.new)
        × ((out.new ≡ out.old) ⊎ ((m : ℕ) × Puts out.old 0 (text_of (take n input.new)) m out.new))) }
    ensures written { IfOk result (λ r. Appends (W.contents to.old) (W.contents to.new) (take r.text out.new)) }
{
    let got = text_io::read_full(from, input)?;
    let n = lister_text::text(&input[..got], out);
    text_io::write_first(to, out, n)?;
    Ok(Listed {
        input: got,
        text: n,
    })
}
