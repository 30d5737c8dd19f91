// Prints the table of classes (RULES 7.33): its file `stdout` is `arm64_ldst_table/src/table.rt`, byte for byte.
#![tactic(auto)]

ghost use Rattle.std.specs.Prelude.{length, take, IfOk, OnErr};
ghost use Rattle.std.specs.Io.KnownBytes.{Appends};
ghost use Rattle.util.specs.Puts.{Puts};
ghost use Rattle.ldst_table_text.specs.Text.{table_text};

use std::io;
use std::io::Write;

// Puts the table into `out`, and writes it. What reaches standard output is outside every contract, but not what a writer says it has. After
// an error the table stands in `out` all the same.
fn print<W: Write>(to: &mut W, out: &mut [u8; 49152]) -> io::Result<usize>
    ensures text { IfOk result (λ n. Puts out.old 0 table_text n out.new) }
    ensures put { OnErr result (Puts out.old 0 table_text (length table_text) out.new) }
    ensures written { IfOk result (λ n. Appends (W.contents to.old) (W.contents to.new) (take n out.new)) }
{
    let n = ldst_table_text::text(out);
    text_io::write_first(to, out, n)?;
    Ok(n)
}

fn main(rt: HostRuntime) -> io::Result<()> {
    let mut out = [0u8; 49152];
    print(&mut rt.stdout(), &mut out)?;
    Ok(())
}
