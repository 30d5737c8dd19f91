// Replays data/pointers.txt, which tools/make-pointers makes: rows that pair the bytes of authenticated pointers in an object with what the
// assembler's source says of them. Reads the records, then fixes the section up. Writes how many rows agree, or the first that does not.
#![tactic(auto)]

mod fixup;
mod reader;
mod row;

ghost use Rattle.std.specs.Prelude.{◌*◌, ◌≤◌, length};

use macho::reloc::Reloc;
use row::ROW;
use std::io::Write;
use std::{fs, io};
use text_io::read_full;
use text_io::row::print_row;

// How many rows from the front agree, in reading and then in fix-up, with room for the section and its entries.
fn replay_in(rows: &[[u8; ROW]], contents: &mut [u8], entries: &mut [u8]) -> usize
    requires { (120 * length rows.now ≤ 65536) × (24 * length rows.now ≤ length entries.old) }
    ensures { result ≤ length rows.now }
{
    let agreed = reader::agreed(rows, contents, entries);
    if agreed < rows.len() {
        return agreed;
    }
    fixup::agreed(rows, contents, entries)
}

// How many rows from the front agree.
fn replay(rows: &[[u8; ROW]]) -> usize
    requires { 120 * length rows.now ≤ 65536 }
    ensures { result ≤ length rows.now }
{
    let mut contents = [0u8; 65536];
    let mut entries = [0u8; 65536];
    let section = 8 * rows.len();
    let list = Reloc::SIZE * rows.len();
    replay_in(rows, &mut contents[0..section], &mut entries[0..list])
}

fn print_replay<W: Write>(to: &mut W, s: &[u8]) -> io::Result<()>
    requires { length s.now ≤ 65536 }
{
    let (rows, rest) = s.as_chunks::<ROW>();
    let agreed = replay(rows);
    if agreed < rows.len() {
        return print_row(to, &rows[agreed]);
    }
    if !rest.is_empty() {
        return print_row(to, rest);
    }
    writeln!(to, "{agreed} pointers agree")
}

fn main(rt: HostRuntime) -> io::Result<()> {
    let mut file = fs::File::open(&rt, "pointers.txt")?;
    let mut buf = [0u8; 65536];
    let n = read_full(&mut file, &mut buf)?;
    print_replay(&mut rt.stdout(), &buf[..n])
}
