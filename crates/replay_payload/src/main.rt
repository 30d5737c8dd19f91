// Reads data/payload, the hints of an object as llvm-mc left them there. Writes the row, a value to a line, and how many of the
// payload's bytes the row is written back to. tools/make-records makes the payload, and from what llvm-objdump lists of it what
// this must write.
#![tactic(auto)]

ghost use Rattle.std.specs.Prelude.{◌≡◌, ◌≤◌, length};

use hint_payload::read::read_hints;
use hint_payload::write::write_hints;
use macho::refusal::Refusal;
use std::io::Write;
use std::{fs, io};
use text_io::read_full;
use uleb::uleb_size;

// Room for the values of a payload.
fn room() -> [u64; 4096]
    ensures { 4096 ≡ length result }
{
    [0; 4096]
}

// How many elements an answer says are filled, at most so many; 0 for a refusal.
fn count_of(answer: Result<usize, Refusal>, most: usize) -> usize
    ensures { result ≤ most }
{
    match answer {
        Ok(n) => n.min(most),
        Err(_) => 0,
    }
}

// How many bytes the shortest spellings of a row have, at most so many.
fn size_of(row: &[u64], most: usize) -> usize
    ensures { result ≤ most }
{
    let mut size = 0;
    for value in row {
        let n = uleb_size(*value);
        if most - size < n {
            return most;
        }
        size += n;
    }
    size
}

// Whether a row is written as the first bytes of a payload.
fn is_written(row: &[u64], first: &[u8], out: &mut [u8]) -> bool {
    let n = count_of(write_hints(row, out), out.len());
    &out[..n] == first
}

fn print_row<W: Write>(to: &mut W, row: &[u64]) -> io::Result<()> {
    for n in row {
        writeln!(to, "{n}")?;
    }
    Ok(())
}

// Writes how many bytes of the payload a row is written back to, or that it is not.
fn print_written<W: Write>(to: &mut W, row: &[u64], payload: &[u8]) -> io::Result<()> {
    let mut out = [0u8; 65536];
    let size = size_of(row, payload.len());
    if !is_written(row, &payload[..size], &mut out) {
        return writeln!(to, "not written back");
    }
    writeln!(to, "{size} of {} bytes are written back", payload.len())
}

fn replay<W: Write>(to: &mut W, payload: &[u8], slots: &mut [u64]) -> io::Result<()> {
    let n = count_of(read_hints(payload, slots), slots.len());
    print_row(to, &slots[..n])?;
    print_written(to, &slots[..n], payload)
}

fn main(rt: HostRuntime) -> io::Result<()> {
    let mut file = fs::File::open(&rt, "payload")?;
    let mut buf = [0u8; 4096];
    let n = read_full(&mut file, &mut buf)?;
    let mut slots = room();
    replay(&mut rt.stdout(), &buf[..n], &mut slots)
}
