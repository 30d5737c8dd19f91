// Rows of hexadecimal numbers that a program replays.
ghost use Rattle.std.specs.Prelude.{◌≡◌, ◌+◌, ◌≤◌, ◌<◌, ◌∷◌, ◌++◌, codes, length, OnOk};
ghost use Rattle.text_io.specs.Row.{value_of, byte_at, number_at};
ghost use Rattle.std.specs.Io.KnownBytes.{Appends};

use std::io;
use std::io::Write;

// A hexadecimal digit; any other byte counts as 0.
#[tactic(auto, unfolding(crate::specs::Row::value_of))]
pub fn digit(b: u8) -> u8
    ensures value { result ≡ value_of b }
    ensures bound { result < 16 }
{
    match b {
        b'0'..=b'9' => b - b'0',
        b'a'..=b'f' => b - b'a' + 10,
        _ => 0,
    }
}

// The number of two digits.
pub fn byte(row: &[u8], at: usize) -> u8
    requires { at + 2 ≤ length row.now }
    ensures { result ≡ byte_at row.now at }
{
    digit(row[at]) * 16 + digit(row[at + 1])
}

// The number of eight digits.
pub fn number(row: &[u8], at: usize) -> u32
    requires { at + 8 ≤ length row.now }
    ensures { result ≡ number_at row.now at }
{
    u32::from_be_bytes([
        byte(row, at),
        byte(row, at + 2),
        byte(row, at + 4),
        byte(row, at + 6),
    ])
}

// Writes the first row that disagrees.
pub fn print_row<W: Write>(to: &mut W, row: &[u8]) -> io::Result<()>
    ensures { OnOk result (Appends (W.contents to.old) (W.contents to.new) (codes "the first row that disagrees:" ++ (10 ∷ row.now))) }
{
    writeln!(to, "the first row that disagrees:")?;
    to.write_all(row)
}
