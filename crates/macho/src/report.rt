// A report of the fix-up (RULES 2.20, 2.21).
ghost use Rattle.std.specs.Prelude.{◌≡◌, ◌+◌, ◌≤◌, length};
ghost use Rattle.std.proofs.lemmas.List.Edits.{sets};
ghost use Rattle.macho.specs.Report.{report_size, report_at, report_bytes, kind_number};

use crate::byte::{read8, write_head};
use util::{read32, read64, write64};

// What a report is about, with its number.
#[derive(Clone, Copy, PartialEq, Eq)]
pub enum Kind {
    AdrpReach = 1,
    BranchReach = 2,
    Alignment = 3,
    NonLdr = 4,
}

impl Kind {
    // Its number in RULES 2.21.
    pub fn number(self) -> u8
        ensures { result ≡ kind_number self }
    {
        self as u8
    }
}

// A report, 24 bytes: entry number, kind, size (alignment), two zero bytes, place and target (reach).
#[derive(Clone, Copy)]
pub struct Report {
    pub entry: u32,
    pub kind: u8,
    pub size: u8,
    pub place: u64,
    pub target: u64,
}

impl Report {
    pub const SIZE: usize = 24;

    // The report at `at`.
    pub fn read(s: &[u8], at: usize) -> Report
        requires { at + report_size ≤ length s.now }
        ensures { result ≡ report_at s.now at }
    {
        Report {
            entry: read32(s, at),
            kind: read8(s, at + 4),
            size: read8(s, at + 5),
            place: read64(s, at + 8),
            target: read64(s, at + 16),
        }
    }

    // Stores the report at `at`.
    pub fn write(self, s: &mut [u8], at: usize)
        requires { at + report_size ≤ length s.old }
        ensures { s.new ≡ sets s.old at (report_bytes self) }
    {
        write_head(s, at, self.entry, self.kind, self.size, 0, 0);
        write64(s, at + 8, self.place);
        write64(s, at + 16, self.target);
    }
}
