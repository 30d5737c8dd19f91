// How far a list was replayed, and the table that is written meanwhile.
ghost use Rattle.std.specs.Prelude.{◌≡◌, ◌<◌, IfOk, OnOk};
ghost use Rattle.std.specs.Io.KnownBytes.{Appends};
ghost use Rattle.replay_list.specs.Seen.{none, after, count_text, after_text, last_text, Bounded};

use crate::head::{END, TITLE};
use std::io;
use std::io::Write;

// The most records of a list.
const MOST: u64 = 1_000_000;

// How many records may still be read; the answers since the last title, and in all, that held; whether the list was replayed to its end.
#[derive(Clone, Copy)]
pub struct Seen {
    pub left: u64,
    pub row: u64,
    pub held: u64,
    pub is_whole: bool,
}

// Writes how many answers a row has, after its title.
fn print_count<W: Write>(to: &mut W, n: u64) -> io::Result<()>
    ensures { OnOk result (Appends (W.contents to.old) (W.contents to.new) (count_text n)) }
{
    writeln!(to, ": {n}")
}

impl Seen {
    // Before the first record.
    pub fn none() -> Seen
        ensures { (result ≡ none) × Bounded result }
    {
        Seen {
            left: MOST,
            row: 0,
            held: 0,
            is_whole: false,
        }
    }

    // After a record, of which `holds` says whether it is an answer that the port gives, too. The count of a row and a difference are written out.
    #[tactic(auto, unfolding(crate::specs::Seen::after, crate::specs::Seen::after_text, util::specs::Choice::choose))]
    pub fn after<W: Write>(self, to: &mut W, what: u8, holds: bool) -> io::Result<Seen>
        requires { Bounded self × (0 < self.left) }
        ensures written { OnOk result (Appends (W.contents to.old) (W.contents to.new) (after_text self what holds)) }
        ensures seen { IfOk result (λ s. (s ≡ after self what holds) × Bounded s × (s.left < self.left)) }
    {
        if what == END {
            return Ok(Seen {
                left: 0,
                is_whole: true,
                ..self
            });
        }
        if what == TITLE {
            print_count(to, self.row)?;
            return Ok(Seen {
                left: self.left - 1,
                row: 0,
                is_whole: false,
                ..self
            });
        }
        if holds {
            return Ok(Seen {
                left: self.left - 1,
                row: self.row + 1,
                held: self.held + 1,
                is_whole: false,
            });
        }
        to.write_all(b" DIFFERENCE")?;
        Ok(Seen {
            left: 0,
            is_whole: false,
            ..self
        })
    }

    // Writes the last line of the table.
    pub fn print<W: Write>(self, to: &mut W) -> io::Result<()>
        ensures { OnOk result (Appends (W.contents to.old) (W.contents to.new) (last_text self)) }
    {
        let differences = u64::from(!self.is_whole);
        writeln!(to, "{} answers, {differences} differences", self.held)
    }
}
