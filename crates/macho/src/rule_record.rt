// What a listed hint run says of one hint (RULES 16.2).
ghost use Rattle.std.specs.Prelude.{◌≡◌, ◌+◌, ◌≤◌, length};
ghost use Rattle.std.proofs.lemmas.List.Edits.{sets};
ghost use Rattle.macho.specs.RuleRecord.{rule_record_size, rule_record_at, rule_record_bytes};

use crate::byte::{read8, write_head};
use util::{read32, write32};

// A record, 16 bytes: list position, object, rule, words changed, six zero bytes.
#[derive(Clone, Copy)]
pub struct RuleRecord {
    pub position: u32,
    pub object: u32,
    pub rule: u8,
    pub changed: u8,
}

impl RuleRecord {
    pub const SIZE: usize = 16;

    // The rules.
    pub const SKIPPED: u8 = 0;

    pub const DECLINED: u8 = 1;

    pub const SECOND_ADRP: u8 = 2;

    pub const LITERAL: u8 = 3;

    pub const ADR: u8 = 4;

    pub const FOLD: u8 = 5;

    pub const GOT_SLOT: u8 = 6;

    pub const TURNED_DOWN: u8 = 7;

    // The record at `at`.
    pub fn read(s: &[u8], at: usize) -> RuleRecord
        requires { at + rule_record_size ≤ length s.now }
        ensures { result ≡ rule_record_at s.now at }
    {
        RuleRecord {
            position: read32(s, at),
            object: read32(s, at + 4),
            rule: read8(s, at + 8),
            changed: read8(s, at + 9),
        }
    }

    // Stores the record at `at`.
    pub fn write(self, s: &mut [u8], at: usize)
        requires { at + rule_record_size ≤ length s.old }
        ensures { s.new ≡ sets s.old at (rule_record_bytes self) }
    {
        write32(s, at, self.position);
        write_head(s, at + 4, self.object, self.rule, self.changed, 0, 0);
        write32(s, at + 12, 0);
    }
}
