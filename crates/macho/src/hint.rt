// A linker optimization hint with the places of its words (RULES 2.22, 2.23).
ghost use Rattle.std.specs.Prelude.{◌≡◌, ◌+◌, ◌≤◌, ◌<◌, length};
ghost use Rattle.macho.specs.Hint.{insn_size, hint_size, insn_at, hint_at, hint_count, hint_of, word_count};

use crate::byte::read8;
use crate::consts;
use util::{read32, read64};

// One of a hint's places, 16 bytes: offset in the part, entry number, the word's own address.
#[derive(Clone, Copy)]
pub struct HintInsn {
    pub off: u32,
    pub rel: u32,
    pub addr: u64,
}

// A hint, 64 bytes: kind, word count, two ignored bytes, object, start and length of the part, three places.
#[derive(Clone, Copy)]
pub struct HintRecord {
    pub kind: u8,
    pub n: u8,
    pub object: u32,
    pub start: u32,
    pub len: u32,
    pub insn0: HintInsn,
    pub insn1: HintInsn,
    pub insn2: HintInsn,
}

impl HintInsn {
    pub const SIZE: usize = 16;

    // The entry number of a place that has none.
    pub const NO_ENTRY: u32 = 0xffff_ffff;

    // The place at `at`.
    pub fn read(s: &[u8], at: usize) -> HintInsn
        requires { at + insn_size ≤ length s.now }
        ensures { result ≡ insn_at s.now at }
    {
        HintInsn {
            off: read32(s, at),
            rel: read32(s, at + 4),
            addr: read64(s, at + 8),
        }
    }
}

impl HintRecord {
    pub const SIZE: usize = 64;

    // The hint at `at`.
    pub fn read(s: &[u8], at: usize) -> HintRecord
        requires { at + hint_size ≤ length s.now }
        ensures { result ≡ hint_at s.now at }
    {
        HintRecord {
            kind: read8(s, at),
            n: read8(s, at + 1),
            object: read32(s, at + 4),
            start: read32(s, at + 8),
            len: read32(s, at + 12),
            insn0: HintInsn::read(s, at + 16),
            insn1: HintInsn::read(s, at + 32),
            insn2: HintInsn::read(s, at + 48),
        }
    }
}

// The kind of hint k of a list. Nothing else of the hint is read.
pub fn kind_at(hints: &[u8], k: usize) -> u8
    requires { k < hint_count hints.now }
    ensures { result ≡ (hint_of hints.now k).kind }
{
    read8(hints, HintRecord::SIZE * k)
}

// The object number of hint k of a list. Nothing else of the hint is read.
pub fn object_at(hints: &[u8], k: usize) -> u32
    requires { k < hint_count hints.now }
    ensures { result ≡ (hint_of hints.now k).object }
{
    read32(hints, HintRecord::SIZE * k + 4)
}

// How many words a hint of a kind has; 0 where the number is no kind.
pub fn word_count(kind: u8) -> u8
    ensures { result ≡ word_count kind }
{
    match kind {
        consts::LOH_ARM64_ADRP_ADRP => 2,
        consts::LOH_ARM64_ADRP_LDR => 2,
        consts::LOH_ARM64_ADRP_ADD_LDR => 3,
        consts::LOH_ARM64_ADRP_LDR_GOT_LDR => 3,
        consts::LOH_ARM64_ADRP_ADD_STR => 3,
        consts::LOH_ARM64_ADRP_LDR_GOT_STR => 3,
        consts::LOH_ARM64_ADRP_ADD => 2,
        consts::LOH_ARM64_ADRP_LDR_GOT => 2,
        _ => 0,
    }
}
