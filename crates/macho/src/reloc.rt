// An entry: a relocation with its addend and its target (Reloc of input_sections.rs; RULES 2.15, 2.16).
ghost use Rattle.std.specs.Prelude.{◌≡◌, ◌+◌, ◌≤◌, length};
ghost use Rattle.std.proofs.lemmas.List.Edits.{sets};
ghost use Rattle.macho.specs.Reloc.{reloc_size, reloc_at, reloc_bytes, is_section};

use crate::byte::{read8, write_head};
use util::{read32, read64, write32, write64};

// The bit of a target that names a section.
pub const TARGET_SECTION: u32 = 0x8000_0000;

// An entry, 24 bytes. `signing` is how an authenticated pointer is signed (`authenticated`), and 0 for every other type.
#[derive(Clone, Copy)]
pub struct Reloc {
    pub offset: u32,
    pub ty: u8,
    pub size: u8,
    pub is_pcrel: u8,
    pub is_subtracted: u8,
    pub target: u32,
    pub signing: u32,
    pub addend: u64,
}

impl Reloc {
    pub const SIZE: usize = 24;

    // The entry at `at`.
    pub fn read(s: &[u8], at: usize) -> Reloc
        requires { at + reloc_size ≤ length s.now }
        ensures { result ≡ reloc_at s.now at }
    {
        Reloc {
            offset: read32(s, at),
            ty: read8(s, at + 4),
            size: read8(s, at + 5),
            is_pcrel: read8(s, at + 6),
            is_subtracted: read8(s, at + 7),
            target: read32(s, at + 8),
            signing: read32(s, at + 12),
            addend: read64(s, at + 16),
        }
    }

    // Stores the entry at `at`.
    pub fn write(self, s: &mut [u8], at: usize)
        requires { at + reloc_size ≤ length s.old }
        ensures { s.new ≡ sets s.old at (reloc_bytes self) }
    {
        write_head(
            s,
            at,
            self.offset,
            self.ty,
            self.size,
            self.is_pcrel,
            self.is_subtracted,
        );
        write32(s, at + 8, self.target);
        write32(s, at + 12, self.signing);
        write64(s, at + 16, self.addend);
    }

    // Whether the target is a section.
    pub fn is_section(self) -> bool
        ensures { result ≡ is_section self.target }
    {
        self.target / TARGET_SECTION % 2 == 1
    }
}
