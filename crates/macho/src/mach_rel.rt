// Apple's relocation_info: a relocation record of an object file (MachRel of macho.rs).
ghost use Rattle.std.specs.Prelude.{◌≡◌, ◌+◌, ◌≤◌, eqb, length};
ghost use Rattle.macho.specs.MachRel.{mach_rel_size, mach_rel_at, idx_of, pcrel_of, p2size_of, extern_of, type_of, form_of};

use util::read32;

// A relocation record, 8 bytes: the address of the field, and the packed bit fields.
#[derive(Clone, Copy)]
pub struct MachRel {
    pub offset: u32,
    pub bits: u32,
}

impl MachRel {
    pub const SIZE: usize = 8;

    // The record at `at`.
    pub fn read(s: &[u8], at: usize) -> MachRel
        requires { at + mach_rel_size ≤ length s.now }
        ensures { result ≡ mach_rel_at s.now at }
    {
        MachRel {
            offset: read32(s, at),
            bits: read32(s, at + 4),
        }
    }

    // The symbol's number, or a section's ordinal from 1.
    pub fn idx(self) -> u32
        ensures { result ≡ idx_of self.bits }
    {
        self.bits % 0x100_0000
    }

    // Whether the place's own address is taken off.
    pub fn is_pcrel(self) -> bool
        ensures { result ≡ eqb (pcrel_of self.bits) 1 }
    {
        self.bits / 0x100_0000 % 2 == 1
    }

    // The power of two that is the field's size in bytes.
    pub fn p2size(self) -> u32
        ensures { result ≡ p2size_of self.bits }
    {
        self.bits / 0x200_0000 % 4
    }

    // Whether `idx` is a symbol's number.
    pub fn is_extern(self) -> bool
        ensures { result ≡ eqb (extern_of self.bits) 1 }
    {
        self.bits / 0x800_0000 % 2 == 1
    }

    // The relocation type.
    pub fn ty(self) -> u8
        ensures { result ≡ type_of self.bits }
    {
        (self.bits / 0x1000_0000 % 16) as u8
    }

    // The form: is_pcrel, p2size and is_extern as one number.
    pub fn form(self) -> u32
        ensures { result ≡ form_of self.bits }
    {
        self.bits / 0x100_0000 % 16
    }
}
