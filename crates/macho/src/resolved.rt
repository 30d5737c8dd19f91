// A resolved target: what the linker knows of an entry's target (RULES 2.17 to 2.19).
ghost use Rattle.std.specs.Prelude.{◌≡◌, ◌+◌, ◌≤◌, ◌<◌, length};
ghost use Rattle.util.specs.Bits.{has_bit};
ghost use Rattle.macho.specs.Resolved.{resolved_size, resolved_at, well_formed};
ghost use Rattle.macho.specs.Resolved.{is_imported, is_tls, has_address, can_relax_got, has_thunk, has_helper, helper_is_own, is_probe, is_enabled};

use util::{read32, read64};

// A resolved target, 48 bytes: address, GOT slot, branch target, thunk, helper, flags, four zero bytes.
#[derive(Clone, Copy)]
pub struct Resolved {
    pub addr: u64,
    pub got: u64,
    pub branch: u64,
    pub thunk: u64,
    pub helper: u64,
    pub flags: u32,
    pub zero: u32,
}

impl Resolved {
    pub const SIZE: usize = 48;

    // The resolved target at `at`.
    pub fn read(s: &[u8], at: usize) -> Resolved
        requires { at + resolved_size ≤ length s.now }
        ensures { result ≡ resolved_at s.now at }
    {
        Resolved {
            addr: read64(s, at),
            got: read64(s, at + 8),
            branch: read64(s, at + 16),
            thunk: read64(s, at + 24),
            helper: read64(s, at + 32),
            flags: read32(s, at + 40),
            zero: read32(s, at + 44),
        }
    }

    // Flag bit n.
    fn flag(self, n: u32) -> bool
        requires { n < 32 }
        ensures { result ≡ has_bit self.flags n }
    {
        self.flags >> n & 1 == 1
    }

    // Whether a dynamic library defines it.
    pub fn is_imported(self) -> bool
        ensures { result ≡ is_imported self }
    {
        self.flag(0)
    }

    // Whether it is thread-local.
    pub fn is_tls(self) -> bool
        ensures { result ≡ is_tls self }
    {
        self.flag(1)
    }

    // Whether it has an address.
    pub fn has_address(self) -> bool
        ensures { result ≡ has_address self }
    {
        self.flag(2)
    }

    // Whether GOT loads of it can be relaxed.
    pub fn can_relax_got(self) -> bool
        ensures { result ≡ can_relax_got self }
    {
        self.flag(3)
    }

    // Whether it has a thunk.
    pub fn has_thunk(self) -> bool
        ensures { result ≡ has_thunk self }
    {
        self.flag(4)
    }

    // Whether it has a helper.
    pub fn has_helper(self) -> bool
        ensures { result ≡ has_helper self }
    {
        self.flag(5)
    }

    // Whether the helper is the place's own.
    pub fn helper_is_own(self) -> bool
        ensures { result ≡ helper_is_own self }
    {
        self.flag(6)
    }

    // Whether it is a DTrace probe.
    pub fn is_probe(self) -> bool
        ensures { result ≡ is_probe self }
    {
        self.flag(7)
    }

    // Whether it is a DTrace is-enabled probe.
    pub fn is_enabled(self) -> bool
        ensures { result ≡ is_enabled self }
    {
        self.flag(8)
    }

    // Whether number 11 lets it through. Below 0x180 the flags have no bit above 8, and not both of bits 7 and 8.
    pub fn is_well_formed(self) -> bool
        ensures { result ≡ well_formed self }
    {
        if self.flags >= 0x180 {
            return false;
        }
        self.zero == 0
    }
}
