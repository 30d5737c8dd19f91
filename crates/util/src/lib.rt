// Bit fields, sign extension, little-endian words, and sums and differences that wrap (macho/util/mod.rs).
#![tactic(auto)]

ghost use Rattle.std.specs.Prelude.{◌≡◌, ◌+◌, ◌-◌, ◌*◌, ◌%◌, ◌^◌, ◌<◌, ◌≤◌, length};
ghost use Rattle.util.specs.Word.{le, put};
ghost use Rattle.util.specs.Wrap.{sum, diff, in_range};
ghost use Rattle.util.specs.Bits.{field, extend};
ghost use Rattle.util.specs.Choice.{flag};

// A bit: 1 where it is set, else 0.
pub fn bit(set: bool) -> u32
    ensures { (result ≡ flag set) × (result < 2) }
{
    u32::from(set)
}

// Bits hi to lo of a value.
pub fn bits(value: u64, hi: u32, lo: u32) -> u64
    requires { (lo ≤ hi) × (hi < 64) × (hi < lo + 63) }
    ensures { result ≡ field value lo (hi - lo + 1) }
{
    (value >> lo) & ((1u64 << (hi - lo + 1)) - 1)
}

// The n low bits of a value as a signed number, as the 64 bits that hold it.
pub fn sign_extend(value: u64, n: u32) -> u64
    requires { (1 ≤ n) × (n < 64) }
    ensures { result ≡ extend value n }
{
    let low = value % (1u64 << n);
    if low < 1u64 << (n - 1) {
        low
    } else {
        low + (u64::MAX - (1u64 << n) + 1)
    }
}

// The 4-byte word at `at`.
#[tactic(auto, using(crate::proofs::Word::le_four))]
pub fn read32(s: &[u8], at: usize) -> u32
    requires { at + 4 ≤ length s.now }
    ensures { result ≡ le 4 s.now at }
{
    u32::from_le_bytes([s[at], s[at + 1], s[at + 2], s[at + 3]])
}

// The 8-byte word at `at`.
pub fn read64(s: &[u8], at: usize) -> u64
    requires { at + 8 ≤ length s.now }
    ensures { result ≡ le 8 s.now at }
{
    u64::from(read32(s, at)) + (u64::from(read32(s, at + 4)) << 32)
}

// Stores a 4-byte word at `at`.
pub fn write32(s: &mut [u8], at: usize, v: u32)
    requires { at + 4 ≤ length s.old }
    ensures { s.new ≡ put 4 s.old at v }
{
    s[at..at + 4].copy_from_slice(&v.to_le_bytes());
}

// Stores an 8-byte word at `at`.
pub fn write64(s: &mut [u8], at: usize, v: u64)
    requires { at + 8 ≤ length s.old }
    ensures { s.new ≡ put 8 s.old at v }
{
    s[at..at + 8].copy_from_slice(&v.to_le_bytes());
}

// a + b modulo 2^64.
pub fn wrapping_add(a: u64, b: u64) -> u64
    ensures { result ≡ sum a b }
{
    a.wrapping_add(b)
}

// a - b modulo 2^64.
pub fn wrapping_sub(a: u64, b: u64) -> u64
    ensures { result ≡ diff a b }
{
    a.wrapping_sub(b)
}

// Whether d, as a signed number, is at least -below and less than above.
pub fn in_range(d: u64, below: u64, above: u64) -> bool
    requires { (0 < below) × (below ≤ 2 ^ 62) × (above ≤ 2 ^ 62) }
    ensures { result ≡ in_range d below above }
{
    wrapping_add(d, below) < below + above
}
