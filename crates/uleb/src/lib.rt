// Unsigned LEB128 (macho/util/mod.rs): seven bits a byte, the lowest first, bit 7 set where more follow.
#![tactic(auto)]

ghost use Rattle.std.specs.Prelude.{◌≡◌, ◌+◌, ◌<◌, ◌≤◌, length, drop, MatchOption};
ghost use Rattle.util.specs.Puts.{Puts};
ghost use Rattle.uleb.specs.Values.{unended, uleb_at};
ghost use Rattle.uleb.specs.Shortest.{uleb_of};

// The most bytes that the shortest spelling of a value below 2^64 has.
pub const MOST_BYTES: usize = 10;

// The place of the first byte from `at` on after which no more follow.
fn last_byte(bytes: &[u8], at: usize) -> Option<usize>
    requires { at ≤ length bytes.now }
    ensures { MatchOption result (at + unended (drop at bytes.now) ≡ length bytes.now)
        (λ i. (i ≡ at + unended (drop at bytes.now)) × (i < length bytes.now)) }
{
    for i in at..bytes.len() {
        if bytes[i] < 0x80 {
            return Some(i);
        }
    }
    None
}

// The value at `at`, however many bytes spell it. It is put together from its last byte down, so that no bit is lost unseen.
fn read_long(bytes: &[u8], at: usize) -> Option<(u64, usize)>
    requires { at ≤ length bytes.now }
    ensures { result ≡ uleb_at bytes.now at }
{
    let last = last_byte(bytes, at)?;
    let mut value = u64::from(bytes[last]);
    for i in (at..last).rev() {
        value = value.checked_mul(128)? + u64::from(bytes[i] % 0x80);
    }
    Some((value, last + 1))
}

// The value at `at`: nine bytes, which have 63 bits, are put together from the first up; a longer spelling is left to `read_long`.
pub fn read_uleb(bytes: &[u8], at: usize) -> Option<(u64, usize)>
    requires { at ≤ length bytes.now }
    ensures { result ≡ uleb_at bytes.now at }
{
    let mut value = 0;
    let mut scale = 1;
    for i in at..bytes.len() {
        let byte = bytes[i];
        if byte < 0x80 {
            return Some((value + scale * u64::from(byte), i + 1));
        }
        if scale > 0x2_0000_0000_0000 {
            return read_long(bytes, at);
        }
        value += scale * u64::from(byte % 0x80);
        scale *= 128;
    }
    None
}

// How many bytes the shortest spelling of a value has.
pub fn uleb_size(value: u64) -> usize
    ensures { result ≡ length (uleb_of value) }
{
    let mut rest = value;
    let mut n = 1;
    while rest >= 0x80 {
        rest /= 128;
        n += 1;
    }
    n
}

// Puts the shortest spelling of a value at `at`, from where ten bytes must be there, and answers where it ends.
pub fn write_uleb(out: &mut [u8], at: usize, value: u64) -> usize
    requires { at + 10 ≤ length out.old }
    ensures { Puts out.old at (uleb_of value) result out.new }
{
    let mut rest = value;
    let mut i = at;
    while rest >= 0x80 {
        out[i] = (rest % 128 + 128) as u8;
        rest /= 128;
        i += 1;
    }
    out[i] = rest as u8;
    i + 1
}
