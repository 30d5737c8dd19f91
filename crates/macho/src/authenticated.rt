// The word of an authenticated pointer, and how an entry says that its pointer is signed (RULES 2.29 to 2.31). The Rust has no such type.
ghost use Rattle.std.specs.Prelude.{◌≡◌};
ghost use Rattle.util.specs.Diagram.{matches};
ghost use Rattle.macho.specs.Authenticated.{authenticated, signing_in, authenticated_word};

// The bits that every such word has: 51 to 62 are zero, bit 63 is set.
const MASK: u64 = 0xfff8_0000_0000_0000;

const FIXED: u64 = 0x8000_0000_0000_0000;

// Whether a stored word has them.
pub fn is_authenticated(word: u64) -> bool
    ensures { result ≡ matches authenticated word }
{
    word & MASK == FIXED
}

// How a stored word says that its pointer is signed, for the entry: diversity u16, address diversity u8, key u8.
pub fn signing_in(word: u64) -> u32
    ensures { result ≡ signing_in word }
{
    let diversity = word / 0x1_0000_0000 % 0x1_0000;
    let address_diversity = word / 0x1_0000_0000_0000 % 2;
    let key = word / 0x2_0000_0000_0000 % 4;
    (diversity + 0x1_0000 * address_diversity + 0x100_0000 * key) as u32
}

// The finished word: a distance from the image base, and an entry's diversity, low bit of address diversity and low two bits of key.
pub fn authenticated_word(distance: u32, signing: u32) -> u64
    ensures { result ≡ authenticated_word distance signing }
{
    let diversity = signing as u64 % 0x1_0000;
    let address_diversity = signing as u64 / 0x1_0000 % 2;
    let key = signing as u64 / 0x100_0000 % 4;
    FIXED
        + 0x2_0000_0000_0000 * key
        + 0x1_0000_0000_0000 * address_diversity
        + 0x1_0000_0000 * diversity
        + distance as u64
}
