// The one-byte fields of a record.
ghost use Rattle.std.specs.Prelude.{◌≡◌, ◌+◌, ◌≤◌, ◌<◌, length, [], ◌∷◌};
ghost use Rattle.std.proofs.lemmas.List.Edits.{sets};
ghost use Rattle.util.specs.Word.{le, put};
ghost use Rattle.macho.specs.Record.{◌of◌, bytes_of};

use util::write32;

// The byte at `at`.
pub fn read8(s: &[u8], at: usize) -> u8
    requires { at < length s.now }
    ensures { result ≡ le 1 s.now at }
{
    s[at]
}

// Stores a byte at `at`.
pub fn write8(s: &mut [u8], at: usize, v: u8)
    requires { at < length s.old }
    ensures { s.new ≡ put 1 s.old at v }
{
    s[at] = v;
}

// Stores a word and the four bytes after it, which an entry and a report start with, and a rule record has from its object on.
pub fn write_head(s: &mut [u8], at: usize, word: u32, a: u8, b: u8, c: u8, d: u8)
    requires { at + 8 ≤ length s.old }
    ensures { s.new ≡ sets s.old at (bytes_of (4 of word ∷ 1 of a ∷ 1 of b ∷ 1 of c ∷ 1 of d ∷ [])) }
{
    write32(s, at, word);
    write8(s, at + 4, a);
    write8(s, at + 5, b);
    write8(s, at + 6, c);
    write8(s, at + 7, d);
}
