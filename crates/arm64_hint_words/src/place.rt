// The entries that a hint's places name.
ghost use Rattle.std.specs.Prelude.{◌≡◌, ◌<◌, length, take};
ghost use Rattle.arm64_hint_terms.specs.Rels.{rel_at};
ghost use Rattle.arm64_hint_words.specs.Entry.{number_at, rels_in, InEntries};

use arm64_hint_terms::rels::{Rels, rel_at};
use macho::hint::HintInsn;
use macho::reloc::Reloc;

// The entry that place i names, none past the word count.
fn rel_in(entries: &[u8], insns: [HintInsn; 3], n: usize, i: usize) -> Option<Reloc>
    requires i_bound { i < 3 }
    requires in_entries { InEntries (length entries.now) (take n insns) }
    ensures { result ≡ rel_at entries.now (number_at (take n insns) i) }
{
    if i < n {
        rel_at(entries, insns[i].rel)
    } else {
        None
    }
}

// The entries that the places name, up to the word count.
pub fn rels_in(entries: &[u8], insns: [HintInsn; 3], n: usize) -> Rels
    requires { InEntries (length entries.now) (take n insns) }
    ensures { result ≡ rels_in entries.now (take n insns) }
{
    Rels {
        r0: rel_in(entries, insns, n, 0),
        r1: rel_in(entries, insns, n, 1),
        r2: rel_in(entries, insns, n, 2),
    }
}
