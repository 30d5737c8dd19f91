// A lent hint: whether it is skipped, its places, the words that stand there and the entries that they name (arch/arm64.rs, `Hint`).
#![tactic(auto)]

ghost use Rattle.std.specs.Prelude.{◌≡◌, length};
ghost use Rattle.image.specs.Words.{words_at};
ghost use Rattle.arm64_hint_places.specs.Hint.{is_skipped, insns_all, offs_of, insns_of, rels_of, Inside, Named};

use arm64_hint_terms::answer::Insns;
use arm64_hint_terms::rels::Rels;
use arm64_hint_words::place::rels_in;
use arm64_hint_words::words::words_of;
use macho::hint::{HintInsn, HintRecord, word_count};

// Whether a hint is skipped: there is no such kind, or its word count is not the kind's.
#[tactic(auto, unfolding(crate::specs::Hint::is_skipped))]
pub fn is_skipped(h: HintRecord) -> bool
    ensures { result ≡ is_skipped h }
{
    let n = word_count(h.kind);
    n == 0 || h.n != n
}

// The three places of a hint.
pub fn insns_all(h: HintRecord) -> [HintInsn; 3]
    ensures { result ≡ insns_all h }
{
    [h.insn0, h.insn1, h.insn2]
}

// The words at the places up to the word count, with their addresses. The section stays as it is.
pub fn insns_of(section: &mut [u8], h: HintRecord) -> Insns
    requires { Inside h (length section.old) }
    ensures insns { result ≡ insns_of h (words_at (offs_of h) section.old) }
    ensures section { section.new ≡ section.old }
{
    words_of(section, insns_all(h), h.n as usize)
}

// The entries that the places name, up to the word count.
pub fn rels_of(entries: &[u8], h: HintRecord) -> Rels
    requires { Named h (length entries.now) }
    ensures { result ≡ rels_of entries.now h }
{
    rels_in(entries, insns_all(h), h.n as usize)
}
