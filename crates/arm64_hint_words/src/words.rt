// The words of a hint, reached through a `Hint` that is made over its section.
ghost use Rattle.std.specs.Prelude.{◌≡◌, [], ◌∷◌, length, take};
ghost use Rattle.image.specs.Words.{put_words};
ghost use Rattle.arm64_hint_words.specs.Place.{offsets, insns_read, InBytes};

use crate::hint::Hint;
use arm64_hint_terms::answer::Insns;
use macho::hint::HintInsn;

// The words of the places up to the word count, with their addresses. The section stays as it is.
pub fn words_of(section: &mut [u8], insns: [HintInsn; 3], n: usize) -> Insns
    requires { InBytes (length section.old) (take n insns) }
    ensures { (result ≡ insns_read section.old (take n insns)) × (section.new ≡ section.old) }
{
    let h = Hint {
        buf: section,
        insns,
        n,
    };
    Insns {
        w0: h.get(0),
        w1: h.get(1),
        w2: h.get(2),
        p0: h.addr(0),
        p1: h.addr(1),
        p2: h.addr(2),
    }
}

// Stores new words at the places up to the word count, in their order.
pub fn set_words(
    section: &mut [u8],
    insns: [HintInsn; 3],
    n: usize,
    w0: Option<u32>,
    w1: Option<u32>,
    w2: Option<u32>,
)
    requires { InBytes (length section.old) (take n insns) }
    ensures { section.new ≡ put_words (offsets (take n insns)) (w0 ∷ w1 ∷ w2 ∷ []) section.old }
{
    let mut h = Hint {
        buf: section,
        insns,
        n,
    };
    h.set(0, w0);
    h.set(1, w1);
    h.set(2, w2);
}
