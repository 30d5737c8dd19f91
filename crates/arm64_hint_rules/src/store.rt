// What is decided of a hint, stored in its section.
ghost use Rattle.std.specs.Prelude.{◌≡◌, length};
ghost use Rattle.image.specs.Words.{put_words};
ghost use Rattle.arm64_hint_places.specs.Hint.{offs_of, Inside};
ghost use Rattle.arm64_hint_rules.specs.Rule.{news_in};

use arm64_hint_places::insns_all;
use arm64_hint_terms::answer::Decision;
use arm64_hint_words::words::set_words;
use macho::hint::HintRecord;

// Stores a decision's new words at a hint's places: nothing, unless it is a rewrite.
pub fn store(section: &mut [u8], h: HintRecord, d: Decision)
    requires { Inside h (length section.old) }
    ensures { section.new ≡ put_words (offs_of h) (news_in d) section.old }
{
    if let Ok(p) = d {
        set_words(section, insns_all(h), h.n as usize, p.w0, p.w1, p.w2);
    }
}
