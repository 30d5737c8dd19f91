// The word lister.
ghost use Rattle.std.specs.Prelude.{◌≡◌};
ghost use Rattle.lister_text.specs.Listing.{out_after};
ghost use Rattle.hauklivo.specs.Lister.{number_to, count_to};

use lister_text::list;
use macho::refusal::settle;

// Lists words with their offsets and classes at the start of `out`; `count` gets how many bytes that is.
#[tactic(auto, using(crate::proofs::Lent::count_same))]
pub fn hauklivo_list(words: &[u8], out: &mut [u8], count: &mut usize) -> u8
    ensures number { result ≡ number_to words.now out.old }
    ensures count { count.new ≡ count_to words.now out.old count.old }
    ensures out { out.new ≡ out_after words.now out.old }
{
    let answer = list(words, out);
    settle(answer, count)
}
