// The word lister (RULES 10): each 4-byte word of an input with its offset, its class as the hint decoders see it, and the bytes moved.
#![tactic(auto)]

pub mod class;

ghost use Rattle.std.specs.Prelude.{◌≡◌, ◌*◌, ◌/◌, ◌≤◌, ◌<◌, length};
ghost use Rattle.text.specs.Prints.{HasRoom, Prints};
ghost use Rattle.util.specs.Puts.{Puts};
ghost use Rattle.lister_text.specs.Text.{hex_of, class_name, line_of, lines_of, refused, text_of};
ghost use Rattle.lister_text.specs.Listing.{list_of, out_after};

use class::{Class, class_of};
use macho::refusal::Refusal;
use text::{Page, digit};

// A word in hexadecimal, and a space.
#[tactic(auto, unfolding(crate::specs::Text::hex_of))]
fn hex(x: u32) -> [u8; 9]
    ensures { result ≡ hex_of x }
{
    [
        digit(x / 0x1000_0000 % 16),
        digit(x / 0x100_0000 % 16),
        digit(x / 0x10_0000 % 16),
        digit(x / 0x1_0000 % 16),
        digit(x / 0x1000 % 16),
        digit(x / 0x100 % 16),
        digit(x / 0x10 % 16),
        digit(x % 16),
        b' ',
    ]
}

// Puts a class.
#[tactic(auto, using(text::proofs::Prints::prints_then), unfolding(crate::specs::Text::class_name))]
fn put_class(page: &mut Page, class: Class)
    requires { HasRoom page.old 8 }
    ensures { Prints page.old (class_name class) page.new }
{
    match class {
        Class::Adrp => page.put(b"adrp"),
        Class::Add => page.put(b"add"),
        Class::Load(size) => {
            page.put(b"load ");
            page.put_decimal(size);
        }
        Class::Store(size) => {
            page.put(b"store ");
            page.put_decimal(size);
        }
        Class::Other => page.put(b"other"),
    }
}

// Puts the line of a word.
#[tactic(auto, using(crate::proofs::Lines::class_length))]
fn put_line(page: &mut Page, offset: u32, word: u32)
    requires { HasRoom page.old 27 }
    ensures { Prints page.old (line_of offset word) page.new }
{
    page.put(&hex(offset));
    page.put(&hex(word));
    put_class(page, class_of(word));
    page.put(b"\n");
}

// Puts the lines of whole words.
fn put_lines(page: &mut Page, input: &[u8])
    requires { (length input.now ≤ 16384) × HasRoom page.old (27 * (length input.now / 4)) }
    ensures { Prints page.old (lines_of input.now (length input.now / 4)) page.new }
{
    for i in 0..input.len() / 4 {
        put_line(page, (4 * i) as u32, util::read32(input, 4 * i));
    }
}

// Lists words at the start of out, which has 27 bytes or more for each, and answers how many bytes it filled.
#[tactic(auto, unfolding(util::specs::Choice::choose, crate::specs::Listing::list_of))]
pub fn list(words: &[u8], out: &mut [u8]) -> Result<usize, Refusal>
    ensures answer { result ≡ list_of words.now (length out.old) }
    ensures out { out.new ≡ out_after words.now out.old }
{
    if words.len() > 16384 {
        return Err(Refusal::Slots);
    }
    if out.len() < 27 * (words.len() / 4) {
        return Err(Refusal::Slots);
    }
    if words.len() % 4 != 0 {
        return Err(Refusal::Lengths);
    }
    let mut page = Page { out, at: 0 };
    put_lines(&mut page, words);
    Ok(page.at)
}

// Puts `refused N` and a newline.
#[tactic(auto, using(text::proofs::Prints::prints_then), unfolding(util::specs::Choice::choose))]
fn put_refused(page: &mut Page, number: u8)
    requires { HasRoom page.old 10 × (number < 10) }
    ensures { Prints page.old (refused number) page.new }
{
    page.put(b"refused ");
    page.put(&[digit(number as u32), b'\n']);
}

// Puts what the lister prints of an input at the start of out, and answers how many bytes that is.
pub fn text(input: &[u8], out: &mut [u8; 110592]) -> usize
    ensures puts { Puts out.old 0 (text_of input.now) result out.new }
    ensures upper_bound { result ≤ 110592 }
{
    match list(input, out) {
        Err(refusal) => {
            let mut page = Page { out, at: 0 };
            put_refused(&mut page, refusal.number());
            page.at
        }
        Ok(n) => n,
    }
}
