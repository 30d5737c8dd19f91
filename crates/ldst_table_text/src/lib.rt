// The generator of the table of classes (RULES 7.33): the whole source file `arm64_ldst_table/src/table.rt`, from the manual's rows. It asks no decoder.
#![tactic(auto)]

ghost use Rattle.std.specs.Prelude.{◌≡◌, ◌<◌, ◌*◌, ◌≤◌};
ghost use Rattle.text.specs.Digits.{digits};
ghost use Rattle.text.specs.Prints.{HasRoom, Prints};
ghost use Rattle.util.specs.Puts.{Puts};
ghost use Rattle.ldst_table_text.specs.Text.{moved_text, registers_text, class_text, number, comment_of, entry_line, entry_lines, table_text};

use arm64_ldst_class::{LoadStoreClass, entry};
use ldst_table_rows::class::class_of_index;
use ldst_table_rows::names::put_name;
use text::{Page, digit};

// What stands before the lines.
const OPENING: &[u8] = b"\
// The class of a load or store by bits 31 to 22 of its word (RULES 7.32), as the program ldst_table_print prints it.\n\
// An entry is 8 times the bytes, and 4 for a store, 2 for a vector register, 1 for LDRSW; 0 is no load or store.\n\
pub const CLASSES: [u8; 1024] = [\n";

// Whether a class stores or loads.
#[tactic(auto, unfolding(util::specs::Choice::choose))]
fn moved(stores: bool) -> &'static [u8]
    ensures { result.now ≡ moved_text stores }
{
    if stores { b"store " } else { b"load " }
}

// Which registers a class has.
#[tactic(auto, unfolding(util::specs::Choice::choose))]
fn registers(vector: bool) -> &'static [u8]
    ensures { result.now ≡ registers_text vector }
{
    if vector { b" vector" } else { b" general" }
}

// Puts a class.
#[tactic(auto, using(text::proofs::Decimal::decimal_length, crate::proofs::Lines::moved_length, crate::proofs::Lines::registers_length), unfolding(crate::specs::Text::class_text))]
fn put_moves(page: &mut Page, class: Option<LoadStoreClass>)
    requires { HasRoom page.old 16 }
    ensures { Prints page.old (class_text class) page.new }
{
    match class {
        Some(class) => {
            page.put(moved(class.stores));
            page.put_decimal(class.bytes as u64);
            page.put(registers(class.vector));
        }
        None => page.put(b"no load or store"),
    }
}

// The last three digits of a number in a base.
#[tactic(auto, using(crate::proofs::Lines::three_digits))]
fn last_digits(base: u32, x: u32) -> [u8; 3]
    requires { (0 < base) × (base ≤ 16) }
    ensures { result ≡ digits base 3 x }
{
    [
        digit(x / base / base % base),
        digit(x / base % base),
        digit(x % base),
    ]
}

// Puts a number below 1,000.
#[tactic(auto, unfolding(util::specs::Choice::choose))]
fn put_number(page: &mut Page, x: u32)
    requires { HasRoom page.old 3 }
    ensures { Prints page.old (number x) page.new }
{
    if x < 100 {
        page.put_decimal(x as u64);
    } else {
        page.put(&last_digits(10, x));
    }
}

// Puts the comment of an index.
#[tactic(auto, using(ldst_table_rows::proofs::NameLaws::name_length, crate::proofs::Lines::class_length))]
fn put_comment(page: &mut Page, k: u32, class: Option<LoadStoreClass>)
    requires { HasRoom page.old 39 }
    ensures { Prints page.old (comment_of k class) page.new }
{
    page.put(b", // ");
    page.put(&last_digits(16, k));
    page.put(b" ");
    put_name(page, k);
    put_moves(page, class);
    page.put(b"\n");
}

// Puts the line of an index.
#[tactic(auto, using(crate::proofs::Lines::number_length))]
fn put_line(page: &mut Page, k: u32)
    requires { HasRoom page.old 46 }
    ensures { Prints page.old (entry_line k) page.new }
{
    let class = class_of_index(k);
    page.put(b"    ");
    put_number(page, entry(class));
    put_comment(page, k, class);
}

// Puts the lines of all indices.
#[tactic(auto, using(crate::proofs::Lines::lines_length, crate::proofs::Lines::no_line))]
fn put_lines(page: &mut Page)
    requires { HasRoom page.old (46 * 1024) }
    ensures { Prints page.old (entry_lines 1024) page.new }
{
    for k in 0..1024 {
        put_line(page, k);
    }
}

// Puts the whole file at the start of out, and answers how many bytes that is.
#[tactic(auto, using(crate::proofs::Lines::lines_length))]
pub fn text(out: &mut [u8; 49152]) -> usize
    ensures puts { Puts out.old 0 table_text result out.new }
    ensures upper_bound { result ≤ 49152 }
{
    let mut page = Page { out, at: 0 };
    page.put(OPENING);
    put_lines(&mut page);
    page.put(b"];\n");
    page.at
}
