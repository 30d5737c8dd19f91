// The readers of relocation records.
ghost use Rattle.std.specs.Prelude.{◌≡◌};
ghost use Rattle.arm64_reader.specs.Read.{slots_to};
ghost use Rattle.hauklivo.specs.Reader.{number_to, count_to};
ghost use Rattle.x86_64_reader.specs.Read as X86;
ghost use Rattle.hauklivo.specs.ReaderX86 as ReaderX86;

use arm64_reader::read::read_relocs;
use macho::refusal::settle;
use x86_64_reader::read::read_relocs as read_relocs_of_x86_64;

// Reads relocation records of arm64 into entries; `count` gets how many.
#[tactic(auto, using(crate::proofs::Lent::count_same))]
pub fn hauklivo_read_relocs(
    contents: &[u8],
    records: &[u8],
    sections: &[u64],
    slots: &mut [u8],
    count: &mut usize,
) -> u8
    ensures number { result ≡ number_to contents.now records.now sections.now slots.old }
    ensures count { count.new
        ≡ count_to contents.now records.now sections.now slots.old count.old }
    ensures slots { slots.new ≡ slots_to contents.now records.now sections.now slots.old }
{
    let answer = read_relocs(contents, records, sections, slots);
    settle(answer, count)
}

// Reads relocation records of x86_64 into entries; `address` is that of the section itself, `count` gets how many.
#[tactic(auto, using(crate::proofs::Lent::count_same))]
pub fn hauklivo_read_relocs_x86_64(
    contents: &[u8],
    records: &[u8],
    sections: &[u64],
    address: u64,
    slots: &mut [u8],
    count: &mut usize,
) -> u8
    ensures number { result ≡ ReaderX86.number_to contents.now records.now sections.now address slots.old }
    ensures count { count.new
        ≡ ReaderX86.count_to contents.now records.now sections.now address slots.old count.old }
    ensures slots { slots.new
        ≡ X86.slots_to contents.now records.now sections.now address slots.old }
{
    let answer = read_relocs_of_x86_64(contents, records, sections, address, slots);
    settle(answer, count)
}
