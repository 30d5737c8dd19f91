// Fix-up of a section.
ghost use Rattle.std.specs.Prelude.{◌≡◌};
ghost use Rattle.arm64_fixup.specs.Answer.{section_to, slots_to};
ghost use Rattle.hauklivo.specs.Fixup.{number_to, count_to};

use arm64_fixup::walk::apply_reloc_alloc;
use macho::refusal::settle;

// Fixes a section's bytes by its entries and their resolved targets; `count` gets the number of reports.
#[tactic(auto, using(crate::proofs::Lent::count_same))]
pub fn hauklivo_apply_reloc_alloc(
    buf: &mut [u8],
    base: u64,
    tls_begin: u64,
    image_base: u64,
    entries: &[u8],
    targets: &[u8],
    slots: &mut [u8],
    count: &mut usize,
) -> u8
    ensures number { result ≡ number_to buf.old base tls_begin image_base entries.now targets.now slots.old }
    ensures count { count.new
        ≡ count_to buf.old base tls_begin image_base entries.now targets.now slots.old count.old }
    ensures buf { buf.new
        ≡ section_to buf.old base tls_begin image_base entries.now targets.now slots.old }
    ensures told { slots.new
        ≡ slots_to buf.old base tls_begin image_base entries.now targets.now slots.old }
{
    let answer = apply_reloc_alloc(buf, base, tls_begin, image_base, entries, targets, slots);
    settle(answer, count)
}
