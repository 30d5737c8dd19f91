// What one entry does to the section and reports: one function for each group of types (apply_reloc_alloc).
ghost use Rattle.std.specs.Prelude.{◌≡◌, ◌<◌};
ghost use Rattle.macho.specs.Report.{kind_number};
ghost use Rattle.arm64_fixup_entry.specs.Change.{silent, reported, reach_report, word_report, unsigned_value, authenticated_value, authenticated_change};
ghost use Rattle.arm64_fixup_entry.specs.Change.{subtractor_value, difference, dtrace_site_insn, branch_target, thunk_serves, branch, branch_unless, page21, pageoff12};
ghost use Rattle.arm64_fixup_entry.specs.Change.{got_page21, can_relax, relaxed, got_pageoff12, pointer_to_got, word_change};

use crate::target::{Bases, from_image, got_target, is_imported_symbol, slot_of, target_of};
use arm64_insn::add::is_add;
use arm64_insn::branch::{branch_reaches, branch_word, helper_word};
use arm64_insn::fix::{relaxed_word, write_add_ldst_word, write_adrp_word};
use arm64_insn::ldst::is_ldr_imm;
use arm64_insn::page::adrp_reaches;
use macho::authenticated::authenticated_word;
use macho::consts::{
    ARM64_RELOC_BRANCH26, ARM64_RELOC_GOT_LOAD_PAGE21, ARM64_RELOC_GOT_LOAD_PAGEOFF12,
    ARM64_RELOC_PAGE21, ARM64_RELOC_PAGEOFF12, ARM64_RELOC_POINTER_TO_GOT,
    ARM64_RELOC_TLVP_LOAD_PAGE21, ARM64_RELOC_TLVP_LOAD_PAGEOFF12,
};
use macho::reloc::Reloc;
use macho::report::{Kind, Report};
use macho::resolved::Resolved;

// An entry's number, and P: base plus offset.
#[derive(Clone, Copy)]
pub struct Site {
    pub entry: u32,
    pub addr: u64,
}

// What an entry stores at its offset.
#[derive(Clone, Copy)]
pub enum Write {
    Nothing,
    Word(u32),
    Pointer(u64),
}

// What an entry does.
#[derive(Clone, Copy)]
pub struct Change {
    pub write: Write,
    pub told: Option<Report>,
}

// A write with no report.
pub fn silent(w: Write) -> Change
    ensures { result ≡ silent w }
{
    Change {
        write: w,
        told: None,
    }
}

// A write with a report of ADRP or branch reach.
fn out_of_reach(s: Site, kind: Kind, target: u64, word: u32) -> Change
    ensures { result ≡ reported (Write.Word word) (reach_report s (kind_number kind) target) }
{
    Change {
        write: Write::Word(word),
        told: Some(Report {
            entry: s.entry,
            kind: kind.number(),
            size: 0,
            place: s.addr,
            target,
        }),
    }
}

// A report of alignment or of a non-LDR word, which is left as it is.
fn unfit(s: Site, kind: Kind, size: u8) -> Change
    ensures { result ≡ reported Write.Nothing (word_report s (kind_number kind) size) }
{
    Change {
        write: Write::Nothing,
        told: Some(Report {
            entry: s.entry,
            kind: kind.number(),
            size,
            place: 0,
            target: 0,
        }),
    }
}

// UNSIGNED's value: S + A, a thread-local's from the start of thread-local storage.
#[tactic(auto, unfolding(crate::specs::Change::unsigned_value, util::specs::Choice::choose))]
pub fn unsigned_value(bases: Bases, e: Reloc, t: Resolved) -> u64
    ensures { result ≡ unsigned_value bases e t }
{
    let value = target_of(e, t);
    if t.is_tls() {
        return util::wrapping_sub(value, bases.tls_begin);
    }
    value
}

// AUTHENTICATED_POINTER's value: S + A less the image base in its low half, and how it is signed.
#[tactic(auto, unfolding(crate::specs::Change::authenticated_value, util::specs::Choice::choose))]
fn authenticated_value(bases: Bases, e: Reloc, t: Resolved) -> u64
    ensures { result ≡ authenticated_value bases e t }
{
    authenticated_word((from_image(bases, e, t) % 0x1_0000_0000) as u32, e.signing)
}

// An AUTHENTICATED_POINTER: nothing for an imported symbol, else its value.
#[tactic(auto, unfolding(crate::specs::Change::authenticated_change, util::specs::Choice::choose))]
pub fn authenticated_change(bases: Bases, e: Reloc, t: Resolved) -> Change
    ensures { result ≡ authenticated_change bases e t }
{
    if is_imported_symbol(e, t) {
        return silent(Write::Nothing);
    }
    silent(Write::Pointer(authenticated_value(bases, e, t)))
}

// SUBTRACTOR's value: the next entry's S + A, minus the own S.
#[tactic(auto, unfolding(crate::specs::Change::subtractor_value, util::specs::Choice::choose))]
pub fn subtractor_value(t: Resolved, next: Reloc, next_target: Resolved) -> u64
    ensures { result ≡ subtractor_value t next next_target }
{
    util::wrapping_sub(target_of(next, next_target), t.addr)
}

// A SUBTRACTOR's value in the bytes of its own size field.
#[tactic(auto, unfolding(crate::specs::Change::difference, util::specs::Choice::choose))]
pub fn difference(e: Reloc, value: u64) -> Change
    ensures { result ≡ difference e value }
{
    if e.size == 4 {
        return silent(Write::Word((value % 0x1_0000_0000) as u32));
    }
    silent(Write::Pointer(value))
}

// What a tracing site's branch becomes: NOP for a probe, "movz x0, #0" for an is-enabled test.
#[tactic(auto, unfolding(crate::specs::Change::dtrace_site_insn, util::specs::Choice::choose))]
fn dtrace_site_insn(e: Reloc, t: Resolved) -> Option<u32>
    ensures { result ≡ dtrace_site_insn e t }
{
    if e.is_section() {
        return None;
    }
    if t.is_probe() {
        return Some(arm64_insn::fix::NOP);
    }
    if t.is_enabled() {
        return Some(arm64_insn::fix::IS_ENABLED);
    }
    None
}

// Where a branch goes: the symbol's branch target, or the section's address, plus A.
#[tactic(auto, unfolding(crate::specs::Change::branch_target, util::specs::Choice::choose))]
fn branch_target(e: Reloc, t: Resolved) -> u64
    ensures { result ≡ branch_target e t }
{
    if e.is_section() {
        return util::wrapping_add(t.addr, e.addend);
    }
    util::wrapping_add(t.branch, e.addend)
}

// Whether a branch may go through the symbol's thunk: an entry of it jumps to the symbol, so a branch with an addend can't take it.
#[tactic(auto, unfolding(crate::specs::Change::thunk_serves, util::specs::Choice::choose))]
fn thunk_serves(e: Reloc, t: Resolved, target: u64) -> bool
    ensures { result ≡ thunk_serves e t target }
{
    !e.is_section() && t.has_thunk() && e.addend == 0 && adrp_reaches(target, t.thunk)
}

// A branch to T: straight where it reaches, else through a thunk that serves, else as if it reached, with a report.
#[tactic(auto, unfolding(crate::specs::Change::branch, util::specs::Choice::choose))]
fn branch(s: Site, e: Reloc, t: Resolved, word: u32) -> Change
    ensures { result ≡ branch s e t word }
{
    let target = branch_target(e, t);
    let direct = branch_word(word, util::wrapping_sub(target, s.addr));
    if branch_reaches(target, s.addr) {
        return silent(Write::Word(direct));
    }
    if thunk_serves(e, t, target) {
        return silent(Write::Word(branch_word(word, util::wrapping_sub(t.thunk, s.addr))));
    }
    out_of_reach(s, Kind::BranchReach, target, direct)
}

// BRANCH26.
pub fn branch26(s: Site, e: Reloc, t: Resolved, word: u32) -> Change
    ensures { result ≡ branch_unless (dtrace_site_insn e t) (branch s e t word) }
{
    match dtrace_site_insn(e, t) {
        Some(insn) => silent(Write::Word(insn)),
        None => branch(s, e, t, word),
    }
}

// An ADRP to the target's page.
#[tactic(auto, unfolding(crate::specs::Change::page21, util::specs::Choice::choose))]
pub fn page21(s: Site, target: u64, word: u32) -> Change
    ensures { result ≡ page21 s target word }
{
    let insn = write_adrp_word(word, target, s.addr);
    if adrp_reaches(target, s.addr) {
        return silent(Write::Word(insn));
    }
    out_of_reach(s, Kind::AdrpReach, target, insn)
}

// An ADD, LDR or STR with the target's page offset.
#[tactic(auto, unfolding(crate::specs::Change::pageoff12, util::specs::Choice::choose))]
pub fn pageoff12(s: Site, target: u64, word: u32) -> Change
    ensures { result ≡ pageoff12 s target word }
{
    match write_add_ldst_word(word, target) {
        Ok(insn) => silent(Write::Word(insn)),
        Err(size) => unfit(s, Kind::Alignment, size as u8),
    }
}

// GOT_LOAD_PAGE21: a branch to the helper in place of the ADRP, where there is one.
#[tactic(auto, unfolding(crate::specs::Change::got_page21, util::specs::Choice::choose))]
pub fn got_page21(s: Site, e: Reloc, t: Resolved, word: u32) -> Change
    ensures { result ≡ got_page21 s e t word }
{
    if t.has_helper() {
        let own = t.helper_is_own();
        return silent(Write::Word(helper_word(own, util::wrapping_sub(t.helper, s.addr))));
    }
    page21(s, got_target(e, t), word)
}

// Whether the word of a relaxed page offset can become an ADD.
fn can_relax(ty: u8, word: u32) -> bool
    ensures { result ≡ can_relax ty word }
{
    is_ldr_imm(word) || (ty == ARM64_RELOC_GOT_LOAD_PAGEOFF12 && is_add(word))
}

// A relaxed page offset: the LDR becomes an ADD.
#[tactic(auto, unfolding(crate::specs::Change::relaxed, util::specs::Choice::choose))]
fn relaxed(s: Site, ty: u8, target: u64, word: u32) -> Change
    ensures { result ≡ relaxed s ty target word }
{
    if can_relax(ty, word) {
        return silent(Write::Word(relaxed_word(word, target)));
    }
    unfit(s, Kind::NonLdr, 0)
}

// GOT_LOAD_PAGEOFF12 and TLVP_LOAD_PAGEOFF12.
#[tactic(auto, unfolding(crate::specs::Change::got_pageoff12, util::specs::Choice::choose))]
pub fn got_pageoff12(s: Site, e: Reloc, t: Resolved, word: u32) -> Change
    ensures { result ≡ got_pageoff12 s e t word }
{
    if t.can_relax_got() {
        return relaxed(s, e.ty, target_of(e, t), word);
    }
    pageoff12(s, slot_of(e, t), word)
}

// POINTER_TO_GOT's value.
#[tactic(auto, unfolding(crate::specs::Change::pointer_to_got, util::specs::Choice::choose))]
pub fn pointer_to_got(s: Site, e: Reloc, t: Resolved) -> u32
    ensures { result ≡ pointer_to_got s e t }
{
    (util::wrapping_sub(slot_of(e, t), s.addr) % 0x1_0000_0000) as u32
}

// The types that work on the word at the place; any other number does nothing, and the check turns down 10 and those above 11.
#[tactic(auto, unfolding(crate::specs::Change::word_change, util::specs::Choice::choose))]
pub fn word_change(s: Site, e: Reloc, t: Resolved, word: u32) -> Change
    ensures { result ≡ word_change s e t word }
{
    match e.ty {
        ARM64_RELOC_BRANCH26 => branch26(s, e, t, word),
        ARM64_RELOC_PAGE21 => page21(s, target_of(e, t), word),
        ARM64_RELOC_PAGEOFF12 => pageoff12(s, target_of(e, t), word),
        ARM64_RELOC_GOT_LOAD_PAGE21 => got_page21(s, e, t, word),
        ARM64_RELOC_TLVP_LOAD_PAGE21 => page21(s, got_target(e, t), word),
        ARM64_RELOC_POINTER_TO_GOT => silent(Write::Word(pointer_to_got(s, e, t))),
        ARM64_RELOC_GOT_LOAD_PAGEOFF12 | ARM64_RELOC_TLVP_LOAD_PAGEOFF12 => got_pageoff12(
            s, e, t, word,
        ),
        _ => silent(Write::Nothing),
    }
}
