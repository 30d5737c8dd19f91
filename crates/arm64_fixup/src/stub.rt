// One stub entry and one thunk entry of 12 bytes (write_stubs, write_thunk).
ghost use Rattle.std.specs.Prelude.{◌≡◌, ◌≤◌, length};
ghost use Rattle.util.specs.Word.{put};
ghost use Rattle.arm64_insn.specs.Stub.{stub_words, thunk_words};
ghost use Rattle.arm64_fixup.specs.Stub.{stub_size, words_in, stub_answer, thunk_check};

use arm64_insn::page::adrp_reaches;
use arm64_insn::stub::{Words3, stub_words, thunk_words};
use macho::refusal::Refusal;
use util::write32;

// How many bytes a stub entry has, and a thunk entry.
const STUB_SIZE: usize = 12;

// Stores three words at the front.
fn write_words(buf: &mut [u8], w: Words3)
    requires { stub_size ≤ length buf.old }
    ensures { buf.new ≡ put 4 (put 4 (put 4 buf.old 0 w.first) 4 w.second) 8 w.third }
{
    write32(buf, 0, w.first);
    write32(buf, 4, w.second);
    write32(buf, 8, w.third);
}

// The stub entry at `addr` that jumps to what the pointer at `ptr` holds.
#[tactic(auto, unfolding(crate::specs::Stub::stub_answer, crate::specs::Stub::words_in, util::specs::Choice::choose))]
pub fn write_stub(buf: &mut [u8], addr: u64, ptr: u64) -> Result<bool, Refusal>
    ensures answer { result ≡ stub_answer buf.old addr ptr }
    ensures bytes { buf.new ≡ words_in buf.old (stub_words addr ptr) }
{
    if buf.len() < STUB_SIZE {
        return Err(Refusal::Bounds);
    }
    write_words(buf, stub_words(addr, ptr));
    Ok(adrp_reaches(ptr, addr))
}

// The thunk entry at `addr` that jumps to `target`, written where it fits.
#[tactic(auto, unfolding(crate::specs::Stub::thunk_check, crate::specs::Stub::words_in, util::specs::Choice::choose))]
pub fn write_thunk(buf: &mut [u8], addr: u64, target: u64) -> Result<(), Refusal>
    ensures answer { result ≡ thunk_check buf.old }
    ensures bytes { buf.new ≡ words_in buf.old (thunk_words addr target) }
{
    if buf.len() < STUB_SIZE {
        return Err(Refusal::Bounds);
    }
    write_words(buf, thunk_words(addr, target));
    Ok(())
}
