// One stub entry and one thunk entry of 12 bytes.
ghost use Rattle.std.specs.Prelude.{◌≡◌};
ghost use Rattle.hauklivo.specs.Stub.{stub_number_to, reaches_to, stub_to, thunk_number_to, thunk_to};

use arm64_fixup::stub::{write_stub, write_thunk};
use macho::refusal::answer_number;

// Writes the stub entry at `addr` whose pointer is at `ptr`; `reaches` gets 1 where ADRP reaches the pointer's page, else 0.
pub fn hauklivo_write_stub(buf: &mut [u8], addr: u64, ptr: u64, reaches: &mut u8) -> u8
    ensures number { result ≡ stub_number_to buf.old addr ptr }
    ensures reaches { reaches.new ≡ reaches_to buf.old addr ptr reaches.old }
    ensures buf { buf.new ≡ stub_to buf.old addr ptr }
{
    match write_stub(buf, addr, ptr) {
        Ok(reach) => {
            *reaches = reach as u8;
            0
        }
        Err(refusal) => refusal.number(),
    }
}

// Writes the thunk entry at `addr` that jumps to `target`.
pub fn hauklivo_write_thunk(buf: &mut [u8], addr: u64, target: u64) -> u8
    ensures number { result ≡ thunk_number_to buf.old }
    ensures buf { buf.new ≡ thunk_to buf.old addr target }
{
    answer_number(write_thunk(buf, addr, target))
}
