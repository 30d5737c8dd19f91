// Reading a list.
ghost use Rattle.std.specs.Prelude.{[], ◌≡◌, ◌<◌, ◌≤◌, length, take, IfOk, OnErr};
ghost use Rattle.std.specs.Io.KnownBytes.{Appends, Consumes, IsAtEnd};
ghost use Rattle.replay_list.specs.Head.{title_text, IsRead};

use crate::head::{BROKEN, END, Head, TITLE};
use std::io::{Read, Write};
use std::rt::Files;
use std::{fs, io};
use text_io::read_full;

// The name of the file that the list is in.
const NAME: &str = "answers";

// The most bytes of a record's body.
pub const BODY: usize = 4096;

// Opens the list.
pub fn open<F: Files>(files: &F) -> io::Result<F::File> {
    fs::open(files, NAME)
}

// Reads the body of a record to the front of `body`, and writes a title out. After an error `body` has any bytes.
#[tactic(auto, unfolding(util::specs::Choice::choose))]
fn read_body<R: Read, W: Write>(
    from: &mut R,
    to: &mut W,
    head: Head,
    body: &mut [u8],
) -> io::Result<Head>
    ensures fits { IfOk result (λ h. h.len ≤ length body.new) }
    ensures lent { OnErr result (length body.new ≡ length body.old) }
    ensures same { IfOk result (λ h. h.what < END → h ≡ head) }
    ensures no_end { IfOk result (λ h. h.what ≡ END → ⊥) }
    ensures read { IfOk result (λ h. h.what < END → Consumes (R.remaining from.old) (R.remaining from.new) (take h.len body.new)) }
    ensures title { IfOk result (λ h. Appends (W.contents to.old) (W.contents to.new) (title_text h body.new)) }
{
    let len = head.len as usize;
    if head.what >= END {
        return Ok(Head::bare(BROKEN));
    }
    if body.len() < len {
        return Ok(Head::bare(BROKEN));
    }
    if read_full(from, &mut body[0..len])? < len {
        return Ok(Head::bare(BROKEN));
    }
    if head.what == TITLE {
        to.write_all(&body[0..len])?;
    }
    Ok(head)
}

// The next record; its body is put at the front of `body`, and a title is written out. After an error `body` has any bytes.
#[tactic(auto, unfolding(util::specs::Choice::choose))]
pub fn next<R: Read, W: Write>(from: &mut R, to: &mut W, body: &mut [u8]) -> io::Result<Head>
    ensures fits { IfOk result (λ h. h.len ≤ length body.new) }
    ensures lent { OnErr result (length body.new ≡ length body.old) }
    ensures read { IfOk result (λ h. h.what < END → IsRead (R.remaining from.old) (R.remaining from.new) h body.new) }
    ensures end { IfOk result (λ h. h.what ≡ END → Consumes (R.remaining from.old) (R.remaining from.new) [] × IsAtEnd (R.remaining from.new)) }
    ensures title { IfOk result (λ h. Appends (W.contents to.old) (W.contents to.new) (title_text h body.new)) }
{
    let mut bytes = [0u8; 16];
    let n = read_full(from, &mut bytes)?;
    if n == 0 {
        return Ok(Head::bare(END));
    }
    if n < 16 {
        return Ok(Head::bare(BROKEN));
    }
    read_body(from, to, Head::read(&bytes), body)
}
