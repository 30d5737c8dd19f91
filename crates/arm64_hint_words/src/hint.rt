// The Rust's `Hint`: a borrow of a section's bytes, three places in them, and the word count. A place past the word count is not looked at.
ghost use Rattle.std.specs.Prelude.{◌≡◌, ◌<◌, length, take};
ghost use Rattle.arm64_hint_terms.specs.Rels.{has_page_pair};
ghost use Rattle.arm64_hint_words.specs.Place.{word_in, set_in, addr_in, Fits};
ghost use Rattle.arm64_hint_words.specs.Entry.{rels_in, InEntries};
ghost use Rattle.arm64_hint_words.specs.Held.{holding};

use crate::place::rels_in;
use arm64_hint_terms::rels::has_page_pair;
use macho::hint::HintInsn;
use util::{read32, write32};

// A hint's instructions, in their section's bytes.
#[derive(Drop)]
pub struct Hint<'a> {
    pub buf: &'a mut [u8],
    pub insns: [HintInsn; 3],
    pub n: usize,
}

impl<'a> Hint<'a> {
    // The word of place i.
    pub fn get(&self, i: usize) -> u32
        requires { Fits self.now.buf.now self.now.insns self.now.n i }
        ensures { result ≡ word_in self.now.buf.now self.now.insns self.now.n i }
    {
        if i < self.n {
            read32(self.buf, self.insns[i].off as usize)
        } else {
            0
        }
    }

    // Stores a new word at place i. Nothing else changes.
    pub fn set(&mut self, i: usize, w: Option<u32>)
        requires { Fits self.old.buf.now self.old.insns self.old.n i }
        ensures { self.new ≡ holding self.old
            (set_in self.old.buf.now self.old.insns self.old.n i w) }
    {
        let Some(word) = w else {
            return;
        };
        if i < self.n {
            write32(self.buf, self.insns[i].off as usize, word);
        }
    }

    // The address of the word of place i.
    pub fn addr(&self, i: usize) -> u64
        requires { i < 3 }
        ensures { result ≡ addr_in self.now.insns self.now.n i }
    {
        if i < self.n { self.insns[i].addr } else { 0 }
    }

    // Whether the first two words carry the halves of one reference, and a third carries no entry.
    pub fn has_page_pair(&self, entries: &[u8], got: bool) -> bool
        requires { InEntries (length entries.now) (take self.now.n self.now.insns) }
        ensures { result ≡ has_page_pair (rels_in entries.now (take self.now.n self.now.insns))
            self.now.n got }
    {
        // all three places are asked: one past the word count has no entry
        has_page_pair(rels_in(entries, self.insns, self.n), 3, got)
    }
}
