// What a reader is lent of a section.

// A section's bytes, its relocation records, and the address of each section of the file.
#[derive(Clone, Copy)]
pub struct Lent<'a> {
    pub contents: &'a [u8],
    pub records: &'a [u8],
    pub sections: &'a [u64],
}
