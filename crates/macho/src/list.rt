// The most records that a list may have (RULES 3.9).
pub const MOST_RECORDS: usize = 0xffff_ffff;
