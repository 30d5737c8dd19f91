// The 16 bytes that a record starts with.
ghost use Rattle.std.specs.Prelude.{◌≡◌, ◌+◌, ◌*◌, ◌≤◌, length};
ghost use Rattle.util.specs.Word.{le};
ghost use Rattle.replay_list.specs.Head.{head_of, bare};

// What a record is beside a call's answer: a title; and what is found in its stead, the list's end, or bytes that are no record.
pub const TITLE: u8 = 0;

pub const END: u8 = 0xfe;

pub const BROKEN: u8 = 0xff;

// What the record is, the answer's number, the body's length, and the values but for the last, which no record has.
#[derive(Clone, Copy)]
pub struct Head {
    pub what: u8,
    pub number: u8,
    pub len: u16,
    pub v1: u16,
    pub v2: u16,
    pub v3: u16,
    pub v4: u16,
    pub v5: u16,
}

// The 2-byte number at `at`.
fn read16(s: &[u8], at: usize) -> u16
    requires { at + 2 ≤ length s.now }
    ensures { result ≡ le 2 s.now at }
{
    u16::from_le_bytes([s[at], s[at + 1]])
}

impl Head {
    // A head with no body.
    pub fn bare(what: u8) -> Head
        ensures { (result ≡ bare what) × (result.len ≡ 0) }
    {
        Head {
            what,
            number: 0,
            len: 0,
            v1: 0,
            v2: 0,
            v3: 0,
            v4: 0,
            v5: 0,
        }
    }

    // The head in 16 bytes.
    #[tactic(auto, unfolding(crate::specs::Head::head_of))]
    pub fn read(s: &[u8]) -> Head
        requires { 16 ≤ length s.now }
        ensures { result ≡ head_of s.now }
    {
        Head {
            what: s[0],
            number: s[1],
            len: read16(s, 2),
            v1: read16(s, 4),
            v2: read16(s, 6),
            v3: read16(s, 8),
            v4: read16(s, 10),
            v5: read16(s, 12),
        }
    }
}
