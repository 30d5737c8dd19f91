// What comes next in a row of hints.
ghost use Rattle.std.specs.Prelude.{◌≡◌};
ghost use Rattle.hint_payload.specs.Row.{addresses_left, expected_after, is_kind};

// A hint's kind, its count, one of its addresses with so many after it; or, after kind 0, nothing but zeros.
#[derive(Clone, Copy, PartialEq)]
pub enum Expected {
    Kind,
    Count,
    Address(u64),
    Zeros,
}

// What comes next where so many addresses are left.
#[tactic(auto, unfolding(crate::specs::Row::addresses_left, util::specs::Choice::choose))]
fn addresses_left(n: u64) -> Expected
    ensures { result ≡ addresses_left n }
{
    if n == 0 {
        Expected::Kind
    } else {
        Expected::Address(n - 1)
    }
}

impl Expected {
    // What comes after a value.
    #[tactic(auto, unfolding(util::specs::Choice::choose))]
    pub fn after(self, value: u64) -> Expected
        ensures { result ≡ expected_after self value }
    {
        match self {
            Expected::Kind if value == 0 => Expected::Zeros,
            Expected::Kind => Expected::Count,
            Expected::Count => addresses_left(value),
            Expected::Address(n) => addresses_left(n),
            Expected::Zeros => Expected::Zeros,
        }
    }

    // Whether a hint's kind comes next.
    pub fn is_kind(self) -> bool
        ensures { result ≡ is_kind self }
    {
        self == Expected::Kind
    }
}
