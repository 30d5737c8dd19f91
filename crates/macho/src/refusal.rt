// Why a call turns its input down, and what it answers (RULES 3.1).
ghost use Rattle.std.specs.Prelude.{◌≡◌};
ghost use Rattle.macho.specs.Refusal.{number_of, answer_number, left_in};

// The table's rows, with their numbers.
#[derive(Clone, Copy, PartialEq, Eq)]
pub enum Refusal {
    Lengths = 1,
    Slots = 2,
    Bounds = 3,
    LoneAddend = 4,
    Unsupported = 5,
    Unfit = 6,
    NoSection = 7,
    LoneSubtractor = 8,
    Overflow = 9,
    NeedsSymbol = 10,
    Flags = 11,
    NoEntry = 12,
    Malformed = 13,
    Trailing = 14,
    NotAuthenticated = 15,
    FarFromImage = 16,
}

impl Refusal {
    // Its number in RULES 3.1.
    pub fn number(self) -> u8
        ensures { result ≡ number_of self }
    {
        self as u8
    }
}

// The number of what a call says: 0 where it refuses nothing.
pub fn answer_number<T: Copy>(answer: Result<T, Refusal>) -> u8
    ensures { result ≡ answer_number answer }
{
    match answer {
        Ok(_) => 0,
        Err(refusal) => refusal.number(),
    }
}

// Leaves an answer in what was lent for it, which a refusal keeps as it was, and gives its number.
pub fn settle<T: Copy>(answer: Result<T, Refusal>, lent: &mut T) -> u8
    ensures number { result ≡ answer_number answer }
    ensures lent { lent.new ≡ left_in answer lent.old }
{
    match answer {
        Ok(value) => {
            *lent = value;
            0
        }
        Err(refusal) => refusal.number(),
    }
}
