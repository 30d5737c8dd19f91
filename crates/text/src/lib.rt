// Texts put into lent bytes: a text, a digit, a number below 100.
#![tactic(auto)]

ghost use Rattle.std.specs.Prelude.{◌≡◌, ◌<◌, length};
ghost use Rattle.text.specs.Digits.{digit_of, decimal};
ghost use Rattle.text.specs.Prints.{HasRoom, Prints};

// A page that texts are put on: the lent bytes, and where the next text goes.
#[derive(Drop)]
pub struct Page<'a> {
    pub out: &'a mut [u8],
    pub at: usize,
}

impl Page<'_> {
    // Puts a text.
    pub fn put(&mut self, text: &[u8])
        requires { HasRoom self.old (length text.now) }
        ensures { Prints self.old text.now self.new }
    {
        let end = self.at + text.len();
        self.out[self.at..end].copy_from_slice(text);
        self.at = end;
    }

    // Puts a number below 100 in decimal; of a larger one the last two digits.
    #[tactic(auto, using(crate::proofs::Decimal::one_digit, crate::proofs::Decimal::two_digits))]
    pub fn put_decimal(&mut self, x: u64)
        requires { HasRoom self.old 2 }
        ensures { Prints self.old (decimal x) self.new }
    {
        let last = digit((x % 10) as u32);
        if x < 10 {
            self.put(&[last]);
        } else {
            self.put(&[digit((x / 10 % 10) as u32), last]);
        }
    }
}

// The ASCII code of a digit.
#[tactic(auto, unfolding(util::specs::Choice::choose))]
pub fn digit(d: u32) -> u8
    requires { d < 16 }
    ensures { result ≡ digit_of d }
{
    let d = d as u8;
    if d < 10 { b'0' + d } else { b'a' + (d - 10) }
}
