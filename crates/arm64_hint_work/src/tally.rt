// The tally of a run: what came of its hints, counted.
ghost use Rattle.std.specs.Prelude.{◌≡◌, ◌-◌, ◌^◌, ◌<◌};
ghost use Rattle.arm64_hint_work.specs.Step.{add_outcome, total};

use arm64_hint_rules::outcome::HintOutcome;
use arm64_hint_terms::answer::NoRewrite;

// How many hints of a run were rewritten, skipped, declined, and turned down by 9.
#[repr(C)]
#[derive(Clone, Copy, PartialEq)]
pub struct Tally {
    pub rewritten: u32,
    pub skipped: u32,
    pub declined: u32,
    pub turned_down: u32,
}

impl Tally {
    // The tally with one hint more.
    pub fn add(mut self, o: HintOutcome) -> Tally
        requires { total self < 2 ^ 32 - 1 }
        ensures { result ≡ add_outcome o self }
    {
        match o {
            None => self.skipped += 1,
            Some((Err(NoRewrite::Declined), _)) => self.declined += 1,
            Some((Err(NoRewrite::Nine), _)) => self.turned_down += 1,
            Some((Ok(_), _)) => self.rewritten += 1,
        }
        self
    }
}
