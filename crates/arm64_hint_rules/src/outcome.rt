// What working one hint comes to.
use arm64_hint_terms::answer::{Decision, Insns};

// What was decided of the words that stood at a hint's places, with those words; none of a hint that was skipped.
pub type HintOutcome = Option<(Decision, Insns)>;
