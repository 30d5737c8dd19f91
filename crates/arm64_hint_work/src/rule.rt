// Which rule rewrote a hint's words, and how many of them: what a listed run says of an outcome (RULES 16.3, 16.4).
ghost use Rattle.std.specs.Prelude.{◌≡◌};
ghost use Rattle.arm64_hint_work.specs.Acted.{rewrite_rule, rule_of, changed_at, changed_of};

use arm64_hint_rules::outcome::HintOutcome;
use arm64_hint_terms::answer::{NoRewrite, Rewrite};
use macho::rule_record::RuleRecord;

// The rule of a rewrite.
fn rewrite_rule(r: Rewrite) -> u8
    ensures { result ≡ rewrite_rule r }
{
    match r {
        Rewrite::Drop => RuleRecord::SECOND_ADRP,
        Rewrite::Literal => RuleRecord::LITERAL,
        Rewrite::Adr => RuleRecord::ADR,
        Rewrite::Fold => RuleRecord::FOLD,
        Rewrite::Slot => RuleRecord::GOT_SLOT,
    }
}

// The rule of an outcome.
pub fn rule_of(o: HintOutcome) -> u8
    ensures { result ≡ rule_of o }
{
    match o {
        None => RuleRecord::SKIPPED,
        Some((Err(NoRewrite::Declined), _)) => RuleRecord::DECLINED,
        Some((Err(NoRewrite::Nine), _)) => RuleRecord::TURNED_DOWN,
        Some((Ok(p), _)) => rewrite_rule(p.rewrite),
    }
}

// 1 where a place is written, else 0.
fn changed_at(w: Option<u32>) -> u8
    ensures { result ≡ changed_at w }
{
    w.is_some() as u8
}

// How many places an outcome writes.
pub fn changed_of(o: HintOutcome) -> u8
    ensures { result ≡ changed_of o }
{
    match o {
        Some((Ok(p), _)) => changed_at(p.w0) + changed_at(p.w1) + changed_at(p.w2),
        _ => 0,
    }
}
