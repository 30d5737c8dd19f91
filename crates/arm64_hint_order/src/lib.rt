// The order of work of a hint run (arch/arm64.rs, `apply_hints`), as a cursor by value over the lent hint records: objects by rising number, in
// each the hints of other kinds and then the ADRP_ADRP hints, by list position. Where the records come grouped by rising object number, which the
// caller tells, a walk over all of them takes time linear in their number; any other order of the records is right too, and costs three passes
// over the list for each object.
#![tactic(auto)]

ghost use Rattle.std.specs.Prelude.{◌≡◌, true, ◌+◌, ◌≤◌, ◌<◌};
ghost use Rattle.macho.specs.Hint.{hint_count};
ghost use Rattle.arm64_hint_order.specs.Lists.{in_pass};
ghost use Rattle.arm64_hint_order.specs.Cursor.{object_at, late_at, order_of, rest, following, Cut, Sound, SoundNext};
ghost use Rattle.arm64_hint_order.specs.Walk.{grouped, Least, Positioned, GroupEnd, Found, Entered, StepsIn};

use macho::consts::LOH_ARM64_ADRP_ADRP;
use macho::hint::{HintRecord, kind_at, object_at};

// Where a walk stands: in the object's pass (the second if late is set), before position at. The object's hints stand from lo up to hi.
#[derive(Clone, Copy)]
pub struct Cursor {
    pub grouped: bool,
    pub object: u32,
    pub lo: usize,
    pub hi: usize,
    pub late: bool,
    pub at: usize,
}

// Whether a hint is one of the second pass.
fn is_late(hints: &[u8], k: usize) -> bool
    requires { k < hint_count hints.now }
    ensures { result ≡ late_at hints.now k }
{
    kind_at(hints, k) == LOH_ARM64_ADRP_ADRP
}

// Whether a hint is one of an object's first or second pass.
fn in_pass(hints: &[u8], o: u32, late: bool, k: usize) -> bool
    requires { k < hint_count hints.now }
    ensures { result ≡ in_pass (object_at hints.now) (late_at hints.now) o late k }
{
    object_at(hints, k) == o && is_late(hints, k) == late
}

// The first position after p with another object, or the number of hints, in a grouped list. Where the last hint has p's object, nothing is walked.
fn group_end(hints: &[u8], p: usize) -> usize
    requires { (p < hint_count hints.now) × Cut hints.now (object_at hints.now p) p }
    ensures { GroupEnd hints.now p result }
{
    let n = hints.len() / HintRecord::SIZE;
    let o = object_at(hints, p);
    if object_at(hints, n - 1) == o {
        return n;
    }
    (p + 1..n).find(|k| object_at(hints, *k) != o).unwrap_or(n)
}

// The better of two positions for the least object number from o on: `best`, if there is one, or k.
fn lesser(hints: &[u8], o: u64, best: Option<usize>, k: usize) -> Option<usize>
    requires { (k < hint_count hints.now) × Least hints.now o k best }
    ensures { Least hints.now o (k + 1) result }
{
    let x = object_at(hints, k);
    if (x as u64) < o {
        return best;
    }
    let Some(p) = best else {
        return Some(k);
    };
    if object_at(hints, p) <= x {
        return best;
    }
    Some(k)
}

// A position of the least object number from o on.
fn least_from(hints: &[u8], o: u64) -> Option<usize>
    ensures { Least hints.now o (hint_count hints.now) result }
{
    let mut best = None;
    for k in 0..hints.len() / HintRecord::SIZE {
        best = lesser(hints, o, best, k);
    }
    best
}

// The same, where the objects from o on begin at position p if the list is grouped.
fn position_from(hints: &[u8], grouped: bool, p: usize, o: u64) -> Option<usize>
    requires { (p ≤ hint_count hints.now) × (grouped ≡ true → Cut hints.now o p) }
    ensures { Positioned hints.now grouped o result }
{
    if grouped {
        (p < hints.len() / HintRecord::SIZE).then_some(p)
    } else {
        least_from(hints, o)
    }
}

// The first position of a pass from a position on and below an end.
fn find(hints: &[u8], o: u32, late: bool, from: usize, to: usize) -> Option<usize>
    requires { to ≤ hint_count hints.now }
    ensures { Found hints.now o late from to result }
{
    (from..to).find(|k| in_pass(hints, o, late, *k))
}

// The cursor at the start of the object of position p.
fn enter(hints: &[u8], grouped: bool, p: usize) -> Cursor
    requires { (p < hint_count hints.now) × (grouped ≡ true → Cut hints.now (object_at hints.now p) p) }
    ensures { Entered hints.now p result }
{
    let object = object_at(hints, p);
    let (lo, hi) = if grouped {
        (p, group_end(hints, p))
    } else {
        (0, hints.len() / HintRecord::SIZE)
    };
    Cursor {
        grouped,
        object,
        lo,
        hi,
        late: false,
        at: lo,
    }
}

impl Cursor {
    // The cursor before the first hint. The caller tells whether the object numbers never fall along the list.
    pub fn first(hints: &[u8], rises: bool) -> Self
        requires { rises ≡ grouped (object_at hints.now) (hint_count hints.now) }
        ensures all { rest hints.now result ≡ order_of hints.now }
        ensures sound { Sound hints.now result }
    {
        match position_from(hints, rises, 0, 0) {
            Some(p) => enter(hints, rises, p),
            None => Cursor {
                grouped: rises,
                object: 0,
                lo: 0,
                hi: 0,
                late: false,
                at: 0,
            },
        }
    }

    // The next hint of the cursor's object.
    fn step_in(self, hints: &[u8]) -> Option<(usize, Cursor)>
        requires { Sound hints.now self }
        ensures step { StepsIn hints.now self result }
        ensures sound { SoundNext hints.now result }
    {
        if let Some(k) = find(hints, self.object, self.late, self.at, self.hi) {
            return Some((k, Cursor { at: k + 1, ..self }));
        }
        if self.late {
            return None;
        }
        let k = find(hints, self.object, true, self.lo, self.hi)?;
        Some((
            k,
            Cursor {
                late: true,
                at: k + 1,
                ..self
            },
        ))
    }

    // The hint that is worked next.
    pub fn next(self, hints: &[u8]) -> Option<(usize, Cursor)>
        requires { Sound hints.now self }
        ensures step { following hints.now result ≡ rest hints.now self }
        ensures sound { SoundNext hints.now result }
    {
        if let Some(step) = self.step_in(hints) {
            return Some(step);
        }
        let p = position_from(hints, self.grouped, self.hi, (self.object as u64) + 1)?;
        enter(hints, self.grouped, p).step_in(hints)
    }
}
