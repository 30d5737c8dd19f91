// The bytes that a call is lent: slots have a pattern before the call, and records from the front after it.
ghost use Rattle.std.specs.Prelude.{true, [], ◌≡◌, length};
ghost use Rattle.replay_list.specs.Lent.{pattern_at, due_at, Filled};

// The byte at i of slots before a call.
fn pattern(i: usize) -> u8
    ensures { result ≡ pattern_at i }
{
    ((i % 0x100 * 37 + 11) % 0x100) as u8
}

// Makes slots what they are before a call.
pub fn put_pattern(slots: &mut [u8])
    ensures { (length slots.new ≡ length slots.old) × Filled slots.new [] }
{
    for i in 0..slots.len() {
        slots[i] = pattern(i);
    }
}

// The byte due at i of slots after a call that filled records.
#[tactic(auto, unfolding(crate::specs::Lent::due_at, util::specs::Choice::choose))]
fn due(records: &[u8], i: usize) -> u8
    ensures { result ≡ due_at records.now i }
{
    if i < records.len() {
        records[i]
    } else {
        pattern(i)
    }
}

// Whether slots have records from the front and are otherwise as before the call.
pub fn are_filled(slots: &[u8], records: &[u8]) -> bool
    ensures { (result ≡ true → Filled slots.now records.now) × (Filled slots.now records.now → result ≡ true) }
{
    if slots.len() < records.len() {
        return false;
    }
    for i in 0..slots.len() {
        if slots[i] != due(records, i) {
            return false;
        }
    }
    true
}
