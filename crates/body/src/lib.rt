// One body: whether its slots are valid, and the sums of its executed lines, in one walk; whether a line is replaced, and whether all records are of later
// years.
#![tactic(auto)]

ghost use Rattle.std.specs.Prelude.{◌≡◌, ◌+◌, ◌*◌, ◌≤◌, length};
ghost use Rattle.bounds.specs.Bounds.{max_slots};
ghost use Rattle.record.specs.Slot.{slot_size, record_at};
ghost use Rattle.valid.specs.Valid.{executed};
ghost use Rattle.valid.specs.Inner.{judged_by};
ghost use Rattle.slots.specs.Slots.{slots_at, records_at};
ghost use Rattle.body.specs.Body.{slot_ok, slots_ok, body_ok, any_replaced, none_replaced, all_later};
ghost use Rattle.body.specs.Inner.{summed};

// Where a slot has its record's year.
const ESERCIZIO: usize = 4;

// Whether the used slot at a place is valid, and the cents of its record's executed lines.
#[tactic(auto, using(crate::proofs::Laws::slot_broken, crate::proofs::Laws::slot_told))]
pub fn judge_slot(t: &[u8], at: usize) -> Option<u64>
    requires { at + slot_size ≤ length t.now }
    ensures { result ≡ judged_by (slot_ok t.now at) (executed (record_at t.now at)) }
{
    if record::rest_zero(t, at) {
        valid::judge_at(t, at)
    } else {
        None
    }
}

// Whether the n used slots from a place on are valid, and the cents of their executed lines.
fn judge_slots(t: &[u8], base: usize, n: usize) -> Option<(u64, u64)>
    requires { (base + slot_size * n ≤ length t.now) × (n ≤ max_slots) }
    ensures { result ≡ summed (slots_ok t.now base n) (slots_at t.now base n) }
{
    let mut paid: u64 = 0;
    let mut collected: u64 = 0;
    for i in 0..n {
        let at = base + record::SLOT * i;
        let cents = judge_slot(t, at)?;
        let kind = t[at];
        paid += valid::line_cents(kind == record::MANDATO, cents);
        collected += valid::line_cents(kind == record::REVERSALE, cents);
    }
    Some((paid, collected))
}

// Whether a body of n slots is valid, and the cents of its executed lines.
#[tactic(auto, using(slots::proofs::Laws::used_le, crate::proofs::Laws::body_slots, crate::proofs::Laws::body_rest, crate::proofs::Laws::body_keys, crate::proofs::Laws::body_right))]
pub fn judge(t: &[u8], base: usize, n: usize) -> Option<(u64, u64)>
    requires { (base + slot_size * n ≤ length t.now) × (n ≤ max_slots) }
    ensures { result ≡ summed (body_ok t.now base n) (records_at t.now base n) }
{
    let used = slots::used_slots(t, base, n);
    let first = base + record::SLOT * used;
    let end = base + record::SLOT * n;
    let sums = judge_slots(t, base, used)?;
    (ranges::are_zero(t, first, end) && slots::keys_distinct(t, base, used)).then_some(sums)
}

// Whether no line of the n used slots from a place on is replaced.
fn slots_unreplaced(t: &[u8], base: usize, n: usize) -> bool
    requires { base + slot_size * n ≤ length t.now }
    ensures { result ≡ none_replaced (slots_at t.now base n) }
{
    for i in 0..n {
        let r = record::record_at(t, base + record::SLOT * i);
        if r.states.contains(&record::REPLACED) {
            return false;
        }
    }
    true
}

// Whether no line of a body of n slots is replaced.
pub fn none_replaced(t: &[u8], base: usize, n: usize) -> bool
    requires { base + slot_size * n ≤ length t.now }
    ensures { result ≡ none_replaced (records_at t.now base n) }
{
    let used = slots::used_slots(t, base, n);
    slots_unreplaced(t, base, used)
}

// Whether the records of the n used slots from a place on are of later years, each read where it stands.
fn slots_later(t: &[u8], base: usize, n: usize, year: u64) -> bool
    requires { base + slot_size * n ≤ length t.now }
    ensures { result ≡ all_later year (slots_at t.now base n) }
{
    for i in 0..n {
        if words::read2(t, base + record::SLOT * i + ESERCIZIO) <= year {
            return false;
        }
    }
    true
}

// Whether every record of a body of n slots is of a later year.
pub fn all_later(t: &[u8], base: usize, n: usize, year: u64) -> bool
    requires { base + slot_size * n ≤ length t.now }
    ensures { result ≡ all_later year (records_at t.now base n) }
{
    let used = slots::used_slots(t, base, n);
    slots_later(t, base, used, year)
}
