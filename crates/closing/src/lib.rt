// Closing an esercizio in one body: what stands against it, read where the bytes stand, and its records removed, the rest moved up.
#![tactic(auto)]

ghost use Rattle.std.specs.Prelude.{◌≡◌, true, ◌+◌, ◌*◌, ◌≤◌, length};
ghost use Rattle.packing.specs.Packing.{flag};
ghost use Rattle.bounds.specs.Bounds.{max_slots};
ghost use Rattle.record.specs.Slot.{slot_size, eight_at, record_at};
ghost use Rattle.slots.specs.Slots.{records_at};
ghost use Rattle.body.specs.Body.{body_ok};
ghost use Rattle.closing.specs.Closing.{earlier_remains, any_waiting, waits, line_waits, removed, stays, stays_at, year_removed};

// Where a slot has its record's state, and its esercizio.
const STATE: usize = 1;

const YEAR: usize = 4;

// Whether a record of an earlier year remains: of each slot only its kind and its esercizio are read.
pub fn earlier_remains(t: &[u8], base: usize, n: usize, year: u64) -> bool
    requires { base + slot_size * n ≤ length t.now }
    ensures { result ≡ earlier_remains year (records_at t.now base n) }
{
    for i in 0..n {
        let at = base + record::SLOT * i;
        if t[at] == 0 {
            return false;
        }
        if words::read2(t, at + YEAR) < year {
            return true;
        }
    }
    false
}

// Whether one of the eight lines whose states begin at a place waits.
fn any_waiting(t: &[u8], at: usize) -> bool
    requires { at + 8 ≤ length t.now }
    ensures { result ≡ any_waiting (eight_at t.now at) }
{
    t[at..at + 8].iter().any(|&state| state == record::WAITING)
}

// Whether the record in the slot at a place is an acquired order of the year with a waiting line.
#[tactic(auto, unfolding(crate::specs::Closing::waits, record::specs::Slot::record_at))]
fn waits_at(t: &[u8], at: usize, year: u64) -> bool
    requires { at + slot_size ≤ length t.now }
    ensures { result ≡ waits year (record_at t.now at) }
{
    words::read2(t, at + YEAR) == year
        && t[at + STATE] == record::ACQUIRED
        && any_waiting(t, at + record::STATES)
}

// Whether an acquired order of the year has a waiting line.
pub fn line_waits(t: &[u8], base: usize, n: usize, year: u64) -> bool
    requires { base + slot_size * n ≤ length t.now }
    ensures { result ≡ line_waits year (records_at t.now base n) }
{
    for i in 0..n {
        let at = base + record::SLOT * i;
        if t[at] == 0 {
            return false;
        }
        if waits_at(t, at, year) {
            return true;
        }
    }
    false
}

// The flag of the slot at a place: 1 where it stays.
#[tactic(auto, unfolding(crate::specs::Closing::stays, record::specs::Slot::record_at))]
fn flag_of(t: &[u8], at: usize, year: u64) -> u8
    requires { at + slot_size ≤ length t.now }
    ensures { result ≡ flag (stays year (record_at t.now at)) }
{
    u8::from(t[at] != 0 && words::read2(t, at + YEAR) != year)
}

// The flags of a body's slots, as many as there is room for flags.
fn flags_of(t: &[u8], base: usize, year: u64, flags: &mut [u8])
    requires { base + slot_size * length flags.old ≤ length t.now }
    ensures { flags.new ≡ stays_at t.now base (length flags.old) year }
{
    for i in 0..flags.len() {
        flags[i] = flag_of(t, base + record::SLOT * i, year);
    }
}

// Removes a year's records from a valid body of n slots; how many they were.
pub fn remove_year(t: &mut [u8], base: usize, n: usize, year: u64) -> usize
    requires { (base + slot_size * n ≤ length t.old) × (n ≤ max_slots) × (body_ok t.old base n ≡ true) }
    ensures { (result ≡ removed year (records_at t.old base n)) × (t.new ≡ year_removed t.old base n year) }
{
    let mut room = [0u8; 512];
    let flags = &mut room[..n];
    let used = slots::used_slots(t, base, n);
    flags_of(t, base, year, flags);
    used - packing::pack(t, base, flags)
}
