// One body under repair: which of its slots are kept, one flag for each slot, and what the report says of the others.
#![tactic(auto)]

ghost use Rattle.std.specs.Prelude.{◌≡◌, true, false, ◌+◌, ◌*◌, ◌≤◌, ◌<◌, length, take};
ghost use Rattle.words.specs.Numbers.{put, bytes4};
ghost use Rattle.record.specs.Slot.{slot_size, record_at, key_of};
ghost use Rattle.ranges.specs.Ranges.{is_nothing};
ghost use Rattle.slots.specs.Slots.{slots_at, find_in};
ghost use Rattle.body.specs.Body.{slot_ok};
ghost use Rattle.packing.specs.Packing.{chosen, flag};
ghost use Rattle.keeping.specs.Keeping.{keeps, keeps_at, blanks, blanked_from, moved, each_bytes};

use record::Key;

// A slot whose record is valid by itself.
#[tactic(auto, using(crate::proofs::Laws::slot_told))]
fn slot_valid(t: &[u8], at: usize) -> bool
    requires { at + slot_size ≤ length t.now }
    ensures { result ≡ slot_ok t.now at }
{
    body::judge_slot(t, at).is_some()
}

// Whether none of the kept ones among a body's first n slots has this key.
fn key_absent(t: &[u8], base: usize, flags: &[u8], n: usize, key: Key) -> bool
    requires { (base + slot_size * n ≤ length t.now) × (n ≤ length flags.now) }
    ensures { result ≡ is_nothing (find_in (chosen (slots_at t.now base n) (take n flags.now)) 0 key) }
{
    for i in 0..n {
        if flags[i] == 1 && record::hit_at(t, base + record::SLOT * i, key) {
            return false;
        }
    }
    true
}

// The same for a key that the caller knows to be absent, unless it may be there: only then are the slots looked at.
fn key_new(t: &[u8], base: usize, flags: &[u8], n: usize, key: Key, maybe: bool) -> bool
    requires { (base + slot_size * n ≤ length t.now) × (n ≤ length flags.now)
        × (maybe ≡ false → is_nothing (find_in (chosen (slots_at t.now base n) (take n flags.now)) 0 key) ≡ true) }
    ensures { result ≡ is_nothing (find_in (chosen (slots_at t.now base n) (take n flags.now)) 0 key) }
{
    !maybe || key_absent(t, base, flags, n, key)
}

// The flag of slot i with this key, after those of the slots before it.
#[tactic(auto, unfolding(crate::specs::Keeping::keeps))]
fn flag_of(t: &[u8], base: usize, flags: &[u8], i: usize, key: Key, maybe: bool, closed: u64) -> u8
    requires { (base + slot_size * length flags.now ≤ length t.now) × (i < length flags.now) × (key ≡ key_of (record_at t.now (base + slot_size * i)))
        × (maybe ≡ false → is_nothing (find_in (chosen (slots_at t.now base i) (take i flags.now)) 0 key) ≡ true) }
    ensures { result ≡ flag (keeps closed t.now (base + slot_size * i) (chosen (slots_at t.now base i) (take i flags.now))) }
{
    u8::from(
        slot_valid(t, base + record::SLOT * i)
            && closed < key.esercizio
            && key_new(t, base, flags, i, key, maybe),
    )
}

// The flags of a body's slots, as many as there is room for flags, of a body that has closed the years up to this one. Most keys fall on a place of the filter that no earlier one has marked, so that the
// earlier slots need not be looked at.
pub fn flags_of(t: &[u8], base: usize, flags: &mut [u8], closed: u64)
    requires { base + slot_size * length flags.old ≤ length t.now }
    ensures { flags.new ≡ keeps_at closed t.now base (length flags.old) }
{
    let mut seen = [0u8; 4096];
    for i in 0..flags.len() {
        let key = record::key_at(t, base + record::SLOT * i);
        let h = slots::mark_of(key);
        flags[i] = flag_of(t, base, flags, i, key, seen[h] != 0, closed);
        seen[h] = 1;
    }
}

// Whether the slot at a place with this flag is blanked.
#[tactic(auto, unfolding(crate::specs::Keeping::blanks))]
fn is_blanked(t: &[u8], at: usize, f: u8) -> bool
    requires { at + slot_size ≤ length t.now }
    ensures { result ≡ blanks t.now at f }
{
    f != 1 && !ranges::are_zero(t, at, at + record::SLOT)
}

// How many of a body's slots are blanked.
pub fn count_blanked(t: &[u8], base: usize, flags: &[u8]) -> usize
    requires { base + slot_size * length flags.now ≤ length t.now }
    ensures { (result ≡ length (blanked_from t.now base flags.now)) × (result ≤ length flags.now) }
{
    let mut count = 0;
    for (i, &flag) in flags.iter().enumerate() {
        if is_blanked(t, base + record::SLOT * i, flag) {
            count += 1;
        }
    }
    count
}

// Writes the places of a body's blanked slots, four bytes each; where the last of them ends.
pub fn put_places(r: &mut [u8], to: usize, t: &[u8], base: usize, flags: &[u8]) -> usize
    requires { (base + slot_size * length flags.now ≤ length t.now)
        × (to + 4 * length (blanked_from t.now base flags.now) ≤ length r.old) }
    ensures { (result ≡ to + 4 * length (blanked_from t.now base flags.now))
        × (r.new ≡ put r.old to (each_bytes bytes4 (blanked_from t.now base flags.now))) }
{
    let mut next = to;
    for (i, &flag) in flags.iter().enumerate() {
        let at = base + record::SLOT * i;
        if is_blanked(t, at, flag) {
            words::write4(r, next, at as u64);
            next += 4;
        }
    }
    next
}

// How many of the kept records come to stand in another slot.
pub fn count_moved(flags: &[u8]) -> usize
    ensures { (result ≡ moved flags.now) × (result ≤ length flags.now) }
{
    let mut to = 0;
    let mut count = 0;
    for (i, &flag) in flags.iter().enumerate() {
        if flag == 1 {
            if i != to {
                count += 1;
            }
            to += 1;
        }
    }
    count
}
