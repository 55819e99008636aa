// The records of a body's slots: which are used, the search for an order, and whether a key stands twice.
#![tactic(auto)]

ghost use Rattle.std.specs.Prelude.{◌≡◌, true, false, ◌+◌, ◌*◌, ◌≤◌, ◌<◌, length};
ghost use Rattle.record.specs.Slot.{slot_size};
ghost use Rattle.ranges.specs.Ranges.{is_nothing};
ghost use Rattle.slots.specs.Slots.{used_at, slots_at, records_at, find_in, distinct};
ghost use Rattle.slots.specs.Inner.{seek_in, filter_size, mark_of, Marked, Filters};

use record::Key;

// Where a search found its key, or how many slots it looked at in vain.
pub type Sought = Result<usize, usize>;

// The places of the filter of keys that were seen.
const FILTER: u64 = 4096;

// How many of a body's n slots are used.
pub fn used_slots(t: &[u8], base: usize, n: usize) -> usize
    requires { base + slot_size * n ≤ length t.now }
    ensures { result ≡ used_at t.now base n }
{
    for i in 0..n {
        if t[base + record::SLOT * i] == 0 {
            return i;
        }
    }
    n
}

// The search for an order, one walk over the body's used slots. The key is compared where the bytes stand, and of the first empty slot only its kind is
// read: the empty ones follow the used ones.
pub fn seek(t: &[u8], base: usize, n: usize, key: Key) -> Sought
    requires { base + slot_size * n ≤ length t.now }
    ensures { result ≡ seek_in (records_at t.now base n) 0 key }
{
    for i in 0..n {
        let at = base + record::SLOT * i;
        if t[at] == 0 {
            return Err(i);
        }
        if record::hit_at(t, at, key) {
            return Ok(i);
        }
    }
    Err(n)
}

// The place among a body's records of the one with this key.
#[tactic(auto, using(crate::proofs::Search::seek_found))]
pub fn find(t: &[u8], base: usize, n: usize, key: Key) -> Option<usize>
    requires { base + slot_size * n ≤ length t.now }
    ensures { result ≡ find_in (records_at t.now base n) 0 key }
{
    seek(t, base, n, key).ok()
}

// Whether none of the n used slots from base on has this key.
fn key_absent(t: &[u8], base: usize, n: usize, key: Key) -> bool
    requires { base + slot_size * n ≤ length t.now }
    ensures { result ≡ is_nothing (find_in (slots_at t.now base n) 0 key) }
{
    for i in 0..n {
        if record::hit_at(t, base + record::SLOT * i, key) {
            return false;
        }
    }
    true
}

// The same for a key that the caller knows to be absent, unless it may be there: only then are the slots looked at.
fn key_new(t: &[u8], base: usize, n: usize, key: Key, maybe: bool) -> bool
    requires { (base + slot_size * n ≤ length t.now) × (maybe ≡ false → is_nothing (find_in (slots_at t.now base n) 0 key) ≡ true) }
    ensures { result ≡ is_nothing (find_in (slots_at t.now base n) 0 key) }
{
    !maybe || key_absent(t, base, n, key)
}

// A key's place in the filter of keys that were seen.
pub fn mark_of(k: Key) -> usize
    ensures { (result ≡ mark_of k) × (result < filter_size) }
{
    let number = k.number % FILTER;
    let kind = k.kind % FILTER;
    let esercizio = k.esercizio % FILTER;
    ((number * 2 + kind + esercizio * 613) % FILTER) as usize
}

// Whether no key stands twice in the n used slots from base on. From the last slot to the first: most keys fall on a place
// that no later one has marked, so that the later slots need not be looked at.
pub fn keys_distinct(t: &[u8], base: usize, n: usize) -> bool
    requires { base + slot_size * n ≤ length t.now }
    ensures { result ≡ distinct (slots_at t.now base n) }
{
    let mut seen = [0u8; 4096];
    for later in 0..n {
        let next = base + record::SLOT * (n - later);
        let key = record::key_at(t, next - record::SLOT);
        let h = mark_of(key);
        if !key_new(t, next, later, key, seen[h] != 0) {
            return false;
        }
        seen[h] = 1;
    }
    true
}

// Marks the keys of a body's used slots, and tells how many these are.
pub fn mark_keys(t: &[u8], base: usize, n: usize, marks: &mut [u8]) -> usize
    requires { (base + slot_size * n ≤ length t.now) × (length marks.old ≡ filter_size) }
    ensures { (result ≡ used_at t.now base n) × Marked marks.new (records_at t.now base n) }
{
    for i in 0..n {
        let at = base + record::SLOT * i;
        if t[at] == 0 {
            return i;
        }
        marks[mark_of(record::key_at(t, at))] = 1;
    }
    n
}

// The search for an order where the keys of the body's used slots are marked: only where its own place is marked are the slots looked at.
pub fn seek_marked(t: &[u8], base: usize, n: usize, used: usize, marks: &[u8], key: Key) -> Sought
    requires { (base + slot_size * n ≤ length t.now) × Filters marks.now used (records_at t.now base n) }
    ensures { result ≡ seek_in (records_at t.now base n) 0 key }
{
    if marks[mark_of(key)] == 0 {
        return Err(used);
    }
    seek(t, base, n, key)
}
