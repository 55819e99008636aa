// Checking the bank's cash journal: whether its movements are the executed lines of a body, each listed once with its cents.
#![tactic(auto)]

ghost use Rattle.std.specs.Prelude.{◌≡◌, true, ◌&&◌, ◌||◌, not, [], ◌+◌, ◌*◌, ◌/◌, ◌≤◌, ◌<◌, length, eqb, ltb};
ghost use Rattle.bounds.specs.Bounds.{max_slots};
ghost use Rattle.record.specs.Slot.{slot_size, record_at, eight_at, states_offset, executed_line, key_is};
ghost use Rattle.slots.specs.Slots.{slots_at, records_at, find_in, distinct};
ghost use Rattle.journal.specs.Journal.{movement_size, max_movements, movement_at, movements_at, executed_lines, journal_code, checked, JournalPromise};
ghost use Rattle.journal.specs.Inner.{movement_key, code_by, states_marked, all_marked, Walked};

use address::NoBody;
use record::Key;

// The bytes of a movement, and the most movements of a journal.
const MOVEMENT: usize = 16;

const MOST: usize = 4096;

// The places of each half of the index.
const PLACES: u64 = 4096;

// A movement of a journal.
#[derive(Clone, Copy)]
pub struct Movement {
    pub kind: u64,
    pub line: u64,
    pub esercizio: u64,
    pub number: u64,
    pub cents: u64,
}

#[tactic(auto, unfolding(crate::specs::Journal::movement_at))]
fn movement_at(s: &[u8], at: usize) -> Movement
    requires { at + movement_size ≤ length s.now }
    ensures { result ≡ movement_at s.now at }
{
    Movement {
        kind: s[at] as u64,
        line: s[at + 1] as u64,
        esercizio: words::read2(s, at + 2),
        number: words::read4(s, at + 4),
        cents: words::read8(s, at + 8),
    }
}

fn key_of(m: Movement) -> Key
    ensures { result ≡ movement_key m }
{
    Key {
        kind: m.kind,
        esercizio: m.esercizio,
        number: m.number,
    }
}

// A key's place in the first half of the index.
fn first_place(k: Key) -> usize
    ensures { result < 8192 }
{
    let number = k.number % PLACES;
    let kind = k.kind % PLACES;
    let esercizio = k.esercizio % PLACES;
    ((number * 2 + kind + esercizio * 613) % PLACES) as usize
}

// Its place in the second half, so that few keys share both.
fn second_place(k: Key) -> usize
    ensures { result < 8192 }
{
    let number = k.number % 16777216;
    let kind = k.kind % PLACES;
    let esercizio = k.esercizio % PLACES;
    (PLACES + (number * 2654435761 / 1048576 + kind * 1031 + esercizio * 257) % PLACES) as usize
}

// Notes in the index where a body's orders stand. The index only saves time: what it says is tried, and no answer rests on it.
fn note_orders(index: &mut [u16; 8192], t: &[u8], base: usize, used: usize)
    requires { (base + slot_size * used ≤ length t.now) × (used ≤ max_slots) }
{
    for i in 0..used {
        let key = record::key_at(t, base + record::SLOT * i);
        index[first_place(key)] = i as u16;
        index[second_place(key)] = i as u16;
    }
}

// Whether slot i is a used one with this key.
fn stands_at(t: &[u8], base: usize, used: usize, i: usize, key: Key) -> bool
    requires { base + slot_size * used ≤ length t.now }
    ensures { result ≡ (ltb i used && key_is (record_at t.now (base + slot_size * i)) key) }
{
    i < used && record::hit_at(t, base + record::SLOT * i, key)
}

// The place among a body's records of the one with this key: one of two that may be it, or else what the search finds.
fn locate(
    t: &[u8],
    base: usize,
    n: usize,
    used: usize,
    first: usize,
    second: usize,
    key: Key,
) -> Option<usize>
    requires { Walked t.now base n used }
    ensures { result ≡ find_in (records_at t.now base n) 0 key }
{
    if stands_at(t, base, used, first, key) {
        return Some(first);
    }
    if stands_at(t, base, used, second, key) {
        return Some(second);
    }
    slots::find(t, base, n, key)
}

// The place among a body's records of the order that a movement names.
fn order_of(
    t: &[u8],
    base: usize,
    n: usize,
    used: usize,
    index: &[u16; 8192],
    m: Movement,
) -> Option<usize>
    requires { Walked t.now base n used }
    ensures { result ≡ find_in (records_at t.now base n) 0 (movement_key m) }
{
    let key = key_of(m);
    let first = index[first_place(key)] as usize;
    let second = index[second_place(key)] as usize;
    locate(t, base, n, used, first, second, key)
}

// A movement's code by the record in the slot at a place, listed before or not.
// A code stays a number, as in `rules`.
#[tactic(auto, using(crate::proofs::Lines::by_low, crate::proofs::Lines::by_high))]
fn code_by(t: &[u8], at: usize, m: Movement) -> u64
    requires { at + slot_size ≤ length t.now }
    ensures { result ≡ code_by (record_at t.now at) m }
{
    let line = m.line;
    if line < 1 || 8 < line {
        return 30;
    }
    let k = (line - 1) as usize;
    if t[at + record::STATES + k] != record::EXECUTED {
        30
    } else if words::read8(t, at + record::AMOUNTS + 8 * k) != m.cents {
        31
    } else {
        0
    }
}

// Whether a line has its mark, where it is an executed one.
fn line_marked(state: u8, mark: u8) -> bool
    ensures { result ≡ (not (eqb state executed_line) || not (eqb mark 0)) }
{
    state != record::EXECUTED || mark != 0
}

// Whether each executed line of the slot at a place has its mark, the first at p.
fn lines_marked(t: &[u8], at: usize, marks: &[u8], p: usize) -> bool
    requires { (at + slot_size ≤ length t.now) × (p + 8 ≤ length marks.now) }
    ensures { result ≡ states_marked marks.now p (eight_at t.now (at + states_offset)) }
{
    for k in 0..8 {
        if !line_marked(t[at + record::STATES + k], marks[p + k]) {
            return false;
        }
    }
    true
}

// Whether each executed line of the used slots has its mark.
fn all_marked(t: &[u8], base: usize, used: usize, marks: &[u8]) -> bool
    requires { (base + slot_size * used ≤ length t.now) × (8 * used ≤ length marks.now) }
    ensures { result ≡ all_marked marks.now 0 (slots_at t.now base used) }
{
    for i in 0..used {
        if !lines_marked(t, base + record::SLOT * i, marks, 8 * i) {
            return false;
        }
    }
    true
}

// The code of a body's journal of n movements: one by one, each line listed gets its mark, eight marks to a slot; then the lines without one.
fn one_by_one(t: &[u8], base: usize, n: usize, used: usize, s: &[u8], count: usize) -> u64
    requires { Walked t.now base n used × (movement_size * count ≤ length s.now) }
    ensures { result ≡ journal_code (executed_lines (records_at t.now base n)) [] (movements_at s.now 0 count) }
{
    let mut marks: [u8; 4096] = [0; 4096];
    let mut index: [u16; 8192] = [0; 8192];
    note_orders(&mut index, t, base, used);
    for j in 0..count {
        let m = movement_at(s, MOVEMENT * j);
        let Some(i) = order_of(t, base, n, used, &index, m) else {
            return 30;
        };
        let code = code_by(t, base + record::SLOT * i, m);
        if code != 0 {
            return code;
        }
        let p = 8 * i + m.line as usize - 1;
        if marks[p] != 0 {
            return 32;
        }
        marks[p] = 1;
    }
    if all_marked(t, base, used, &marks) {
        0
    } else {
        33
    }
}

// The code of a journal for a body of n slots.
#[tactic(auto, using(crate::proofs::Laws::not_whole, crate::proofs::Laws::too_many))]
fn check_body(t: &[u8], base: usize, n: usize, s: &[u8]) -> u64
    requires { (base + slot_size * n ≤ length t.now) × (n ≤ max_slots) × (distinct (records_at t.now base n) ≡ true) }
    ensures { result ≡ checked (records_at t.now base n) s.now }
{
    let count = s.len() / MOVEMENT;
    if s.len() % MOVEMENT != 0 || MOST < count {
        return 29;
    }
    let used = slots::used_slots(t, base, n);
    one_by_one(t, base, n, used, s, count)
}

// Checks a journal's movements for the body with this code.
pub fn check(t: &[u8], code: &[u8], s: &[u8]) -> u64
    ensures { JournalPromise t.now code.now s.now result }
{
    match address::addressed_by(t, code) {
        Err(NoBody::Invalid) => 1,
        Err(NoBody::Unknown) => 7,
        Ok((_, base, n)) => check_body(t, base, n, s),
    }
}
