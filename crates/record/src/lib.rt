// One slot of the table: 96 bytes that hold one record.
#![tactic(auto)]

ghost use Rattle.std.specs.Prelude.{◌≡◌, ◌&&◌, ◌+◌, ◌*◌, ◌≤◌, ◌<◌, length};
ghost use Rattle.words.specs.Numbers.{put};
ghost use Rattle.record.specs.Slot.{slot_size, be8s, eight_at, date_at, record_at, rest_zero, slot_head, flat8, record_bytes, key_is, key_of};

use calendar::Date;

pub const SLOT: usize = 96;

// Where a slot has its eight line states, and its eight amounts.
pub const STATES: usize = 24;

pub const AMOUNTS: usize = 32;

// Kinds of an order, its states, and those of its lines; a line that isn't there has state 0.
pub const MANDATO: u8 = 1;

pub const REVERSALE: u8 = 2;

pub const ACQUIRED: u8 = 1;

pub const ANNULLED: u8 = 2;

pub const WAITING: u8 = 1;

pub const EXECUTED: u8 = 2;

pub const REPLACED: u8 = 3;

// What a slot holds of an order.
// States and amounts are two lists of eight, as the slot has their bytes.
#[derive(Clone, Copy)]
pub struct Record {
    pub kind: u8,
    pub state: u8,
    pub lines: u8,
    pub esercizio: u64,
    pub number: u64,
    pub date: Date,
    pub total: u64,
    pub states: [u8; 8],
    pub amounts: [u64; 8],
}

// What tells a body's orders apart.
#[derive(Clone, Copy)]
pub struct Key {
    pub kind: u64,
    pub esercizio: u64,
    pub number: u64,
}

fn amounts_at(t: &[u8], at: usize) -> [u64; 8]
    requires { at + 64 ≤ length t.now }
    ensures { result ≡ be8s t.now at }
{
    std::array::from_fn(|k| words::read8(t, at + 8 * k))
}

fn states_at(t: &[u8], at: usize) -> [u8; 8]
    requires { at + 8 ≤ length t.now }
    ensures { result ≡ eight_at t.now at }
{
    let mut states = [0; 8];
    states.copy_from_slice(&t[at..at + 8]);
    states
}

fn date_at(t: &[u8], at: usize) -> Date
    requires { at + 4 ≤ length t.now }
    ensures { result ≡ date_at t.now at }
{
    Date {
        year: words::read2(t, at),
        month: u64::from(t[at + 2]),
        day: u64::from(t[at + 3]),
    }
}

// The record in the slot at a place.
#[tactic(auto, unfolding(crate::specs::Slot::record_at))]
pub fn record_at(t: &[u8], at: usize) -> Record
    requires { at + slot_size ≤ length t.now }
    ensures { result ≡ record_at t.now at }
{
    let date = date_at(t, at + 12);
    let states = states_at(t, at + STATES);
    let amounts = amounts_at(t, at + AMOUNTS);
    Record {
        kind: t[at],
        state: t[at + 1],
        lines: t[at + 2],
        esercizio: words::read2(t, at + 4),
        number: words::read4(t, at + 8),
        date,
        total: words::read8(t, at + 16),
        states,
        amounts,
    }
}

// Whether the slot's bytes that hold nothing are zero.
#[tactic(auto, unfolding(crate::specs::Slot::rest_zero))]
pub fn rest_zero(t: &[u8], at: usize) -> bool
    requires { at + slot_size ≤ length t.now }
    ensures { result ≡ rest_zero t.now at }
{
    (t[at + 3] == 0) & (words::read2(t, at + 6) == 0)
}

// The key of the record in the slot at a place.
#[tactic(auto, unfolding(crate::specs::Slot::record_at))]
pub fn key_at(t: &[u8], at: usize) -> Key
    requires { at + slot_size ≤ length t.now }
    ensures { result ≡ key_of (record_at t.now at) }
{
    let esercizio = words::read2(t, at + 4);
    let number = words::read4(t, at + 8);
    Key {
        kind: u64::from(t[at]),
        esercizio,
        number,
    }
}

// Whether the record in the slot at a place has this key, read where the bytes stand.
#[tactic(auto, unfolding(crate::specs::Slot::record_at, crate::specs::Slot::key_is))]
pub fn hit_at(t: &[u8], at: usize, k: Key) -> bool
    requires { at + slot_size ≤ length t.now }
    ensures { result ≡ key_is (record_at t.now at) k }
{
    words::read4(t, at + 8) == k.number
        && (u64::from(t[at]) == k.kind) & (words::read2(t, at + 4) == k.esercizio)
}

fn put_amounts(t: &mut [u8], at: usize, a: &[u64])
    requires { at + 8 * length a.now ≤ length t.old }
    ensures { t.new ≡ put t.old at (flat8 a.now) }
{
    for (i, &v) in a.iter().enumerate() {
        words::write8(t, at + 8 * i, v);
    }
}

// Writes a record into the slot at a place; every other byte stays.
pub fn put_record(t: &mut [u8], at: usize, r: Record)
    requires { at + slot_size ≤ length t.old }
    ensures { t.new ≡ put t.old at (record_bytes r) }
{
    words::copy_in(t, at, &[r.kind, r.state, r.lines, 0]);
    words::write2(t, at + 4, r.esercizio);
    words::copy_in(t, at + 6, &[0, 0]);
    words::write4(t, at + 8, r.number);
    words::write2(t, at + 12, r.date.year);
    let day = [(r.date.month % 256) as u8, (r.date.day % 256) as u8];
    words::copy_in(t, at + 14, &day);
    words::write8(t, at + 16, r.total);
    words::copy_in(t, at + STATES, &r.states);
    put_amounts(t, at + AMOUNTS, &r.amounts);
}
