// The training room that a table says: read once, from a valid table whose bodies have at most 32 slots and have closed no year. This is the one place of the training room that
// reads a table's bytes.
#![tactic(auto)]

ghost use Rattle.std.specs.Prelude.{◌≡◌, true, ◌+◌, ◌*◌, ◌≤◌, length, take};
ghost use Rattle.scan.specs.Bytes.{part};
ghost use Rattle.bounds.specs.Bounds.{max_code};
ghost use Rattle.record.specs.Slot.{slot_size};
ghost use Rattle.slots.specs.Slots.{records_at};
ghost use Rattle.entries.specs.Entry.{entry_fixed, code_length, slots_of, place_of};
ghost use Rattle.table.specs.Table.{head_size, abi_of, table_ok};
ghost use Rattle.training.specs.Training.{places, list_of};
ghost use Rattle.plain.specs.Says.{listed_at, small, unclosed, plain_of};
ghost use Rattle.room.specs.Room.{listed, room_of};
ghost use Rattle.enrolment.specs.Enrolment.{empty_room, EnrolPromise};

use calendar::Date;
use record::Record;
use room::{Room, Seat};
use training::Book;

// Why a table is not taken.
#[derive(Clone, Copy)]
pub enum EnrolRefusal {
    InvalidTable,
    TooLarge,
    YearClosed,
}

// What is told of a table.
pub type Enrolled = Result<(), EnrolRefusal>;

// What is told, and the room; one without bodies where the table is refused.
#[derive(Clone, Copy)]
pub struct Enrolment {
    pub told: Enrolled,
    pub room: Room,
}

fn no_record() -> Record {
    Record {
        kind: 0,
        state: 0,
        lines: 0,
        esercizio: 0,
        number: 0,
        date: Date {
            year: 0,
            month: 0,
            day: 0,
        },
        total: 0,
        states: [0; 8],
        amounts: [0; 8],
    }
}

// A body's orders, of n slots from base on.
fn book_of(t: &[u8], base: usize, n: usize) -> Book
    requires { (base + slot_size * n ≤ length t.now) × (n ≤ places) }
    ensures { list_of result ≡ records_at t.now base n }
{
    let used = slots::used_slots(t, base, n);
    let mut records = [no_record(); 32];
    for i in 0..used {
        records[i] = record::record_at(t, base + record::SLOT * i);
    }
    Book {
        count: used,
        records,
    }
}

// The size bytes of a body's code, whose entry is at e.
fn code_of(t: &[u8], e: usize, size: usize) -> [u8; 16]
    requires { (e + 1 + size ≤ length t.now) × (size ≤ max_code) }
    ensures { take size result ≡ part t.now (e + 1) (e + 1 + size) }
{
    let mut code = [0u8; 16];
    code[..size].copy_from_slice(&t[e + 1..e + 1 + size]);
    code
}

// The body whose entry is at e.
fn seat_of(t: &[u8], e: usize) -> Seat
    requires { (e + entry_fixed ≤ length t.now) × (code_length t.now e ≤ max_code) × (slots_of t.now e ≤ places)
        × (place_of t.now e + slot_size * slots_of t.now e ≤ length t.now) }
    ensures { listed result ≡ listed_at t.now e }
{
    let size = t[e] as usize;
    let slots = entries::slots_of(t, e);
    Seat {
        size,
        code: code_of(t, e, size),
        slots,
        book: book_of(t, entries::place_of(t, e), slots),
    }
}

// Whether each of the table's bodies has at most 32 slots.
fn all_small(t: &[u8]) -> bool
    requires { table_ok t.now ≡ true }
    ensures { result ≡ small t.now }
{
    for b in 0..table::body_count(t) {
        if training::PLACES < entries::slots_of(t, table::HEAD + entries::ENTRY * b) {
            return false;
        }
    }
    true
}

// Whether none of them has closed a year.
fn none_closed(t: &[u8]) -> bool
    requires { table_ok t.now ≡ true }
    ensures { result ≡ unclosed t.now }
{
    for b in 0..table::body_count(t) {
        if entries::closed_of(t, table::HEAD + entries::ENTRY * b) != 0 {
            return false;
        }
    }
    true
}

// A room without bodies.
fn empty_room() -> Room
    ensures { (room_of result ≡ empty_room) × (length result.seats ≡ 16) }
{
    let book = Book {
        count: 0,
        records: [no_record(); 32],
    };
    let nobody = Seat {
        size: 0,
        code: [0; 16],
        slots: 0,
        book,
    };
    Room {
        abi: [0; 5],
        count: 0,
        seats: [nobody; 16],
    }
}

// The bank's digits.
fn abi_of(t: &[u8]) -> [u8; 5]
    requires { head_size ≤ length t.now }
    ensures { result ≡ abi_of t.now }
{
    [t[8], t[9], t[10], t[11], t[12]]
}

// The room that a valid table says.
fn seated(t: &[u8]) -> Room
    requires { (table_ok t.now ≡ true) × (small t.now ≡ true) }
    ensures { room_of result ≡ plain_of t.now }
{
    let n = table::body_count(t);
    let mut seats = empty_room().seats;
    for b in 0..n {
        seats[b] = seat_of(t, table::HEAD + entries::ENTRY * b);
    }
    Room {
        abi: abi_of(t),
        count: n,
        seats,
    }
}

fn refused(told: Enrolled) -> Enrolment
    ensures { (result.told ≡ told) × (room_of result.room ≡ empty_room) }
{
    Enrolment {
        told,
        room: empty_room(),
    }
}

// The room of a table, on any bytes at all.
pub fn room_of(t: &[u8]) -> Enrolment
    ensures { EnrolPromise t.now result.told (room_of result.room) }
{
    if !table::table_ok(t) {
        return refused(Err(EnrolRefusal::InvalidTable));
    }
    if !all_small(t) {
        return refused(Err(EnrolRefusal::TooLarge));
    }
    if !none_closed(t) {
        return refused(Err(EnrolRefusal::YearClosed));
    }
    Enrolment {
        told: Ok(()),
        room: seated(t),
    }
}
