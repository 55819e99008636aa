// The training room: the bank's digits and at most sixteen bodies, each with its code, its number of slots and its orders as a plain list. It is handed over by value, and
// knows no bytes of a table.
#![tactic(auto)]

ghost use Rattle.std.specs.Prelude.{◌≡◌, ◌≤◌, ◌<◌, length};
ghost use Rattle.scan.specs.Bytes.{text_is};
ghost use Rattle.training.specs.Training.{places, list_of};
ghost use Rattle.plain.specs.Plain.{body_in, numbered, with_orders};
ghost use Rattle.room.specs.Room.{listed, room_of};

use training::Book;

// How many bodies there can be.
pub const SEATS: usize = 16;

// A body: the first bytes of `code` are its code.
#[derive(Clone, Copy)]
pub struct Seat {
    pub size: usize,
    pub code: [u8; 16],
    pub slots: usize,
    pub book: Book,
}

#[derive(Clone, Copy)]
pub struct Room {
    pub abi: [u8; 5],
    pub count: usize,
    pub seats: [Seat; 16],
}

// Whether these are the bank's digits.
pub fn bank_is(r: Room, abi: &[u8]) -> bool
    ensures { result ≡ text_is (room_of r).abi abi.now }
{
    scan::same(abi, &r.abi)
}

// How many bodies there are: never more than there are seats.
pub fn size(r: Room) -> usize
    ensures { (result ≡ length (room_of r).bodies) × (result ≤ 16) }
{
    r.count.min(SEATS)
}

// The body with a number.
pub fn seat_at(r: Room, b: usize) -> Seat
    requires { b < length (room_of r).bodies }
    ensures { listed result ≡ body_in (room_of r) b }
{
    r.seats[b]
}

// How many orders a body can have.
pub fn slots_of(p: Seat) -> usize
    ensures { (result ≡ (listed p).slots) × (result ≤ places) }
{
    p.slots.min(training::PLACES)
}

// Whether a body has this code, compared byte by byte.
fn code_is(p: Seat, code: &[u8]) -> bool
    ensures { result ≡ text_is (listed p).code code.now }
{
    scan::same(code, &p.code[..p.size.min(16)])
}

// The number of the body with a code.
pub fn find_seat(r: Room, code: &[u8]) -> Option<usize>
    ensures { result ≡ numbered (room_of r) code.now }
{
    for b in 0..size(r) {
        if code_is(seat_at(r, b), code) {
            return Some(b);
        }
    }
    None
}

// The same room with other orders of a body.
pub fn with_book(r: Room, b: usize, book: Book) -> Room
    requires { b < length (room_of r).bodies }
    ensures { room_of result ≡ with_orders (room_of r) b (list_of book) }
{
    let mut room = r;
    room.seats[b].book = book;
    room
}
