// The bank's notices, and a body's totals, in the training room.
#![tactic(auto)]

ghost use Rattle.std.specs.Prelude.{◌≡◌, true, false, ◌&&◌, cond, ◌*◌, ◌≤◌, ◌<◌, length, leb};
ghost use Rattle.bounds.specs.Bounds.{max_cents};
ghost use Rattle.valid.specs.Valid.{executed};
ghost use Rattle.body.specs.Body.{cents_of};
ghost use Rattle.training.specs.Training.{places, list_of};
ghost use Rattle.plain.specs.Plain.{numbered, amounts_fit, fits};
ghost use Rattle.plain.specs.Notices.{notice_on, list_on, notice_for, room_for, list_totals, NoticeLesson, TotalsLesson};
ghost use Rattle.room.specs.Room.{room_of};

use calendar::Date;
use notices::{NoticeAnswer, NoticeRefusal, TotalsAnswer};
use record::{Key, Record};
use room::Room;
use training::Book;

// What a notice answers, and the room afterwards.
#[derive(Clone, Copy)]
pub struct NoticeTaught {
    pub answer: NoticeAnswer,
    pub room: Room,
}

// What a notice answers of one body, and its orders afterwards.
#[derive(Clone, Copy)]
struct BookNoticed {
    answer: NoticeAnswer,
    book: Book,
}

// Whether an order has at most eight lines, and each amount is one that a field can write.
fn record_fits(r: Record) -> bool
    ensures { result ≡ (leb r.lines 8 && amounts_fit r.amounts) }
{
    r.lines <= 8 && r.amounts.iter().all(|&cents| cents <= bounds::MAX_CENTS)
}

// Whether all orders of a body do.
fn book_fits(b: Book) -> bool
    ensures { result ≡ fits (list_of b) }
{
    for i in 0..training::size(b) {
        if !record_fits(training::order_at(b, i)) {
            return false;
        }
    }
    true
}

// A notice for one body.
fn notice_on(b: Book, executing: bool, key: Key, line: u64) -> BookNoticed
    ensures { (result.answer ≡ notice_on executing key line (list_of b)) × (list_of result.book ≡ list_on executing key line (list_of b)) }
{
    if !book_fits(b) {
        return BookNoticed {
            answer: Err(NoticeRefusal::InvalidTable),
            book: b,
        };
    }
    let s = training::take_notice(b, executing, key, line);
    BookNoticed {
        answer: notices::answer_of(s.noticed),
        book: s.book,
    }
}

// A notice of a TARGET day, for the body with a code.
fn notice(r: Room, code: &[u8], executing: bool, key: Key, line: u64) -> NoticeTaught
    ensures { (result.answer ≡ notice_for (room_of r) executing key line (numbered (room_of r) code.now))
        × (room_of result.room ≡ room_for (room_of r) executing key line (numbered (room_of r) code.now)) }
{
    match room::find_seat(r, code) {
        Some(b) => {
            let p = room::seat_at(r, b);
            let s = notice_on(p.book, executing, key, line);
            NoticeTaught {
                answer: s.answer,
                room: room::with_book(r, b, s.book),
            }
        }
        None => NoticeTaught {
            answer: Err(NoticeRefusal::UnknownBody),
            room: r,
        },
    }
}

// A notice of any day: what is no TARGET day is refused before an unknown body.
fn dated(r: Room, code: &[u8], executing: bool, key: Key, line: u64, day: Date) -> NoticeTaught
    ensures { NoticeLesson (room_of r) executing code.now key line day result.answer (room_of result.room) }
{
    let refused = target_days::code_of(day);
    if refused == 0 {
        return notice(r, code, executing, key, line);
    }
    NoticeTaught {
        answer: Err(NoticeRefusal::WrongDay(refused)),
        room: r,
    }
}

// Takes the bank's notice that a line was executed on a date.
pub fn execute(r: Room, code: &[u8], key: Key, line: u64, day: Date) -> NoticeTaught
    ensures { NoticeLesson (room_of r) true code.now key line day result.answer (room_of result.room) }
{
    dated(r, code, true, key, line, day)
}

// Takes the bank's notice that a line's execution was reversed (storno) on a date.
pub fn reverse(r: Room, code: &[u8], key: Key, line: u64, day: Date) -> NoticeTaught
    ensures { NoticeLesson (room_of r) false code.now key line day result.answer (room_of result.room) }
{
    dated(r, code, false, key, line, day)
}

// The cents of an order's executed lines.
fn record_cents(r: Record) -> u64
    requires { amounts_fit r.amounts ≡ true }
    ensures { (result ≡ executed r) × (result ≤ 8 * max_cents) }
{
    let mut cents: u64 = 0;
    for k in 0..8 {
        cents += valid::line_cents(r.states[k] == record::EXECUTED, r.amounts[k]);
    }
    cents
}

// The cents of the executed lines of a body's orders of a kind.
fn cents_of(b: Book, kind: u8) -> u64
    requires { fits (list_of b) ≡ true }
    ensures { (result ≡ cents_of kind (list_of b)) × (result ≤ 8 * max_cents * places) }
{
    let mut cents: u64 = 0;
    for i in 0..training::size(b) {
        let r = training::order_at(b, i);
        if r.kind == kind {
            cents += record_cents(r);
        }
    }
    cents
}

// The totals of one body's orders.
fn book_totals(b: Book) -> TotalsAnswer
    ensures { result ≡ list_totals (list_of b) }
{
    if !book_fits(b) {
        return notices::no_totals(1);
    }
    let paid = cents_of(b, record::MANDATO);
    let collected = cents_of(b, record::REVERSALE);
    TotalsAnswer {
        code: 0,
        used: training::size(b) as u64,
        paid,
        collected,
        balance: (collected as i64) - (paid as i64),
    }
}

// A body's totals.
pub fn totals(r: Room, code: &[u8]) -> TotalsAnswer
    ensures { TotalsLesson (room_of r) code.now result }
{
    match room::find_seat(r, code) {
        Some(b) => book_totals(room::seat_at(r, b).book),
        None => notices::no_totals(7),
    }
}
