// The training engine over one body: its orders in a plain list, in order of arrival. It judges by the rules that the table engine judges by, and knows no
// bytes. Four functions look into the array (`size`, `order_at`, `appended`, `replaced`); all others speak of the list.
#![tactic(auto)]

ghost use Rattle.std.specs.Prelude.{◌≡◌, ◌&&◌, [], ◌∷◌, ◌++◌, ◌+◌, ◌≤◌, ◌<◌, length, set};
ghost use Rattle.order.specs.Ordinativo.{ordinativo};
ghost use Rattle.record.specs.Slot.{key_is, with_state};
ghost use Rattle.slots.specs.Slots.{nth, find_in};
ghost use Rattle.replacing.specs.Replacing.{namings, named_code, with_replaced, replace_code, replaced_by};
ghost use Rattle.rules.specs.Rules.{judge_notice};
ghost use Rattle.rules.specs.Inner.{names_code};
ghost use Rattle.rules.specs.Effects.{besides, records_moved};
ghost use Rattle.training.specs.Training.{places, list_of, Eight, OrderTaken};
ghost use Rattle.training.specs.Inner.{on_record, on_none, Ruled, ChangeTaken, Marks};

use codes::Operation;
use order::Order;
use record::{Key, Record};
use replacing::Naming;
use rules::{Change, Noticed, Ruling};

// How many orders a body of the training room can have.
pub const PLACES: usize = 32;

// A body's orders: how many, and each of them.
#[derive(Clone, Copy)]
pub struct Book {
    pub count: usize,
    pub records: [Record; 32],
}

// The first code that isn't 0 of some lines that are named, and the body's orders with them replaced where there is none.
#[derive(Clone, Copy)]
struct Marked {
    code: u8,
    book: Book,
}

// What an order comes to, how many orders its search looked at, and the body's orders afterwards.
#[derive(Clone, Copy)]
pub struct OrderServed {
    pub ruling: Ruling,
    pub steps: usize,
    pub book: Book,
}

// What a notice comes to, and the body's orders afterwards.
#[derive(Clone, Copy)]
pub struct NoticeServed {
    pub noticed: Noticed,
    pub book: Book,
}

// How many orders there are: never more than there are places.
pub fn size(b: Book) -> usize
    ensures { (result ≡ length (list_of b)) × (result ≤ places) }
{
    b.count.min(PLACES)
}

// The order at an index.
pub fn order_at(b: Book, i: usize) -> Record
    requires { i < length (list_of b) }
    ensures { result ≡ nth (list_of b) i }
{
    b.records[i]
}

// One order more, after the last.
fn appended(b: Book, r: Record) -> Book
    requires { length (list_of b) < places }
    ensures { list_of result ≡ list_of b ++ r ∷ [] }
{
    let mut book = b;
    book.records[b.count] = r;
    book.count += 1;
    book
}

// Another record in the place of one.
#[tactic(auto, using(crate::proofs::Laws::taken_set))]
fn replaced(b: Book, i: usize, r: Record) -> Book
    requires { i < length (list_of b) }
    ensures { list_of result ≡ set (list_of b) i r }
{
    let mut book = b;
    book.records[i] = r;
    book
}

// Whether a record has this key.
#[tactic(auto, unfolding(record::specs::Slot::key_is))]
fn key_is(r: Record, k: Key) -> bool
    ensures { result ≡ key_is r k }
{
    r.kind as u64 == k.kind && r.esercizio == k.esercizio && r.number == k.number
}

// The index of the order with this key.
fn find(b: Book, key: Key) -> Option<usize>
    ensures { result ≡ find_in (list_of b) 0 key }
{
    for i in 0..size(b) {
        if key_is(order_at(b, i), key) {
            return Some(i);
        }
    }
    None
}

// A record with another state of one of its lines, counted from 0.
fn with_state(r: Record, k: usize, s: u8) -> Record
    ensures { result ≡ with_state r k s }
{
    let mut w = r;
    if k < 8 {
        w.states[k] = s;
    }
    w
}

// One named line: its code, and the line replaced where that is 0.
fn mark_line(b: Book, m: Naming) -> Marked
    ensures { Marks (list_of b) (named_code (list_of b) m) (with_replaced (list_of b) m) result.code (list_of result.book) }
{
    let key = m.key;
    let line = m.line;
    let Some(i) = find(b, key) else {
        return Marked { code: 24, book: b };
    };
    let r = order_at(b, i);
    let code = replacing::named_in(r, line, m.amount);
    if code != 0 {
        return Marked { code, book: b };
    }
    let k = (line - 1) as usize;
    Marked {
        code: 0,
        book: replaced(b, i, with_state(r, k, record::REPLACED)),
    }
}

// The lines that an order names, one after another, each judged on what the ones before it left.
fn mark_lines(b: Book, o: Order) -> Marked
    ensures { Marks (list_of b) (replace_code (list_of b) (namings (ordinativo o))) (replaced_by (list_of b) (namings (ordinativo o))) result.code (list_of result.book) }
{
    let mut book = b;
    for j in 0..order::count_of(o.lines) {
        let s = mark_line(book, replacing::naming_at(o, j));
        let code = s.code;
        if code != 0 {
            return Marked { code, book: b };
        }
        book = s.book;
    }
    Marked { code: 0, book }
}

// Only a replacement names any.
fn mark_names(b: Book, o: Order, c: Change) -> Marked
    ensures { Marks (list_of b) (names_code c (ordinativo o) (list_of b)) (besides c (ordinativo o) (list_of b)) result.code (list_of result.book) }
{
    match c {
        Change::Insert | Change::Vary | Change::Annul => Marked { code: 0, book: b },
        Change::Replace => mark_lines(b, o),
    }
}

// A change where the order's record stands at index i.
fn change_record(b: Book, i: usize, year: u64, o: Order, c: Change) -> OrderServed
    requires { i < length (list_of b) }
    ensures { Ruled year (ordinativo o) (list_of b) (on_record (list_of b) i (ordinativo o) c) result.ruling (list_of result.book) × (result.steps ≡ i + 1) }
{
    let r = order_at(b, i);
    let code = rules::record_code(c, o, r);
    if code != 0 {
        return OrderServed {
            ruling: Err(code),
            steps: i + 1,
            book: b,
        };
    }
    OrderServed {
        ruling: Ok((c, i)),
        steps: i + 1,
        book: replaced(b, i, rules::written_by(year, o, r, c)),
    }
}

// A change where no order has its key: it comes after the last.
fn change_absent(b: Book, slots: usize, year: u64, o: Order, c: Change) -> OrderServed
    requires { slots ≤ places }
    ensures { Ruled year (ordinativo o) (list_of b) (on_none slots (list_of b) (ordinativo o) c) result.ruling (list_of result.book) × (result.steps ≡ length (list_of b)) }
{
    let n = size(b);
    let m = mark_names(b, o, c);
    let code = rules::absent_code(c, m.code, n, slots);
    if code != 0 {
        return OrderServed {
            ruling: Err(code),
            steps: n,
            book: b,
        };
    }
    OrderServed {
        ruling: Ok((c, n)),
        steps: n,
        book: appended(m.book, rules::new_record(year, o, c)),
    }
}

// A change: its lines, then one search for its key, which tells the steps too.
fn take_change(b: Book, slots: usize, year: u64, o: Order, c: Change) -> OrderServed
    requires { slots ≤ places }
    ensures { ChangeTaken slots year (ordinativo o) (list_of b) c result.ruling result.steps (list_of result.book) }
{
    let code = lines::check_lines(o.lines, o.total);
    if code != 0 {
        return OrderServed {
            ruling: Err(code),
            steps: 0,
            book: b,
        };
    }
    let key = Key {
        kind: o.kind as u64,
        esercizio: year,
        number: o.number,
    };
    match find(b, key) {
        Some(i) => change_record(b, i, year, o, c),
        None => change_absent(b, slots, year, o, c),
    }
}

// Takes an order for a body of so many slots, in the flow's esercizio.
pub fn take_order(b: Book, slots: usize, year: u64, o: Order) -> OrderServed
    requires { slots ≤ places }
    ensures { OrderTaken slots year (ordinativo o) (list_of b) result.ruling result.steps (list_of result.book) }
{
    match o.operation {
        Operation::Inserimento => take_change(b, slots, year, o, Change::Insert),
        Operation::Variazione => take_change(b, slots, year, o, Change::Vary),
        Operation::Annullo => take_change(b, slots, year, o, Change::Annul),
        Operation::Sostituzione => take_change(b, slots, year, o, Change::Replace),
    }
}

// What a notice comes to.
fn judge_notice(b: Book, executing: bool, key: Key, line: u64) -> Noticed
    requires { Eight (list_of b) }
    ensures { result ≡ judge_notice executing key line (list_of b) }
{
    let i = find(b, key).ok_or(16)?;
    rules::notice_in(executing, line, i, order_at(b, i))
}

// Takes a notice: one line's state changes where it is accepted, nothing where it is refused.
pub fn take_notice(b: Book, executing: bool, key: Key, line: u64) -> NoticeServed
    requires { Eight (list_of b) }
    ensures { (result.noticed ≡ judge_notice executing key line (list_of b)) × (list_of result.book ≡ records_moved executing line (list_of b) result.noticed) }
{
    match judge_notice(b, executing, key, line) {
        Ok((i, cents)) => {
            let k = (line - 1) as usize;
            let w = with_state(order_at(b, i), k, rules::moved_to(executing));
            NoticeServed {
                noticed: Ok((i, cents)),
                book: replaced(b, i, w),
            }
        }
        Err(c) => NoticeServed {
            noticed: Err(c),
            book: b,
        },
    }
}
