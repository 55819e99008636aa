// One order or one notice served on a body of a table's bytes: judged first, then stored. Each looks at the one record that its search found.
#![tactic(auto)]

ghost use Rattle.std.specs.Prelude.{◌≡◌, true, ◌+◌, ◌*◌, ◌≤◌, ◌<◌, length, set};
ghost use Rattle.bounds.specs.Bounds.{max_slots};
ghost use Rattle.words.specs.Numbers.{put};
ghost use Rattle.order.specs.Ordinativo.{ordinativo};
ghost use Rattle.record.specs.Slot.{slot_size, mandato_kind, reversale_kind};
ghost use Rattle.slots.specs.Slots.{records_at};
ghost use Rattle.slots.specs.Inner.{filter_size, mark_of, Filters};
ghost use Rattle.body.specs.Body.{body_ok};
ghost use Rattle.entries.specs.Entry.{entry_fixed, closed_place, kept};
ghost use Rattle.rules.specs.Rules.{key_for, judge_change};
ghost use Rattle.rules.specs.Searches.{steps_of};
ghost use Rattle.rules.specs.Inner.{names_code};
ghost use Rattle.service.specs.Service.{besides_put, order_stored, outcome_size, OrderServed, outcome_bytes, notice_comes, NoticeServed};
ghost use Rattle.service.specs.Inner.{on_record, on_none, record_stored, Ruled, used_after, sum_moved, Movable, its, kept_moved, Served};

use codes::Operation;
use order::Order;
use record::Key;
use rules::{Change, Noticed, Ruling};

// What an order comes to, and how many slots its search looked at.
#[derive(Clone, Copy)]
pub struct Counted {
    pub ruling: Ruling,
    pub steps: usize,
}

// How many bytes an order's outcome takes.
pub const OUTCOME: usize = 16;

// Serves a change where the search found the order's record, at index i of its body: the only record that is looked at.
fn serve_record(t: &mut [u8], base: usize, i: usize, year: u64, o: Order, c: Change) -> Ruling
    requires { base + slot_size * i + slot_size ≤ length t.old }
    ensures { Ruled (record_stored t.old base year (ordinativo o)) (on_record t.old base i (ordinativo o) c) result t.new }
{
    let at = base + record::SLOT * i;
    let r = record::record_at(t, at);
    let code = rules::record_code(c, o, r);
    if code != 0 {
        return Err(code);
    }
    record::put_record(t, at, rules::written_by(year, o, r, c));
    Ok((c, i))
}

// What the lines that an order names come to: only a replacement names any.
fn names_code(t: &[u8], base: usize, n: usize, o: Order, c: Change) -> u8
    requires { base + slot_size * n ≤ length t.now }
    ensures { result ≡ names_code c (ordinativo o) (records_at t.now base n) }
{
    match c {
        Change::Insert | Change::Vary | Change::Annul => 0,
        Change::Replace => replacing::replace_code(t, base, n, o),
    }
}

// The lines that an order names become replaced, all of them judged before.
#[tactic(auto, unfolding(crate::specs::Service::besides_put))]
fn mark_names(t: &mut [u8], base: usize, n: usize, o: Order, c: Change)
    requires { (base + slot_size * n ≤ length t.old) × (names_code c (ordinativo o) (records_at t.old base n) ≡ 0) }
    ensures { t.new ≡ besides_put t.old base n (ordinativo o) c }
{
    match c {
        Change::Insert | Change::Vary | Change::Annul => {}
        Change::Replace => replacing::mark_lines(t, base, n, o),
    }
}

// Serves a change where none of the body's `used` records is the order's: no record is looked at but those that a replacement names.
#[tactic(auto, using(crate::proofs::Laws::names_stand, crate::proofs::Laws::slot_fits))]
fn serve_absent(
    t: &mut [u8],
    base: usize,
    n: usize,
    used: usize,
    year: u64,
    o: Order,
    c: Change,
) -> Ruling
    requires { base + slot_size * n ≤ length t.old }
    ensures { Ruled (order_stored t.old base n year (ordinativo o))
        (on_none c (names_code c (ordinativo o) (records_at t.old base n)) used n) result t.new }
{
    let named = names_code(t, base, n, o, c);
    let code = rules::absent_code(c, named, used, n);
    if code != 0 {
        return Err(code);
    }
    mark_names(t, base, n, o, c);
    record::put_record(t, base + record::SLOT * used, rules::new_record(year, o, c));
    Ok((c, used))
}

// The key of an order's record.
fn key_for(year: u64, o: Order) -> Key
    ensures { result ≡ key_for year (ordinativo o) }
{
    Key {
        kind: o.kind as u64,
        esercizio: year,
        number: o.number,
    }
}

// Serves an order that asks for a change: its lines, then one search for its key, which asks the filter first and tells the steps too.
fn serve_change(
    t: &mut [u8],
    base: usize,
    n: usize,
    used: usize,
    marks: &[u8],
    year: u64,
    o: Order,
    c: Change,
) -> Counted
    requires { (base + slot_size * n ≤ length t.old) × Filters marks.now used (records_at t.old base n) }
    ensures { Ruled (order_stored t.old base n year (ordinativo o))
        (judge_change n year (ordinativo o) (records_at t.old base n) c) result.ruling t.new
        × (result.steps ≡ steps_of year (ordinativo o) (records_at t.old base n)) }
{
    let code = lines::check_lines(o.lines, o.total);
    if code != 0 {
        return Counted {
            ruling: Err(code),
            steps: 0,
        };
    }
    let key = key_for(year, o);
    match slots::seek_marked(t, base, n, used, marks, key) {
        Ok(i) => Counted {
            ruling: serve_record(t, base, i, year, o, c),
            steps: i + 1,
        },
        Err(all) => Counted {
            ruling: serve_absent(t, base, n, all, year, o, c),
            steps: all,
        },
    }
}

// Serves an order: its record is stored where it is accepted. A call for each operation keeps the compiler from taking the search into the loop over
// the orders, where its counters would lie in memory.
pub fn serve_order(
    t: &mut [u8],
    base: usize,
    n: usize,
    used: usize,
    marks: &[u8],
    year: u64,
    o: Order,
) -> Counted
    requires { (base + slot_size * n ≤ length t.old) × Filters marks.now used (records_at t.old base n) }
    ensures { OrderServed t.old base n year (ordinativo o) result t.new }
{
    match o.operation {
        Operation::Inserimento => serve_change(t, base, n, used, marks, year, o, Change::Insert),
        Operation::Variazione => serve_change(t, base, n, used, marks, year, o, Change::Vary),
        Operation::Annullo => serve_change(t, base, n, used, marks, year, o, Change::Annul),
        Operation::Sostituzione => serve_change(t, base, n, used, marks, year, o, Change::Replace),
    }
}

// The filter after an order: its key's place is marked, and the answer is how many records there are, one more where it was stored after the last.
pub fn note_order(marks: &mut [u8], used: usize, year: u64, o: Order, j: Ruling) -> usize
    requires { (length marks.old ≡ filter_size) × (used ≤ max_slots) }
    ensures { (result ≡ used_after j used) × (marks.new ≡ set marks.old (mark_of (key_for year (ordinativo o))) 1) }
{
    marks[slots::mark_of(key_for(year, o))] = 1;
    match j {
        Ok((_, i)) => if i == used { used + 1 } else { used },
        Err(_) => used,
    }
}

// Writes an order's 16 outcome bytes at a place.
pub fn put_outcome(out: &mut [u8], at: usize, o: Order, code: u8)
    requires { at + outcome_size ≤ length out.old }
    ensures { out.new ≡ put out.old at (outcome_bytes (ordinativo o) code) }
{
    let n = order::count_of(o.lines);
    let head = [o.kind, codes::operation_number(o.operation), code, n as u8];
    words::copy_in(out, at, &head);
    words::write4(out, at + 4, o.number);
    words::write8(out, at + 8, o.total);
}

// What a notice comes to.
pub fn judge_notice(
    t: &[u8],
    base: usize,
    n: usize,
    executing: bool,
    key: Key,
    line: u64,
) -> Noticed
    requires { (base + slot_size * n ≤ length t.now) × (body_ok t.now base n ≡ true) }
    ensures { result ≡ notice_comes t.now base n executing key line }
{
    let i = slots::find(t, base, n, key).ok_or(16)?;
    let r = record::record_at(t, base + record::SLOT * i);
    rules::notice_in(executing, line, i, r)
}

// A kept sum after a line of so many cents was executed, or reversed.
fn sum_moved(executing: bool, sum: u64, cents: u64) -> u64
    requires { Movable executing sum cents }
    ensures { result ≡ sum_moved executing sum cents }
{
    if executing { sum + cents } else { sum - cents }
}

// Moves what the entry at a place keeps by one line of an order of a kind.
fn move_kept(t: &mut [u8], e: usize, executing: bool, kind: u64, cents: u64)
    requires { (e + closed_place ≤ length t.old) × Movable executing (kept mandato_kind t.old e) (its kind mandato_kind cents)
        × Movable executing (kept reversale_kind t.old e) (its kind reversale_kind cents) }
    ensures { t.new ≡ put t.old (e + entry_fixed) (kept_moved t.old e executing kind cents) }
{
    let paid = words::read8(t, e + entries::FIXED);
    let collected = words::read8(t, e + entries::COLLECTED);
    let more_paid = sum_moved(
        executing,
        paid,
        valid::line_cents(kind == record::MANDATO as u64, cents),
    );
    let more_collected = sum_moved(
        executing,
        collected,
        valid::line_cents(kind == record::REVERSALE as u64, cents),
    );
    entries::settle(t, e, more_paid, more_collected);
}

// Serves a notice: where it is accepted the line's state changes and its body's entry is settled; where it is refused no byte changes.
pub fn serve_notice(
    t: &mut [u8],
    e: usize,
    base: usize,
    n: usize,
    executing: bool,
    key: Key,
    line: u64,
) -> Noticed
    requires { Served t.old e base n }
    ensures { NoticeServed t.old e base n executing key line result t.new }
{
    let (i, cents) = judge_notice(t, base, n, executing, key, line)?;
    let at = base + record::SLOT * i + record::STATES + ((line - 1) as usize);
    let state = [rules::moved_to(executing)];
    words::copy_in(t, at, &state);
    move_kept(t, e, executing, key.kind, cents);
    Ok((i, cents))
}
