// The rules for one order or one notice, over values: the step table, what is written. Nothing here touches a table.
#![tactic(auto)]

ghost use Rattle.std.specs.Prelude.{◌≡◌, cond, ◌≤◌, replicate, ltb};
ghost use Rattle.order.specs.Ordinativo.{lines_there, ordinativo};
ghost use Rattle.record.specs.Slot.{acquired_state, annulled_state, waiting_line, key_of, record_with};
ghost use Rattle.rules.specs.Rules.{was_executed, any_executed, situation_in, step_code, eight_places, amounts_of, same_list, same_order, key_for, record_of, written, line_moves, moved_to, notice_in};
ghost use Rattle.rules.specs.Inner.{row_of, column_of, meant_code, record_code, absent_code, new_state};

use order::{Lines, Order};
use record::Record;

// What an order comes to: the change, and the slot that its record takes, or a code.
pub type Ruling = Result<(Change, usize), u8>;

// What a notice comes to: the slot of its order and the line's cents, or a code.
pub type Noticed = Result<(usize, u64), u8>;

// Where the step table's columns stand.
#[derive(Clone, Copy)]
pub enum Situation {
    Absent,
    Annulled,
    Waiting,
    Executed,
}

// What an order may change.
#[derive(Clone, Copy)]
pub enum Change {
    Insert,
    Vary,
    Annul,
    Replace,
}

// Document 01's step table, by operation and situation.
const STEPS: [[u8; 4]; 3] = [[0, 14, 14, 14], [16, 17, 0, 18], [16, 17, 0, 18]];

// Eight amounts. Whatever stands in a place past the lines is left out.
fn amounts_of(ls: Lines) -> [u64; 8]
    ensures { result ≡ eight_places (amounts_of (lines_there ls)) }
{
    std::array::from_fn(|k| if k < ls.count { ls.each[k].amount } else { 0 })
}

// Eight states: of each of n lines this one, and no line after them.
fn all_lines(n: usize, state: u8) -> [u8; 8]
    ensures { result ≡ eight_places (replicate n state) }
{
    std::array::from_fn(|k| if k < n { state } else { 0 })
}

fn was_executed(state: u8) -> bool
    ensures { result ≡ was_executed state }
{
    state == record::EXECUTED || state == record::REPLACED
}

fn any_executed(states: &[u8]) -> bool
    ensures { result ≡ any_executed states.now }
{
    states.iter().any(|&state| was_executed(state))
}

// The situation of an order that is there.
#[tactic(auto, unfolding(crate::specs::Rules::situation_in))]
pub fn situation_in(r: Record) -> Situation
    ensures { result ≡ situation_in r }
{
    if r.state == record::ANNULLED {
        Situation::Annulled
    } else if any_executed(&r.states) {
        Situation::Executed
    } else {
        Situation::Waiting
    }
}

fn column_of(s: Situation) -> usize
    ensures { result ≡ column_of s }
{
    match s {
        Situation::Absent => 0,
        Situation::Annulled => 1,
        Situation::Waiting => 2,
        Situation::Executed => 3,
    }
}

fn row_of(c: Change) -> usize
    ensures { result ≡ row_of c }
{
    match c {
        Change::Insert | Change::Replace => 0,
        Change::Vary => 1,
        Change::Annul => 2,
    }
}

// The step table's code.
// A code stays a number: document 01's table holds numbers (`step_code`), and so do the outcome bytes and C; an enum would say each twice.
pub fn step_of(c: Change, s: Situation) -> u8
    ensures { result ≡ step_code c s }
{
    STEPS[row_of(c)][column_of(s)]
}

// Whether an ANNULLO means this record: total, number of lines and every amount agree.
#[tactic(auto, using(crate::proofs::Laws::same_is), unfolding(crate::specs::Rules::same_order))]
pub fn same_order(o: Order, r: Record) -> bool
    ensures { result ≡ same_order (ordinativo o) r }
{
    o.total == r.total
        && order::count_of(o.lines) == r.lines as usize
        && amounts_of(o.lines) == r.amounts
}

// The lines' state of a new record: a replacement's are executed at once.
fn new_state(c: Change) -> u8
    ensures { result ≡ new_state c }
{
    match c {
        Change::Insert | Change::Vary | Change::Annul => record::WAITING,
        Change::Replace => record::EXECUTED,
    }
}

// The record of an order that fills an empty slot.
pub fn new_record(year: u64, o: Order, c: Change) -> Record
    ensures { result ≡ record_of (key_for year (ordinativo o)) acquired_state (new_state c) (ordinativo o) }
{
    let n = order::count_of(o.lines);
    Record {
        kind: o.kind,
        state: record::ACQUIRED,
        lines: n as u8,
        esercizio: year,
        number: o.number,
        date: o.date,
        total: o.total,
        states: all_lines(n, new_state(c)),
        amounts: amounts_of(o.lines),
    }
}

// 19 for an ANNULLO that means another order than r.
fn meant_code(c: Change, o: Order, r: Record) -> u8
    ensures { result ≡ meant_code c (ordinativo o) r }
{
    match c {
        Change::Annul if !same_order(o, r) => 19,
        _ => 0,
    }
}

// An order's code where its record is r.
pub fn record_code(c: Change, o: Order, r: Record) -> u8
    ensures { result ≡ record_code c (ordinativo o) r }
{
    let code = step_of(c, situation_in(r));
    if code != 0 { code } else { meant_code(c, o, r) }
}

// An order's code where none of a body's n records is its own and the lines that it names come to `named`.
pub fn absent_code(c: Change, named: u8, n: usize, slots: usize) -> u8
    ensures { result ≡ absent_code c named n slots }
{
    let code = step_of(c, Situation::Absent);
    if code != 0 {
        code
    } else if named != 0 {
        named
    } else if n < slots {
        0
    } else {
        15
    }
}

// Date, total and lines are replaced: nothing is left of the lines it had.
fn varied_by(o: Order, r: Record) -> Record
    ensures { result ≡ record_of (key_of r) r.state waiting_line (ordinativo o) }
{
    let ls = o.lines;
    let n = order::count_of(ls);
    Record {
        lines: n as u8,
        date: o.date,
        total: o.total,
        states: all_lines(n, record::WAITING),
        amounts: amounts_of(ls),
        ..r
    }
}

// The state only.
fn annulled_of(r: Record) -> Record
    ensures { result ≡ record_with (key_of r) annulled_state r.lines r.date r.total r.states r.amounts }
{
    Record {
        state: record::ANNULLED,
        ..r
    }
}

// The record that an accepted change leaves in its slot, which held r.
#[tactic(auto, unfolding(crate::specs::Rules::written))]
pub fn written_by(year: u64, o: Order, r: Record, c: Change) -> Record
    ensures { result ≡ written year (ordinativo o) r c }
{
    match c {
        Change::Insert | Change::Replace => new_record(year, o, c),
        Change::Vary => varied_by(o, r),
        Change::Annul => annulled_of(r),
    }
}

#[tactic(auto, unfolding(crate::specs::Rules::line_moves))]
fn line_moves(executing: bool, state: u8) -> u8
    ensures { result ≡ line_moves executing state }
{
    if executing {
        if was_executed(state) { 21 } else { 0 }
    } else if state == record::EXECUTED {
        0
    } else {
        22
    }
}

// The state that an accepted notice gives its line.
pub fn moved_to(executing: bool) -> u8
    ensures { result ≡ moved_to executing }
{
    if executing {
        record::EXECUTED
    } else {
        record::WAITING
    }
}

// What a notice comes to, of the order r at index i of its body.
#[tactic(auto, unfolding(crate::specs::Rules::notice_in))]
pub fn notice_in(executing: bool, line: u64, i: usize, r: Record) -> Noticed
    requires { r.lines ≤ 8 }
    ensures { result ≡ notice_in executing line i r }
{
    if r.state == record::ANNULLED {
        return Err(17);
    }
    if line < 1 || u64::from(r.lines) < line {
        return Err(20);
    }
    let k = (line - 1) as usize;
    let code = line_moves(executing, r.states[k]);
    if code == 0 {
        Ok((i, r.amounts[k]))
    } else {
        Err(code)
    }
}
