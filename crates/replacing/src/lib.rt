// The lines that a replacement order names: judged by reading only, then marked as replaced, one byte each.
#![tactic(auto)]

ghost use Rattle.std.specs.Prelude.{◌≡◌, true, ℕ, ◌+◌, ◌*◌, ◌≤◌, ◌<◌, length};
ghost use Rattle.order.specs.Ordinativo.{lines_there, ordinativo};
ghost use Rattle.record.specs.Slot.{slot_size};
ghost use Rattle.slots.specs.Slots.{records_at};
ghost use Rattle.replacing.specs.Replacing.{namings, line_named_in, named_code, replace_code, line_put, lines_put};
ghost use Rattle.replacing.specs.Inner.{naming_at, same_named, named_earlier, code_again, read_code};

use order::Order;
use record::{Key, Record};

// The line that a line of an order names, and that line's own amount.
#[derive(Clone, Copy)]
pub struct Naming {
    pub key: Key,
    pub line: u64,
    pub amount: u64,
}

// By line j of an order, counted from 0.
#[tactic(auto, using(crate::proofs::Walk::naming_there))]
pub fn naming_at(o: Order, j: usize) -> Naming
    requires { (j < length (lines_there o.lines)) × (j < 8) }
    ensures { result ≡ naming_at o.kind (lines_there o.lines) j }
{
    let l = o.lines.each[j];
    let d = l.named;
    Naming {
        key: Key {
            kind: o.kind as u64,
            esercizio: d.esercizio,
            number: d.number,
        },
        line: d.line,
        amount: l.amount,
    }
}

// What a line comes to of the record that is named.
// A code stays a number, as in `rules`.
#[tactic(auto, using(crate::proofs::Walk::past_eight), unfolding(crate::specs::Replacing::line_named_in))]
pub fn named_in(r: Record, line: u64, amount: u64) -> u8
    ensures { result ≡ line_named_in r line amount }
{
    if line < 1 || u64::from(r.lines) < line {
        return 24;
    }
    if 8 < line {
        return 25;
    }
    let k = (line - 1) as usize;
    if r.states[k] != record::EXECUTED {
        25
    } else if r.amounts[k] != amount {
        26
    } else {
        0
    }
}

// What a named line comes to among a body's records.
fn named_code(t: &[u8], base: usize, n: usize, m: Naming) -> u8
    requires { base + slot_size * n ≤ length t.now }
    ensures { result ≡ named_code (records_at t.now base n) m }
{
    let key = m.key;
    match slots::find(t, base, n, key) {
        Some(i) => named_in(
            record::record_at(t, base + record::SLOT * i),
            m.line,
            m.amount,
        ),
        None => 24,
    }
}

#[tactic(auto, unfolding(crate::specs::Inner::same_named))]
fn same_line(a: Naming, b: Naming) -> bool
    ensures { result ≡ same_named a b }
{
    a.line == b.line && a.key.number == b.key.number && a.key.esercizio == b.key.esercizio
}

// Whether one of the order's first j lines names this line.
fn named_before(o: Order, j: usize, m: Naming) -> bool
    requires { (j ≤ length (lines_there o.lines)) × (j ≤ 8) }
    ensures { result ≡ named_earlier o.kind (lines_there o.lines) j m }
{
    for i in (0..j).rev() {
        if same_line(naming_at(o, i), m) {
            return true;
        }
    }
    false
}

#[tactic(auto, unfolding(crate::specs::Inner::code_again))]
fn code_again(before: bool, c: u8) -> u8
    ensures { result ≡ code_again before c }
{
    if before && c != 24 { 25 } else { c }
}

// What line j of an order comes to, by reading only.
#[tactic(auto, using(crate::proofs::Walk::line_comes))]
fn line_code(t: &[u8], base: usize, n: usize, o: Order, j: usize) -> u8
    requires { (base + slot_size * n ≤ length t.now) × (j < length (lines_there o.lines)) × (j < 8) }
    ensures { result ≡ read_code o.kind (lines_there o.lines) (records_at t.now base n) j }
{
    let m = naming_at(o, j);
    let c = named_code(t, base, n, m);
    code_again(named_before(o, j, m), c)
}

// What the lines that an order names come to: the first code that isn't 0, line by line, or 0.
pub fn replace_code(t: &[u8], base: usize, n: usize, o: Order) -> u8
    requires { base + slot_size * n ≤ length t.now }
    ensures { result ≡ replace_code (records_at t.now base n) (namings (ordinativo o)) }
{
    for j in 0..order::count_of(o.lines) {
        let c = line_code(t, base, n, o, j);
        if c != 0 {
            return c;
        }
    }
    0
}

// One line becomes replaced.
fn mark_line(t: &mut [u8], base: usize, n: usize, m: Naming)
    requires { (base + slot_size * n ≤ length t.old) × (named_code (records_at t.old base n) m ≡ 0) }
    ensures { t.new ≡ line_put t.old base n m }
{
    let key = m.key;
    let line = m.line;
    match slots::find(t, base, n, key) {
        Some(i) => {
            let at = base + record::SLOT * i + record::STATES + ((line - 1) as usize);
            let state = [record::REPLACED];
            words::copy_in(t, at, &state);
        }
        None => {}
    }
}

// The lines that an order names become replaced, all of them judged before.
pub fn mark_lines(t: &mut [u8], base: usize, n: usize, o: Order)
    requires { (base + slot_size * n ≤ length t.old) × (replace_code (records_at t.old base n) (namings (ordinativo o)) ≡ 0) }
    ensures { t.new ≡ lines_put t.old base n (namings (ordinativo o)) }
{
    for j in 0..order::count_of(o.lines) {
        mark_line(t, base, n, naming_at(o, j));
    }
}
