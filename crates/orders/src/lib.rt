// The orders of a flow that stands, as values. Children are read one after the other: the structure says which row each is.
#![tactic(auto)]

ghost use Rattle.std.specs.Prelude.{◌≡◌, ℕ, ◌+◌, ◌≤◌, ◌<◌, length, drop, true};
ghost use Rattle.markup.specs.Noted.{Noted};
ghost use Rattle.tokens.specs.Tokens.{white_at};
ghost use Rattle.schema.specs.declared.Holds.TheVariants.{Rows};
ghost use Rattle.order.specs.Ordinativo.{no_name, no_line};
ghost use Rattle.schema.specs.Table.{table};
ghost use Rattle.rows.specs.Kept.{kept_from, next_of};
ghost use Rattle.structure.specs.Structure.{ranges};
ghost use Rattle.orders.specs.Shape.{order_rows, line_rows, named_rows, is_replacing, line_rows_of, Shaped, Filled};
ghost use Rattle.orders.specs.Said.{number_said, number_of, day_said, date_read, operation_said, said_operation};
ghost use Rattle.orders.specs.Orders.{those, named_by, named_of, named_in, line_by, line_of, lines_in, kind_of, order_by, order_of, holds_order, is_order, orders_in};

use calendar::Date;
use children::Child;
use codes::Operation;
use fields::{Form, Value};
use order::{Line, Lines, NamedLine, Order};
use rows::{FieldRead, Kept};
use schema::{Holds, Parent};

// The number, the date or the operation that a field says. (The defaults are never used: the field stands.)
fn number_said(v: Value) -> u64
    ensures { result ≡ number_said v }
{
    match v {
        Value::Number(n) => n,
        _ => 0,
    }
}

pub fn number_of(r: FieldRead) -> u64
    ensures { result ≡ number_of r }
{
    match r {
        Ok((v, _)) => number_said(v),
        Err(_) => 0,
    }
}

fn day_said(v: Value) -> Date
    ensures { result ≡ day_said v }
{
    match v {
        Value::Day(d) => d,
        _ => Date {
            year: 0,
            month: 0,
            day: 0,
        },
    }
}

fn day_of(r: FieldRead) -> Date
    ensures { result ≡ date_read r }
{
    match r {
        Ok((v, _)) => day_said(v),
        Err(_) => Date {
            year: 0,
            month: 0,
            day: 0,
        },
    }
}

fn operation_said(v: Value) -> Operation
    ensures { result ≡ operation_said v }
{
    match v {
        Value::Operation(o) | Value::Accepted(o) | Value::Refused(o) => o,
        _ => Operation::Sostituzione,
    }
}

fn operation_of(r: FieldRead) -> Operation
    ensures { result ≡ said_operation r }
{
    match r {
        Ok((v, _)) => operation_said(v),
        Err(_) => Operation::Sostituzione,
    }
}

// The first named child from a place on, where the structure says that there is one.
pub fn first_named(s: &[u8], from: usize, parent: Parent, past: &[u32]) -> Kept
    requires { (from ≤ length s.now) × Noted s.now past.now × (next_of (kept_from parent s.now from) ≡ None → ⊥) }
    ensures { next_of (kept_from parent s.now from) ≡ Some result }
{
    rows::next_named(s, from, parent, past).unwrap_or(Kept {
        child: Child {
            lt: 0,
            gt: 0,
            to: 0,
            after: 0,
        },
        row: 0,
        holds: Holds::Rows(parent),
    })
}

// The line that is named, whose fields begin at a place.
fn named_from(s: &[u8], from: usize, parent: Parent, past: &[u32]) -> NamedLine
    requires { Filled named_rows 0 parent s.now 0 from × Noted s.now past.now }
    ensures { result ≡ named_by s.now (kept_from parent s.now from) }
{
    let a = first_named(s, from, parent, past).child;
    let number = number_of(rows::read_field(s, a, Form::Numero));
    let b = first_named(s, a.after, parent, past).child;
    let line = number_of(rows::read_field(s, b, Form::Progressivo));
    let c = first_named(s, b.after, parent, past).child;
    let esercizio = number_of(rows::read_field(s, c, Form::Esercizio));
    NamedLine {
        number,
        line,
        esercizio,
    }
}

// No line is named.
fn none_named() -> NamedLine
    ensures { result ≡ no_name }
{
    NamedLine {
        number: 0,
        line: 0,
        esercizio: 0,
    }
}

// The line that a sostituzione structure names. (None holds text only: the structure says so.)
fn named_of(s: &[u8], k: Kept, past: &[u32]) -> NamedLine
    requires { Shaped named_rows 1 s.now k × Noted s.now past.now }
    ensures { result ≡ named_of s.now k }
{
    match k.holds {
        Holds::Text(_) => none_named(),
        Holds::Rows(p) => named_from(s, scan::white_end(s, k.child.gt + 1), p, past),
    }
}

// Whether a line is one of an order that replaces others.
fn is_replacing(parent: Parent) -> bool
    ensures { result ≡ is_replacing parent }
{
    match parent {
        Parent::InformazioniBeneficiario(r) | Parent::InformazioniVersante(r) => r,
        _ => false,
    }
}

// The line that is named by one whose party begins at a place: the structure stands after it.
fn named_after(s: &[u8], from: usize, parent: Parent, past: &[u32]) -> NamedLine
    requires { (ranges (table parent) ≡ line_rows true) × Filled (drop 2 (line_rows true)) 1 parent s.now 2 from × Noted s.now past.now
        × (is_replacing parent ≡ true) }
    ensures { result ≡ named_in s.now (kept_from parent s.now from) }
{
    let a = first_named(s, from, parent, past).child;
    let k = first_named(s, a.after, parent, past);
    named_of(s, k, past)
}

// The line whose named children begin at a place.
fn line_from(s: &[u8], from: usize, parent: Parent, past: &[u32]) -> Line
    requires { (ranges (table parent) ≡ line_rows (is_replacing parent)) × Filled (line_rows (is_replacing parent)) 1 parent s.now 0 from
        × Noted s.now past.now }
    ensures { result ≡ line_by s.now (kept_from parent s.now from) }
{
    let a = first_named(s, from, parent, past).child;
    let progressivo = number_of(rows::read_field(s, a, Form::Progressivo));
    let b = first_named(s, a.after, parent, past).child;
    let amount = number_of(rows::read_field(s, b, Form::Importo));
    let named = if is_replacing(parent) {
        named_after(s, b.after, parent, past)
    } else {
        none_named()
    };
    Line {
        progressivo,
        amount,
        named,
    }
}

// What stands where there is no line.
fn no_line() -> Line
    ensures { result ≡ no_line }
{
    Line {
        progressivo: 0,
        amount: 0,
        named: none_named(),
    }
}

// A line. (None holds text only: the structure says so.)
fn line_of(s: &[u8], k: Kept, past: &[u32]) -> Line
    requires { Shaped (line_rows_of k.holds) 2 s.now k × Noted s.now past.now }
    ensures { result ≡ line_of s.now k }
{
    match k.holds {
        Holds::Text(_) => no_line(),
        Holds::Rows(p) => line_from(s, scan::white_end(s, k.child.gt + 1), p, past),
    }
}

// The lines from a place on, which is past the order's four fields.
fn lines_from(s: &[u8], from: usize, parent: Parent, past: &[u32]) -> Lines
    requires { (ranges (table parent) ≡ order_rows) × Filled (drop 4 order_rows) 2 parent s.now 4 from × Noted s.now past.now }
    ensures { (result ≡ lines_in s.now (kept_from parent s.now from)) × (result.count ≤ 8) }
{
    let mut each: [Line; 8] = [no_line(); 8];
    let mut i = from;
    for count in 0..8 {
        let Some(k) = rows::next_named(s, i, parent, past) else {
            return Lines { count, each };
        };
        each[count] = line_of(s, k, past);
        i = k.child.after;
    }
    Lines { count: 8, each }
}

fn kind_of(parent: Parent) -> u8
    ensures { result ≡ kind_of (Rows parent) }
{
    match parent {
        Parent::Mandato(_) => 1,
        Parent::Reversale(_) => 2,
        _ => 0,
    }
}

// The order whose named children begin at a place: its four fields, then its lines.
fn order_from(s: &[u8], from: usize, parent: Parent, past: &[u32]) -> Order
    requires { (ranges (table parent) ≡ order_rows) × Filled order_rows 2 parent s.now 0 from × Noted s.now past.now }
    ensures { (result ≡ order_by (kind_of (Rows parent)) s.now (kept_from parent s.now from)) × (result.lines.count ≤ 8) }
{
    let a = first_named(s, from, parent, past).child;
    let operation = operation_of(rows::read_field(s, a, Form::TipoOperazione));
    let b = first_named(s, a.after, parent, past).child;
    let number = number_of(rows::read_field(s, b, Form::Numero));
    let c = first_named(s, b.after, parent, past).child;
    let date = day_of(rows::read_field(s, c, Form::Data));
    let d = first_named(s, c.after, parent, past).child;
    let total = number_of(rows::read_field(s, d, Form::Importo));
    let lines = lines_from(s, d.after, parent, past);
    Order {
        kind: kind_of(parent),
        operation,
        number,
        date,
        total,
        lines,
    }
}

// The order that a named child of the root is. (None holds text only: the structure says so.)
pub fn order_of(s: &[u8], k: Kept, past: &[u32]) -> Order
    requires { Shaped order_rows 3 s.now k × Noted s.now past.now }
    ensures { (result ≡ order_of s.now k) × (result.lines.count ≤ 8) }
{
    match k.holds {
        Holds::Text(_) => order_from(s, 0, Parent::Mandato(false), past),
        Holds::Rows(p) => {
            let at = k.child.gt + 1;
            let q = rows::rows_for(s, at, p, past);
            order_from(s, scan::white_end(s, at), q, past)
        }
    }
}

// Whether what a named child holds is an order.
fn holds_order(h: Holds) -> bool
    ensures { result ≡ holds_order h }
{
    match h {
        Holds::Text(_) => false,
        Holds::Rows(p) => 1 <= kind_of(p),
    }
}

// The first order among a root's named children from a place on.
pub fn next_order(s: &[u8], from: usize, root: Parent, past: &[u32]) -> Option<Kept>
    requires { (from ≤ length s.now) × Noted s.now past.now }
    ensures { result ≡ next_of (those is_order (kept_from root s.now from)) }
{
    let mut i = from;
    while let Some(k) = rows::next_named(s, i, root, past) {
        if holds_order(k.holds) {
            return Some(k);
        }
        i = k.child.after;
    }
    None
}

// How many orders there are among a root's named children from a place on.
pub fn count_orders(s: &[u8], from: usize, root: Parent, past: &[u32]) -> usize
    requires { (from ≤ length s.now) × Noted s.now past.now }
    ensures { result ≡ length (orders_in s.now (kept_from root s.now from)) }
{
    let mut i = from;
    let mut n: usize = 0;
    while let Some(k) = next_order(s, i, root, past) {
        n += 1;
        i = k.child.after;
    }
    n
}
