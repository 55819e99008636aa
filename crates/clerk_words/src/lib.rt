// What the training room says to a clerk: each answer in words, with the rule's number in front.
#![tactic(auto)]

use notices::TotalsAnswer;
use printing::say;
use record::Record;
use std::fmt::{Display, Formatter};
use std::io::Write;
use std::{fmt, io};
use training::Book;

// Cents, shown as euro, a point and cents.
#[derive(Clone, Copy)]
struct Money(u64);

impl Display for Money {
    fn fmt<W: fmt::Write>(&self, f: &mut Formatter<W>) -> fmt::Result {
        write!(f, "{}.{:02}", self.0 / 100, self.0 % 100)
    }
}

fn kind_name(kind: u8) -> &'static str {
    match kind {
        1 => "mandato",
        _ => "reversale",
    }
}

fn operation_name(operation: u8) -> &'static str {
    match operation {
        1 => "INSERIMENTO",
        2 => "VARIAZIONE",
        3 => "ANNULLO",
        _ => "SOSTITUZIONE",
    }
}

fn say_ruling<W: Write>(to: &mut W, code: u8) -> io::Result<()> {
    if code == 0 {
        say(to, b"  0, accepted\n")
    } else {
        reasons::of_order(to, code)
    }
}

// An order of a flow, from its 16 outcome bytes, and what it was answered.
fn say_outcome<W: Write>(to: &mut W, out: &[u8; 16]) -> io::Result<()> {
    let lines = out[3];
    write!(
        to,
        "  {} {} {}, {} in {lines} {}:",
        kind_name(out[0]),
        words::read4(out, 4),
        operation_name(out[1]),
        Money(words::read8(out, 8)),
        if lines == 1 { "line" } else { "lines" },
    )?;
    say_ruling(to, out[2])
}

// The orders of a flow that was taken.
pub fn say_outcomes<W: Write>(to: &mut W, out: &[u8], orders: u64) -> io::Result<()> {
    for order in out.as_chunks::<16>().0.iter().take(orders as usize) {
        say_outcome(to, order)?;
    }
    Ok(())
}

// A flow that was taken.
pub fn say_taken<W: Write>(to: &mut W, orders: u64, accepted: u64, steps: u64) -> io::Result<()> {
    write!(
        to,
        "  0, taken: {accepted} of {orders} orders accepted, steps {steps}\n",
    )
}

// Why a notice is refused.
fn say_refusal<W: Write>(to: &mut W, code: u64) -> io::Result<()> {
    match code {
        7 => say(
            to,
            b"  7, no body of this table has this code: codes are compared byte by byte, zeros in front too\n",
        ),
        16 => say(
            to,
            b"  16, the body has no order of this kind, esercizio and number\n",
        ),
        17 => say(to, b"  17, the order is annulled, and stays so\n"),
        20 => say(to, b"  20, the order has no such line\n"),
        21 => say(to, b"  21, the line is executed already, or was replaced\n"),
        22 => say(to, b"  22, the line is not executed, or was replaced\n"),
        27 => say(to, b"  27, this is no date of the years 2002 to 2099\n"),
        28 => say(
            to,
            b"  28, the bank is closed on this day: it is no TARGET day\n",
        ),
        _ => say(to, b"  1, these lists are none that a table says\n"),
    }
}

// A notice's answer.
pub fn say_notice<W: Write>(to: &mut W, code: u64, cents: u64, executing: bool) -> io::Result<()> {
    if code != 0 {
        return say_refusal(to, code);
    }
    let done = if executing { "executed" } else { "reversed" };
    write!(to, "  0, {done}: {}\n", Money(cents))
}

// A body's totals. The balance, collected less paid, may be below zero.
pub fn say_totals<W: Write>(to: &mut W, t: TotalsAnswer) -> io::Result<()> {
    if t.code != 0 {
        return say_refusal(to, t.code);
    }
    write!(
        to,
        "  0, orders {}, paid {}, collected {}, balance {}{}\n",
        t.used,
        Money(t.paid),
        Money(t.collected),
        if t.collected < t.paid { "-" } else { "" },
        Money(t.collected.abs_diff(t.paid)),
    )
}

fn state_name(state: u8) -> &'static str {
    match state {
        1 => "waiting",
        2 => "executed",
        _ => "replaced",
    }
}

// The lines of an order: the amount and state of each.
fn say_lines<W: Write>(to: &mut W, r: Record) -> io::Result<()> {
    let amounts = r.amounts;
    let states = r.states;
    for (&amount, &state) in amounts.iter().zip(&states).take(usize::from(r.lines)) {
        write!(to, "; {} {}", Money(amount), state_name(state))?;
    }
    Ok(())
}

// An order of a body's list.
fn say_record<W: Write>(to: &mut W, r: Record) -> io::Result<()> {
    write!(
        to,
        "  {} {} {} of {}-{:02}-{:02}, {}, {}",
        kind_name(r.kind),
        r.esercizio,
        r.number,
        r.date.year,
        r.date.month,
        r.date.day,
        Money(r.total),
        if r.state == record::ANNULLED {
            "annulled"
        } else {
            "acquired"
        },
    )?;
    say_lines(to, r)?;
    say(to, b"\n")
}

// A body's orders in order of arrival.
pub fn say_orders<W: Write>(to: &mut W, b: Book) -> io::Result<()> {
    let n = training::size(b);
    if n == 0 {
        return say(to, b"  no order\n");
    }
    for i in 0..n {
        say_record(to, training::order_at(b, i))?;
    }
    Ok(())
}

// That no body has a code.
pub fn say_unknown<W: Write>(to: &mut W) -> io::Result<()> {
    say_refusal(to, 7)
}
