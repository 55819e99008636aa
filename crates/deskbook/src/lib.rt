// Scripts of calls on one table, for the cases of the desk and of journals. A line of the input has a call, a name, its arguments and what documents 01 and
// 02 say it answers, by hand; a line of the output has what the code answers beside it, and says `touched` where outcome bytes that should stay did not.
// Calls: open (request, length), flow (of edition 1: flow, room), execute and reverse (body, kind, esercizio, number, line, year, month, day), totals (body),
// poke (place, byte: damages the table), long (a flow of so many zero bytes), first (year, month, day); put (place, bytes: writes them into the table),
// journal (body, movements), full (how many movements, a slot, a movement: has the slot stand 512 times, numbered from 1 on, and lists lines 1 to 8 of one
// after the other, each as the movement says; the list begins anew after the last).
#![tactic(auto)]

ghost use Rattle.std.specs.Prelude.{◌+◌, ◌*◌, ◌≤◌, ◌<◌, length, IfOk};

use calendar::Date;
use casebook::{column, number, say};
use desk::{FlowAnswer, FlowRefusal};
use notices::{NoticeAnswer, NoticeRefusal};
use opening::{OpenRefusal, Opened};
use record::Key;
use std::io;
use std::io::{Read, Write};

const ALL_SLOTS: usize = 49216;

// A flow's answer: code, place, orders, accepted, cause, steps, and the outcomes. Says so if out, which was all zero, has something else past them.
fn say_flow<W: Write>(to: &mut W, a: FlowAnswer, out: &[u8]) -> io::Result<()> {
    let r = desk::reply_of(a);
    write!(
        to,
        "{} {} {} {} {} {}",
        r.code, r.place, r.orders, r.accepted, r.cause, r.steps,
    )?;
    let rest = casebook::say_outcomes(to, out, r.orders)?;
    if rest.iter().any(|&b| b != 0) {
        say(to, b", touched")?;
    }
    Ok(())
}

// A flow's call with at most so many bytes of out for its outcomes.
fn run_within<W: Write>(
    to: &mut W,
    t: &mut [u8],
    flow: &[u8],
    room: u64,
    out: &mut [u8],
) -> io::Result<()> {
    let n = (room as usize).min(out.len());
    let a = desk::take_flow(t, 1, flow, &mut out[..n]);
    say_flow(to, a, out)
}

// A flow's call with room for so many outcome bytes.
fn run_flow<W: Write>(to: &mut W, t: &mut [u8], flow: &[u8], room: u64) -> io::Result<()> {
    let mut out = [0u8; 1024];
    run_within(to, t, flow, room, &mut out)
}

fn say_opened<W: Write>(to: &mut W, o: Opened) -> io::Result<()> {
    write!(to, "{}", opening::code_of(o))
}

// Opens a table in the first bytes of t: the length that it was given.
fn run_open<W: Write>(to: &mut W, t: &mut [u8], request: &[u8], n: usize) -> io::Result<usize>
    ensures { IfOk result (λ len. len ≤ length t.new) }
{
    if t.len() < n {
        return Ok(0);
    }
    say_opened(to, opening::open_table(request, &mut t[..n]))?;
    Ok(n)
}

// Damages the table: a byte at a place.
fn run_poke<W: Write>(to: &mut W, t: &mut [u8], at: usize, b: u64) -> io::Result<()> {
    if t.len() <= at {
        return say(to, b"none");
    }
    t[at] = (b % 256) as u8;
    say(to, b"done")
}

// A flow of so many zero bytes.
fn run_long<W: Write>(to: &mut W, t: &mut [u8], n: usize) -> io::Result<()> {
    let f = [0u8; 32769];
    run_flow(to, t, f.get(..n).unwrap_or(&f), 1024)
}

fn say_notice<W: Write>(to: &mut W, a: NoticeAnswer) -> io::Result<()> {
    let r = notices::reply_of(a);
    write!(to, "{} {}", r.code, r.cents)
}

// Collected less paid, which may be below zero.
fn say_balance<W: Write>(to: &mut W, paid: u64, collected: u64, balance: i64) -> io::Result<()> {
    let sign = if balance < 0 { "-" } else { "" };
    write!(to, " {sign}{}", collected.abs_diff(paid))
}

fn run_totals<W: Write>(to: &mut W, t: &[u8], body: &[u8]) -> io::Result<()> {
    let a = notices::totals(t, body);
    write!(to, "{} {} {} {}", a.code, a.used, a.paid, a.collected)?;
    say_balance(to, a.paid, a.collected, a.balance)
}

// The date in column k and the two after it.
fn date_at(line: &[u8], k: usize) -> Date
    requires { k ≤ 7 }
{
    Date {
        year: number(line, k),
        month: number(line, k + 1),
        day: number(line, k + 2),
    }
}

// The first TARGET day on or after the date in columns 2 to 4: code, year, month, day.
fn run_first<W: Write>(to: &mut W, d: Date) -> io::Result<()> {
    let r = target_days::first_target_day(d.year, d.month, d.day);
    write!(
        to,
        "{} {} {} {}",
        r.code, r.date.year, r.date.month, r.date.day,
    )
}

// The notices, which name a body by its code in column 2.
fn run_notice<W: Write>(to: &mut W, line: &[u8], t: &mut [u8], executing: bool) -> io::Result<()> {
    let mut code = [0u8; 64];
    let n = casebook::bytes(line, 2, &mut code);
    let key = Key {
        kind: number(line, 3),
        esercizio: number(line, 4),
        number: number(line, 5),
    };
    let order_line = number(line, 6);
    let day = date_at(line, 7);
    if executing {
        say_notice(to, notices::execute(t, &code[..n], key, order_line, day))
    } else {
        say_notice(to, notices::reverse(t, &code[..n], key, order_line, day))
    }
}

fn run_put<W: Write>(to: &mut W, t: &mut [u8], at: usize, v: &[u8]) -> io::Result<()> {
    if t.len() < at || t.len() - at < v.len() {
        return say(to, b"none");
    }
    words::copy_in(t, at, v);
    say(to, b"done")
}

// Has a slot stand 512 times, numbered from 1 on.
fn fill(t: &mut [u8], slot: &[u8; 96])
    requires { 49216 ≤ length t.old }
{
    for i in 0..512 {
        let at = 64 + 96 * i;
        words::copy_in(t, at, slot);
        words::write4(t, at + 8, i as u64 + 1);
    }
}

// Lists so many lines.
fn list(m: &mut [u8], movement: &[u8; 16], count: usize)
    requires { (16 * count ≤ length m.old) × (count ≤ 4200) }
{
    for j in 0..count {
        let at = 16 * j;
        words::copy_in(m, at, movement);
        m[at + 1] = (j % 8) as u8 + 1;
        words::write4(m, at + 4, (j / 8 % 512) as u64 + 1);
    }
}

fn say_journal<W: Write>(to: &mut W, t: &[u8], body: &[u8], m: &[u8]) -> io::Result<()> {
    write!(to, "{}", journal::check(t, body, m))
}

fn run_full<W: Write>(
    to: &mut W,
    t: &mut [u8],
    count: usize,
    slot: &[u8; 96],
    movement: &[u8; 16],
) -> io::Result<()> {
    if t.len() < ALL_SLOTS || 4200 < count {
        return say(to, b"none");
    }
    let mut m = [0u8; 67200];
    fill(t, slot);
    list(&mut m, movement, count);
    say_journal(to, t, b"000471", &m[..16 * count])
}

// A call on the table, by its name in column 0.
fn run_call<W: Write>(to: &mut W, line: &[u8], t: &mut [u8]) -> io::Result<()> {
    let mut v = [0u8; 4096];
    let mut code = [0u8; 64];
    match column(line, 0) {
        b"poke" => run_poke(to, t, number(line, 2) as usize, number(line, 3)),
        b"long" => run_long(to, t, number(line, 2) as usize),
        b"first" => run_first(to, date_at(line, 2)),
        b"put" => {
            let n = casebook::bytes(line, 3, &mut v);
            run_put(to, t, number(line, 2) as usize, &v[..n])
        }
        b"journal" => {
            let k = casebook::bytes(line, 2, &mut code);
            let n = casebook::bytes(line, 3, &mut v);
            say_journal(to, t, &code[..k], &v[..n])
        }
        b"full" => {
            let mut slot = [0u8; 96];
            let mut movement = [0u8; 16];
            casebook::bytes(line, 3, &mut slot);
            casebook::bytes(line, 4, &mut movement);
            run_full(to, t, number(line, 2) as usize, &slot, &movement)
        }
        b"flow" => {
            let n = casebook::bytes(line, 2, &mut v);
            run_flow(to, t, &v[..n], number(line, 3))
        }
        b"totals" => {
            let k = casebook::bytes(line, 2, &mut code);
            run_totals(to, t, &code[..k])
        }
        b"execute" => run_notice(to, line, t, true),
        _ => run_notice(to, line, t, false),
    }
}

// One line: the length of the table from there on.
fn run_line<W: Write>(to: &mut W, line: &[u8], t: &mut [u8], len: usize) -> io::Result<usize>
    requires { len ≤ length t.old }
    ensures { IfOk result (λ k. k ≤ length t.new) }
{
    match column(line, 0) {
        b"open" => {
            let mut request = [0u8; 512];
            let n = casebook::bytes(line, 2, &mut request);
            run_open(to, t, &request[..n], number(line, 3) as usize)
        }
        _ => {
            run_call(to, line, &mut t[..len])?;
            Ok(len)
        }
    }
}

fn run_lines<W: Write>(to: &mut W, text: &[u8], t: &mut [u8]) -> io::Result<()> {
    let mut len: usize = 0;
    for line in casebook::lines_of(text) {
        say(to, column(line, 1))?;
        say(to, b": ")?;
        len = run_line(to, line, t, len)?;
        casebook::say_expected(to, line)?;
    }
    Ok(())
}

// Runs the script that is read, as from standard input, and says what is seen of it.
pub fn run_script<R: Read, W: Write>(from: &mut R, to: &mut W) -> io::Result<()> {
    let mut input = [0u8; 262144];
    let n = casebook::read_full(from, &mut input)?;
    let mut table = [0u8; 65800];
    run_lines(to, &input[..n], &mut table)
}
