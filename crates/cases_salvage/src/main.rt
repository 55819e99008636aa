// Damaged tables repaired. A line of the input is one case, in columns: its name; a table; the length of the report's buffer, whose bytes are 170 before; the
// table afterwards and the report's buffer afterwards, by hand; and what document 02 says of it, by hand. A line of the output has what the code says beside
// what is expected. Each table is salvaged a second time.
#![tactic(auto)]

use casebook::{column, say};
use std::io;
use std::io::Write;

fn say_whether<W: Write>(to: &mut W, right: bool, yes: &[u8], no: &[u8]) -> io::Result<()> {
    if right { say(to, yes) } else { say(to, no) }
}

// What salvage answers.
fn say_reply<W: Write>(to: &mut W, t: &mut [u8], r: &mut [u8]) -> io::Result<()> {
    let a = salvage::reply_of(salvage::salvage(t, r));
    write!(to, "{}, blanked {}", a.code, a.blanked)
}

// Whether table and report are these.
fn say_left<W: Write>(to: &mut W, t: &[u8], r: &[u8], x: &[u8], y: &[u8]) -> io::Result<()> {
    say_whether(to, t == x, b", table as expected", b", table differs")?;
    say_whether(to, r == y, b", report as expected", b", report differs")?;
    say_whether(to, table::table_ok(t), b", valid", b", not valid")
}

// Once, and once more.
fn say_salvaged<W: Write>(
    to: &mut W,
    t: &mut [u8],
    r: &mut [u8],
    x: &[u8],
    y: &[u8],
) -> io::Result<()> {
    say_reply(to, t, r)?;
    say_left(to, t, r, x, y)?;
    say(to, b", then ")?;
    say_reply(to, t, r)?;
    say_whether(to, *t == *x, b", table the same", b", table changes")
}

// In a report's buffer of k bytes, at most 64.
fn run_within<W: Write>(to: &mut W, t: &mut [u8], k: u64, x: &[u8], y: &[u8]) -> io::Result<()> {
    let mut r = [170u8; 64];
    if 64 < k {
        return say(to, b"none");
    }
    say_salvaged(to, t, &mut r[..k as usize], x, y)
}

fn run_case<W: Write>(to: &mut W, line: &[u8]) -> io::Result<()> {
    let mut t = [0u8; 1024];
    let mut x = [0u8; 1024];
    let mut y = [0u8; 64];
    let n = casebook::bytes(line, 1, &mut t);
    let k = casebook::number(line, 2);
    let m = casebook::bytes(line, 3, &mut x);
    let l = casebook::bytes(line, 4, &mut y);
    say(to, column(line, 0))?;
    say(to, b": ")?;
    run_within(to, &mut t[..n], k, &x[..m], &y[..l])?;
    say(to, b"; expected ")?;
    say(to, column(line, 5))?;
    say(to, b"\n")
}

fn run_cases<W: Write>(to: &mut W, text: &[u8]) -> io::Result<()> {
    for line in casebook::lines_of(text) {
        run_case(to, line)?;
    }
    Ok(())
}

fn main(rt: HostRuntime) -> io::Result<()> {
    let mut input = [0u8; 262144];
    let n = casebook::read_full(&mut rt.stdin(), &mut input)?;
    run_cases(&mut rt.stdout(), &input[..n])
}
