// Cases of the two editions, as calls on one table. The first line of the input is a flow of edition 1, the second one of edition 2, as an OPI program sends
// it. Each further line has a name, the edition's number in the call, which of the two flows is sent, which occurrence of which text in it is replaced by
// what, and what documents 01 and 02 say is answered, by hand; a line of the output has what the code answers beside it.
#![tactic(auto)]

use casebook::{column, number, say};
use std::io;
use std::io::Write;

// A flow's call: code, place, orders, accepted, cause.
fn say_taken<W: Write>(to: &mut W, t: &mut [u8], edition: u64, f: &[u8]) -> io::Result<()> {
    let mut out = [0u8; 64];
    let r = desk::reply_of(desk::take_flow(t, edition, f, &mut out));
    write!(
        to,
        "{} {} {} {} {}",
        r.code, r.place, r.orders, r.accepted, r.cause,
    )
}

// One case on the flow that its line chooses.
fn run_case<W: Write>(
    to: &mut W,
    t: &mut [u8],
    first: &[u8],
    second: &[u8],
    line: &[u8],
) -> io::Result<()> {
    let base = if number(line, 2) == 1 { first } else { second };
    let mut y = [0u8; 4096];
    let n = casebook::bytes(line, 5, &mut y);
    let mut f = [0u8; 32768];
    let m = splice::spliced(base, column(line, 4), number(line, 3), &y[..n], &mut f);
    say(to, column(line, 0))?;
    say(to, b": ")?;
    say_taken(to, t, number(line, 1), &f[..m])?;
    say(to, b", expected ")?;
    say(to, column(line, 6))?;
    say(to, b"\n")
}

fn run_cases<W: Write>(to: &mut W, t: &mut [u8], text: &[u8]) -> io::Result<()> {
    let mut lines = casebook::lines_of(text);
    let first = lines.next().unwrap_or(b"");
    let second = lines.next().unwrap_or(b"");
    for line in lines {
        run_case(to, t, first, second, line)?;
    }
    Ok(())
}

fn main(rt: HostRuntime) -> io::Result<()> {
    let mut input = [0u8; 131072];
    let n = casebook::read_full(&mut rt.stdin(), &mut input)?;
    let mut table = [0u8; 880];
    let _ = opening::open_table(
        b"01234\x06000471\0\0\0\0\0\0\0\0\0\0\0\0\x04\x03471\0\0\0\0\0\0\0\0\0\0\0\0\0\0\0\x04",
        &mut table,
    );
    run_cases(&mut rt.stdout(), &mut table, &input[..n])
}
