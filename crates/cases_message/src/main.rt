// Cases of writing an outcome message. The first line of the input is a flow. Each further line has a name, how many bytes of the flow are taken, outcome
// bytes, the caller's nine values, the buffer's length, what document 02 says of it, by hand, and the edition's number; the output has what the code says
// above it. Where the flow goes on otherwise, there follow a part, how often it is put behind, and an end; and of what is said by hand, which part stands
// as often, and the end. After a message stand the code of its reading, its entries, the code and length of writing it again, whether that gave the same bytes, and the
// codes of reading it in edition 2 and by numbers of no edition.
#![tactic(auto)]

ghost use Rattle.std.specs.Prelude.{◌≤◌};
ghost use Rattle.std.specs.Counts.{IsPrefixLen};

use casebook::{column, number, say};
use message_write::{WriteAnswer, WriteRefusal};
use std::io;
use std::io::Write;

// The first v bytes, or all of them.
fn first(s: &[u8], v: u64) -> &[u8] {
    s.get(..v as usize).unwrap_or(s)
}

// Where the last v of 65,536 places begin.
fn last(v: u64) -> usize
    ensures { result ≤ 65536 }
{
    if v < 65536 { 65536 - v as usize } else { 0 }
}

// What was written, read back and written again.
fn say_again<W: Write>(to: &mut W, m: &[u8]) -> io::Result<()> {
    let mut values = [0u8; 3152];
    let r = message_read::read_message(1, m, &mut values);
    write!(to, " {} {}", r.code, r.entries)?;
    let mut again = [0u8; 65536];
    let w = message_rewrite::rewrite_message(1, m, &mut again);
    write!(to, " {} {}", w.code, w.length)?;
    if m == first(&again, w.length) {
        say(to, b" the same")?;
    }
    write!(
        to,
        " {} {} {}",
        message_read::read_message(2, m, &mut values).code,
        message_read::read_message(0, m, &mut values).code,
        message_rewrite::rewrite_message(257, m, &mut again).code,
    )
}

fn say_answer<W: Write>(to: &mut W, a: WriteAnswer, m: &[u8]) -> io::Result<()> {
    let r = message_write::reply_of(a);
    let written = first(m, r.length);
    write!(to, "{} {} ", r.code, r.length)?;
    say(to, written)?;
    if r.code == 0 {
        say_again(to, written)?;
    }
    Ok(())
}

// What is seen of a case.
fn say_case<W: Write>(to: &mut W, flow: &[u8], line: &[u8], m: &mut [u8]) -> io::Result<()> {
    let mut out = [0u8; 2048];
    let n = casebook::bytes(line, 2, &mut out);
    let answer = message_write::write_message(
        number(line, 14),
        flow,
        &out[..n],
        column(line, 3),
        column(line, 4),
        column(line, 5),
        column(line, 6),
        column(line, 7),
        column(line, 8),
        column(line, 9),
        column(line, 10),
        column(line, 11),
        m,
    );
    say_answer(to, answer, m)
}

// What document 02 says of a case.
fn say_due<W: Write>(to: &mut W, line: &[u8]) -> io::Result<()> {
    say(to, column(line, 13))?;
    let text = column(line, 18);
    for _ in 0..number(line, 16) {
        say(to, text)?;
    }
    say(to, column(line, 19))
}

// The flow of a case: how many bytes it has.
fn build(base: &[u8], line: &[u8], out: &mut [u8]) -> usize
    ensures { IsPrefixLen result out.new }
{
    splice::repeated(
        first(base, number(line, 1)),
        column(line, 15),
        number(line, 16),
        column(line, 17),
        out,
    )
}

fn run_case<W: Write>(to: &mut W, base: &[u8], line: &[u8]) -> io::Result<()> {
    let mut m = [0u8; 65536];
    let mut flow = [0u8; 40000];
    let n = build(base, line, &mut flow);
    let from = last(number(line, 12));
    say(to, column(line, 0))?;
    say(to, b"\n")?;
    say_case(to, &flow[..n], line, &mut m[from..])?;
    say(to, b"\n")?;
    say_due(to, line)?;
    say(to, b"\n")
}

fn run_cases<W: Write>(to: &mut W, text: &[u8]) -> io::Result<()> {
    let mut lines = casebook::lines_of(text);
    let base = lines.next().unwrap_or(b"");
    for line in lines {
        run_case(to, base, line)?;
    }
    Ok(())
}

// A message without children whose root has an Id: its markup breaks in edition 1, its structure alone in edition 2.
fn say_id<W: Write>(to: &mut W) -> io::Result<()> {
    let m = b"<messaggi_esito_applicativo Id=\"m1\"></messaggi_esito_applicativo>";
    let mut values = [0u8; 80];
    write!(
        to,
        "an Id on the root, read in edition 1 and in edition 2\n{} {}\n3 4\n",
        message_read::read_message(1, m, &mut values).code,
        message_read::read_message(2, m, &mut values).code,
    )
}

fn main(rt: HostRuntime) -> io::Result<()> {
    let mut input = [0u8; 131072];
    let n = casebook::read_full(&mut rt.stdin(), &mut input)?;
    let mut to = rt.stdout();
    run_cases(&mut to, &input[..n])?;
    say_id(&mut to)
}
