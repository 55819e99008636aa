// Cases of structure and fields. The first line of the input is a flow that stands. Each further line has a name, which occurrence of which text of that
// flow is replaced by what, and what document 01 says of the flow so changed, by hand; a line of the output has what the code says beside it.
#![tactic(auto)]

use casebook::{column, say};
use editions::Edition;
use fields::Cause;
use flow::Breakage;
use std::io;
use std::io::Write;

// A field's own words, as parts of the flow, and its cause.
fn say_words<W: Write>(to: &mut W, f: &[u8], p: usize, x: Cause) -> io::Result<()> {
    write!(to, "field breaks at {p} by {}: ", fields::cause_number(x))?;
    say(to, children::name_at(f, p))?;
    say(to, b" \"")?;
    say(to, children::text_at(f, p))?;
    say(to, b"\"")
}

fn say_verdict<W: Write>(to: &mut W, f: &[u8]) -> io::Result<()> {
    match flow::verdict_alone(f, Edition::Oil) {
        Err(Breakage::MarkupBreaks(_)) => say(to, b"markup breaks"),
        Err(Breakage::StructureBreaks) => say(to, b"structure breaks"),
        Err(Breakage::FieldBreaks(p, x)) => say_words(to, f, p, x),
        Ok(_) => say(to, b"stands"),
    }
}

// What is seen of the base flow with the k-th x replaced by y.
fn say_edited<W: Write>(to: &mut W, base: &[u8], x: &[u8], k: u64, y: &[u8]) -> io::Result<()> {
    let mut f = [0u8; 32768];
    let n = splice::spliced(base, x, k, y, &mut f);
    say_verdict(to, &f[..n])
}

fn run_case<W: Write>(to: &mut W, base: &[u8], line: &[u8]) -> io::Result<()> {
    let mut y = [0u8; 4096];
    let n = casebook::bytes(line, 3, &mut y);
    let k = casebook::number(line, 1);
    say(to, column(line, 0))?;
    say(to, b": ")?;
    say_edited(to, base, column(line, 2), k, &y[..n])?;
    say(to, b", expected ")?;
    say(to, column(line, 4))?;
    say(to, b"\n")
}

fn run_cases<W: Write>(to: &mut W, text: &[u8]) -> io::Result<()> {
    let mut lines = casebook::lines_of(text);
    let base = lines.next().unwrap_or(b"");
    for line in lines {
        run_case(to, base, line)?;
    }
    Ok(())
}

fn main(rt: HostRuntime) -> io::Result<()> {
    let mut input = [0u8; 196608];
    let n = casebook::read_full(&mut rt.stdin(), &mut input)?;
    run_cases(&mut rt.stdout(), &input[..n])
}
