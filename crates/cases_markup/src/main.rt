// Cases of the markup. A line of the input has its kind, a name, a flow and what document 01 says of it, by hand; a line of the output has what the code
// says beside it. Kinds: `flow`, whether it stands and where its root is; `place`, where it breaks; `bytes`, with which bytes in place of each 01 it stands.
#![tactic(auto)]

use casebook::{column, say};
use markup::Markup;
use std::io;
use std::io::Write;

fn say_verdict<W: Write>(to: &mut W, w: Markup) -> io::Result<()> {
    match w {
        Ok((p, _, _)) => write!(to, "stands at {p}"),
        Err(_) => say(to, b"breaks"),
    }
}

fn say_place<W: Write>(to: &mut W, w: Markup) -> io::Result<()> {
    match w {
        Ok((_, _, _)) => say(to, b"stands"),
        Err(p) => write!(to, "breaks at {p}"),
    }
}

fn stands(w: Markup) -> bool {
    match w {
        Ok((_, _, _)) => true,
        Err(_) => false,
    }
}

// The flow with b in place of each byte 01, as far as there is room.
fn filled(flow: &[u8], b: u8) -> [u8; 64] {
    let mut out = [0u8; 64];
    for (to, &c) in out.iter_mut().zip(flow) {
        *to = if c == 1 { b } else { c };
    }
    out
}

// Whether the flow stands with b in place of each byte 01.
fn stands_with(flow: &[u8], b: u8) -> bool {
    let n = flow.len();
    if 64 < n {
        return false;
    }
    let f = filled(flow, b);
    stands(markup::markup_of(&f[..n], false))
}

// Names a byte that begins or ends a range of those with which the flow stands.
fn say_edge<W: Write>(to: &mut W, flow: &[u8], b: u8) -> io::Result<()> {
    if !stands_with(flow, b) {
        Ok(())
    } else if b == 0 || !stands_with(flow, b - 1) {
        write!(to, " {b:02x}")
    } else if b == 255 || !stands_with(flow, b + 1) {
        write!(to, "-{b:02x}")
    } else {
        Ok(())
    }
}

fn say_bytes<W: Write>(to: &mut W, flow: &[u8]) -> io::Result<()> {
    say(to, b"stands with")?;
    for b in 0..=255 {
        say_edge(to, flow, b)?;
    }
    Ok(())
}

fn say_seen<W: Write>(to: &mut W, kind: &[u8], flow: &[u8]) -> io::Result<()> {
    match kind {
        b"flow" => say_verdict(to, markup::markup_of(flow, false)),
        b"place" => say_place(to, markup::markup_of(flow, false)),
        _ => say_bytes(to, flow),
    }
}

fn run_case<W: Write>(to: &mut W, line: &[u8]) -> io::Result<()> {
    let mut flow = [0u8; 2048];
    let n = casebook::bytes(line, 2, &mut flow);
    let name = column(line, 1);
    if !name.is_empty() {
        say(to, name)?;
        say(to, b": ")?;
    }
    say(to, column(line, 2))?;
    say(to, b": ")?;
    say_seen(to, column(line, 0), &flow[..n])?;
    say(to, b", expected ")?;
    say(to, column(line, 3))?;
    say(to, b"\n")
}

fn run_cases<W: Write>(to: &mut W, text: &[u8]) -> io::Result<()> {
    for line in casebook::lines_of(text) {
        run_case(to, line)?;
    }
    Ok(())
}

// More bytes than 16 bits count: the notes of the markup pass don't hold such a position.
fn long_text<W: Write>(to: &mut W) -> io::Result<()> {
    let mut f = [b'x'; 70000];
    // Kept as writes of single bytes: after copy_from_slice the proof does not know the array's length.
    f[0] = b'<';
    f[1] = b'a';
    f[2] = b'>';
    f[69996] = b'<';
    f[69997] = b'/';
    f[69998] = b'a';
    f[69999] = b'>';
    say(to, b"a text of 69993 bytes: ")?;
    say_verdict(to, markup::markup_of(&f, false))?;
    say(
        to,
        b", expected stands at 0\nthe same with the end tag of b: ",
    )?;
    f[69998] = b'b';
    say_verdict(to, markup::markup_of(&f, false))?;
    say(to, b", expected breaks\n")
}

fn main(rt: HostRuntime) -> io::Result<()> {
    let mut input = [0u8; 65536];
    let n = casebook::read_full(&mut rt.stdin(), &mut input)?;
    let mut to = rt.stdout();
    run_cases(&mut to, &input[..n])?;
    long_text(&mut to)
}
