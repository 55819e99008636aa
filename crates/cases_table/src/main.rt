// Tables opened, damaged and searched. A line of the input is one case, in columns: its name; a request; the buffer's length; a place and the byte
// to put there once the table is open; a code to look for; the bytes of head and entries; and what document 01 says of it, by hand. A column may
// be empty. A line of the output has what the code says beside what is expected.
#![tactic(auto)]

ghost use Rattle.std.specs.Prelude.{◌≡◌, true, ◌+◌, ◌≤◌, ◌<◌, length};
ghost use Rattle.bounds.specs.Bounds.{max_length};
ghost use Rattle.table.specs.Table.{table_ok};

use casebook::{column, say};
use opening::{OpenRefusal, Opened};
use std::io;
use std::io::Write;

// What a buffer's bytes are before it is opened: no byte of a table's contents is this.
const MARK: u8 = 170;

// Column k as a number, but at most 8 more than the greatest length.
fn number(line: &[u8], k: usize) -> usize
    ensures { result ≤ max_length + 8 }
{
    (casebook::number(line, k) as usize).min(bounds::MAX_LENGTH + 8)
}

// Whether a buffer is as it was before. By its places: a closure for each byte takes more than three times as long.
fn is_marked(t: &[u8]) -> bool {
    for i in 0..t.len() {
        if t[i] != MARK {
            return false;
        }
    }
    true
}

fn say_opened<W: Write>(to: &mut W, o: Opened, t: &[u8]) -> io::Result<()> {
    write!(to, ": {}", opening::code_of(o))?;
    if is_marked(t) {
        say(to, b", buffer kept")
    } else {
        say(to, b", buffer written")
    }
}

// Puts the byte of column 4 at the place of column 3, if there is one.
fn damage(line: &[u8], t: &mut [u8])
    ensures { length t.new ≡ length t.old }
{
    if column(line, 3).is_empty() {
        return;
    }
    let place = number(line, 3);
    if place < t.len() {
        t[place] = (number(line, 4) % 256) as u8;
    }
}

fn say_found<W: Write>(to: &mut W, t: &[u8], code: &[u8]) -> io::Result<()>
    requires { table_ok t.now ≡ true }
{
    match table::find_body(t, code) {
        Some(b) => write!(to, ", code at {b}"),
        None => say(to, b", code not there"),
    }
}

// The number of bodies, and where the last one's slots begin.
fn say_bodies<W: Write>(to: &mut W, t: &[u8]) -> io::Result<()>
    requires { table_ok t.now ≡ true }
{
    let n = table::body_count(t);
    write!(
        to,
        ", bodies {n}, the last at {}",
        entries::place_of(t, table::HEAD + entries::ENTRY * (n - 1)),
    )
}

// Whether a table begins with these bytes and all others are zero.
fn say_contents<W: Write>(to: &mut W, t: &[u8], x: &[u8]) -> io::Result<()> {
    match t.strip_prefix(x) {
        None => say(to, b", contents differ"),
        Some(slots) if ranges::are_zero(slots, 0, slots.len()) => say(
            to,
            b", contents as expected",
        ),
        Some(_) => say(to, b", slots differ"),
    }
}

fn say_table<W: Write>(to: &mut W, t: &[u8], code: &[u8], x: &[u8]) -> io::Result<()> {
    if !table::table_ok(t) {
        return say(to, b", not valid");
    }
    say(to, b", valid")?;
    say_bodies(to, t)?;
    if !code.is_empty() {
        say_found(to, t, code)?;
    }
    if !x.is_empty() {
        say_contents(to, t, x)?;
    }
    Ok(())
}

fn open_case<W: Write>(to: &mut W, line: &[u8], t: &mut [u8]) -> io::Result<()> {
    let mut q = [0u8; 512];
    let n = casebook::bytes(line, 1, &mut q);
    t.fill(MARK);
    let o = opening::open_table(&q[..n], t);
    say_opened(to, o, t)?;
    damage(line, t);
    Ok(())
}

fn show_case<W: Write>(to: &mut W, line: &[u8], t: &[u8]) -> io::Result<()> {
    let mut c = [0u8; 64];
    let mut x = [0u8; 1024];
    let n = casebook::bytes(line, 5, &mut c);
    let m = casebook::bytes(line, 6, &mut x);
    say_table(to, t, &c[..n], &x[..m])
}

fn run_case<W: Write>(to: &mut W, line: &[u8], t: &mut [u8]) -> io::Result<()> {
    say(to, column(line, 0))?;
    open_case(to, line, t)?;
    show_case(to, line, t)?;
    say(to, b"; expected ")?;
    say(to, column(line, 7))?;
    say(to, b"\n")
}

// Each case in a buffer of the length that it asks for, as far as there is room.
fn run_cases<W: Write>(to: &mut W, text: &[u8], room: &mut [u8]) -> io::Result<()> {
    for line in casebook::lines_of(text) {
        let n = number(line, 2).min(room.len());
        run_case(to, line, &mut room[..n])?;
    }
    Ok(())
}

fn main(rt: HostRuntime) -> io::Result<()> {
    let mut input = [0u8; 65536];
    let mut room = [0u8; bounds::MAX_LENGTH + 8];
    let n = casebook::read_full(&mut rt.stdin(), &mut input)?;
    run_cases(&mut rt.stdout(), &input[..n], &mut room)
}
