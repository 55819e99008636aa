// One command of a clerk in the training room: what it says is read, the room's call is made, and the answer told. Everything that decides is in the crates below.
#![tactic(auto)]

use clerk_line::{date_of, kind_of, value_of, word};
use printing::say;
use record::Key;
use room::Room;
use std::fs::File;
use std::io::{Read, Write};
use std::rt::Files;
use std::{io, str};

// The order that execute and reverse name: BODY KIND ESERCIZIO NUMBER LINE DATE are their words 1 to 6.
fn key_in(s: &[u8]) -> Key {
    Key {
        kind: kind_of(word(s, 2)),
        esercizio: value_of(word(s, 3)),
        number: value_of(word(s, 4)),
    }
}

// execute or reverse, as those words say.
fn run_notice<W: Write>(to: &mut W, r: Room, s: &[u8], executing: bool) -> io::Result<Room> {
    let day = word(s, 6);
    if day.is_empty() {
        say_help(to)?;
        return Ok(r);
    }
    let body = word(s, 1);
    let line = value_of(word(s, 5));
    let told = if executing {
        room_notices::execute(r, body, key_in(s), line, date_of(day))
    } else {
        room_notices::reverse(r, body, key_in(s), line, date_of(day))
    };
    let n = notices::reply_of(told.answer);
    clerk_words::say_notice(to, n.code, n.cents, executing)?;
    Ok(told.room)
}

// Why a flow of an edition is refused: a sentence of the school's where it is document 01's edition.
fn say_refused<W: Write>(
    to: &mut W,
    f: &[u8],
    edition: u64,
    code: u64,
    place: u64,
    cause: u64,
) -> io::Result<()> {
    if code == 23 {
        return say(to, b"  23, there is no such edition: 1 or 2\n");
    }
    if edition == 1 {
        return reasons::of_flow(to, f, code, place, cause);
    }
    match code {
        3 => say(to, b"  3, the markup breaks\n"),
        4 => say(to, b"  4, the structure breaks\n"),
        5 => write!(to, "  5, a field breaks, at byte {place}, cause {cause}\n"),
        _ => reasons::of_flow(to, f, code, place, cause),
    }
}

fn tell_flow<W: Write>(to: &mut W, r: Room, f: &[u8], edition: u64) -> io::Result<Room> {
    let mut out = [0u8; 1024];
    let told = room_flow::take_flow(r, edition, f, &mut out);
    let n = desk::reply_of(told.answer);
    if n.code == 0 {
        clerk_words::say_taken(to, n.orders, n.accepted, n.steps)?;
        clerk_words::say_outcomes(to, &out, n.orders)?;
    } else {
        say_refused(to, f, edition, n.code, n.place, n.cause)?;
    }
    Ok(told.room)
}

// A flow's file, of which one byte more than the longest flow is read, so that a longer one shows.
fn run_file<F: Read, W: Write>(
    to: &mut W,
    r: Room,
    file: &mut F,
    edition: u64,
) -> io::Result<Room> {
    let mut input = [0u8; 32769];
    let got = printing::read_input(file, &mut input);
    tell_flow(to, r, &input[..got.read], edition)
}

fn edition_of(w: &[u8]) -> u64 {
    if w.is_empty() { 1 } else { value_of(w) }
}

fn say_unopened<W: Write>(to: &mut W) -> io::Result<()> {
    say(to, b"  the file cannot be opened\n")
}

// flow FILE [EDITION]
fn run_flow<H: Files, W: Write>(rt: &H, to: &mut W, r: Room, s: &[u8]) -> io::Result<Room> {
    let Ok(path) = str::from_utf8(word(s, 1)) else {
        say_unopened(to)?;
        return Ok(r);
    };
    let Ok(mut file) = File::open(rt, path) else {
        say_unopened(to)?;
        return Ok(r);
    };
    run_file(to, r, &mut file, edition_of(word(s, 2)))
}

// list BODY
fn run_list<W: Write>(to: &mut W, r: Room, body: &[u8]) -> io::Result<()> {
    match room::find_seat(r, body) {
        Some(b) => {
            let p = room::seat_at(r, b);
            let book = p.book;
            clerk_words::say_orders(to, book)
        }
        None => clerk_words::say_unknown(to),
    }
}

fn say_help<W: Write>(to: &mut W) -> io::Result<()> {
    say(
        to,
        b"  flow FILE [EDITION]\n  execute BODY KIND ESERCIZIO NUMBER LINE YYYY-MM-DD\n  reverse BODY KIND ESERCIZIO NUMBER LINE YYYY-MM-DD\n",
    )?;
    say(
        to,
        b"  totals BODY\n  list BODY\n  quit\n  KIND is mandato or reversale; a line that begins with # is a remark\n",
    )
}

// Takes one command line: the room afterwards.
pub fn take<H: Files, W: Write>(rt: &H, to: &mut W, r: Room, s: &[u8]) -> io::Result<Room> {
    match word(s, 0) {
        b"flow" => run_flow(rt, to, r, s),
        b"execute" => run_notice(to, r, s, true),
        b"reverse" => run_notice(to, r, s, false),
        b"totals" => {
            clerk_words::say_totals(to, room_notices::totals(r, word(s, 1)))?;
            Ok(r)
        }
        b"list" => {
            run_list(to, r, word(s, 1))?;
            Ok(r)
        }
        b"" => Ok(r),
        _ => {
            say_help(to)?;
            Ok(r)
        }
    }
}
