// The training room: a table is read from a file, or document 01's is opened, and a clerk's commands are taken from standard input, line by line.
#![tactic(auto)]

use enrolment::EnrolRefusal;
use printing::say;
use room::Room;
use std::env::{Env, FillError};
use std::fs::File;
use std::io::{IsTerminal, Read, Write};
use std::rt::Files;
use std::{io, str};

// A room, and whether the lesson goes on.
#[derive(Clone, Copy)]
struct Lesson {
    room: Room,
    more: bool,
}

fn is_remark(line: &[u8]) -> bool {
    line.starts_with(b"#")
}

// At a terminal the clerk sees what is typed; elsewhere the line is said again, so that the answers can be read with it.
fn say_again<W: Write>(to: &mut W, line: &[u8]) -> io::Result<()> {
    if !is_remark(line) {
        say(to, b"> ")?;
    }
    say(to, line)?;
    say(to, b"\n")
}

fn take_line<H: Files, W: Write>(
    rt: &H,
    to: &mut W,
    r: Room,
    line: &[u8],
    typed: bool,
) -> io::Result<Room> {
    if line.is_empty() {
        return Ok(r);
    }
    if !typed {
        say_again(to, line)?;
    }
    if is_remark(line) {
        return Ok(r);
    }
    clerk::take(rt, to, r, line)
}

fn is_quit(line: &[u8]) -> bool {
    matches!(clerk_line::word(line, 0), b"quit")
}

// Reads one line and takes it. The longest path and some words fit into it.
fn take_next<H: Files, S: Read, W: Write>(
    rt: &H,
    from: &mut S,
    to: &mut W,
    r: Room,
    typed: bool,
) -> io::Result<Lesson> {
    if typed {
        say(to, b"> ")?;
    }
    let mut line = [0u8; 4200];
    let got = clerk_line::read_line(from, &mut line)?;
    let line = &line[..got.size];
    if is_quit(line) {
        return Ok(Lesson {
            room: r,
            more: false,
        });
    }
    Ok(Lesson {
        room: take_line(rt, to, r, line, typed)?,
        more: got.more,
    })
}

// Takes lines to the end of the input, at most so many.
fn take_lines<H: Files, S: Read + IsTerminal, W: Write>(
    rt: &H,
    from: &mut S,
    to: &mut W,
    r: Room,
    most: u64,
) -> io::Result<()> {
    let typed = from.is_terminal();
    let mut room = r;
    for _ in 0..most {
        let next = take_next(rt, from, to, room, typed)?;
        if !next.more {
            return Ok(());
        }
        room = next.room;
    }
    Ok(())
}

// The lessons on a table, where the training room takes it.
fn teach<H: Files, S: Read + IsTerminal, W: Write, E: Write>(
    rt: &H,
    from: &mut S,
    to: &mut W,
    errors: &mut E,
    t: &[u8],
) -> io::Result<()> {
    let e = enrolment::room_of(t);
    match e.told {
        Ok(()) => take_lines(rt, from, to, e.room, 1000000000000),
        Err(EnrolRefusal::InvalidTable) => printing::complain(errors, b"the table is not valid\n"),
        Err(EnrolRefusal::TooLarge) => printing::complain(
            errors,
            b"a body of the table has more than 32 slots: the training room takes tables whose bodies have at most 32\n",
        ),
        Err(EnrolRefusal::YearClosed) => printing::complain(
            errors,
            b"a body of the table has closed a year: the training room closes none, and takes no such table\n",
        ),
    }
}

// Document 01's table: ABI 01234 with 000471 and 471, four slots each.
fn teach_anew<H: Files, S: Read + IsTerminal, W: Write, E: Write>(
    rt: &H,
    from: &mut S,
    to: &mut W,
    errors: &mut E,
) -> io::Result<()> {
    let mut table = [0u8; 880];
    let _ = opening::open_table(
        b"01234\x06000471\0\0\0\0\0\0\0\0\0\0\0\0\x04\x03471\0\0\0\0\0\0\0\0\0\0\0\0\0\0\0\x04",
        &mut table,
    );
    teach(rt, from, to, errors, &table)
}

fn say_unopened<E: Write>(errors: &mut E) -> io::Result<()> {
    printing::complain(errors, b"the table's file cannot be opened\n")
}

// A table's file, of which one byte more than the longest table is read, so that a longer one shows.
fn teach_file<H: Files, S: Read + IsTerminal, W: Write, E: Write>(
    rt: &H,
    from: &mut S,
    to: &mut W,
    errors: &mut E,
    path: &[u8],
) -> io::Result<()> {
    let Ok(name) = str::from_utf8(path) else {
        return say_unopened(errors);
    };
    let Ok(mut file) = File::open(rt, name) else {
        return say_unopened(errors);
    };
    let mut table = [0u8; 65793];
    let got = printing::read_input(&mut file, &mut table);
    teach(rt, from, to, errors, &table[..got.read])
}

fn main(rt: HostRuntime) -> io::Result<()> {
    let mut from = rt.stdin();
    let mut to = rt.stdout();
    let mut errors = rt.stderr();
    let mut path = [0u8; 4096];
    match rt.arg(1, &mut path) {
        Ok(n) => teach_file(&rt, &mut from, &mut to, &mut errors, &path[..n]),
        Err(FillError::NotPresent) => teach_anew(&rt, &mut from, &mut to, &mut errors),
        Err(FillError::TooLong) => say_unopened(&mut errors),
    }
}
