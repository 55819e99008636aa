// What the desk's programs read and print: standard input whole, and document 01's lines. A read says whether it failed, and each print
// whether all was written.
#![tactic(auto)]

ghost use Rattle.std.specs.Counts.{IsPrefixLen};

use std::io;
use std::io::{Read, Write};

// What was read: how many bytes, and whether the last read failed.
#[derive(Clone, Copy)]
pub struct Input {
    pub read: usize,
    pub failed: bool,
}

// Reads what is to be read, as standard input, to its end, as far as there is room. A read that fails is not the end.
pub fn read_input<R: Read>(from: &mut R, buf: &mut [u8]) -> Input
    ensures { IsPrefixLen result.read buf.new }
{
    let mut done: usize = 0;
    while done < buf.len() {
        match from.read(&mut buf[done..]) {
            Ok(0) => {
                return Input {
                    read: done,
                    failed: false,
                };
            }
            Ok(more) => {
                done += more;
            }
            Err(_) => {
                return Input {
                    read: done,
                    failed: true,
                };
            }
        }
    }
    Input {
        read: done,
        failed: false,
    }
}

pub fn say<W: Write>(to: &mut W, text: &[u8]) -> io::Result<()> {
    to.write_all(text)
}

// What goes wrong around a run, on standard error: there is no exit status to give.
pub fn complain<W: Write>(errors: &mut W, text: &[u8]) -> io::Result<()> {
    errors.write_all(text)
}

// The line of a flow: code, place, orders, accepted.
pub fn say_flow<W: Write>(
    to: &mut W,
    code: u64,
    place: u64,
    orders: u64,
    accepted: u64,
) -> io::Result<()> {
    write!(to, "flow {code} {place} {orders} {accepted}\n")
}

// The line of an order, from its 16 outcome bytes: kind, operation, number, lines, total, code.
pub fn say_order<W: Write>(to: &mut W, out: &[u8; 16]) -> io::Result<()> {
    write!(
        to,
        "order {} {} {} {} {} {}\n",
        out[0],
        out[1],
        words::read4(out, 4),
        out[3],
        words::read8(out, 8),
        out[2],
    )
}

// The line of a body: its code, used slots, balance.
pub fn say_body<W: Write>(to: &mut W, code: &[u8], used: u64, balance: i64) -> io::Result<()> {
    say(to, b"body ")?;
    say(to, code)?;
    write!(to, " {used} {balance}\n")
}
