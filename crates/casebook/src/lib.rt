// For programs that print answers, and for those that run cases from a file: lines of columns between tabs, in which \hh stands for the byte hh in
// hexadecimal digits.
#![tactic(auto)]

ghost use Rattle.std.specs.Prelude.{◌≡◌, ◌+◌, ◌*◌, ◌%◌, ◌≤◌, ◌<◌, length, IfOk};
ghost use Rattle.std.specs.Iterator.{at_most};
ghost use Rattle.std.specs.Counts.{IsPrefixLen};

use std::io;
use std::io::{Read, Write};

// Reads until buf is full or the input ends: how many bytes stand at its start.
pub fn read_full<R: Read>(from: &mut R, buf: &mut [u8]) -> io::Result<usize>
    ensures { IfOk result (λ n. IsPrefixLen n buf.new) }
{
    let mut done: usize = 0;
    while done < buf.len() {
        let more = from.read(&mut buf[done..])?;
        if more == 0 {
            return Ok(done);
        }
        done += more;
    }
    Ok(done)
}

pub fn say<W: Write>(to: &mut W, text: &[u8]) -> io::Result<()> {
    to.write_all(text)
}

// The outcome of one order, from its 16 bytes: kind, operation, number, lines, total, code.
fn say_outcome<W: Write>(to: &mut W, out: &[u8; 16]) -> io::Result<()> {
    write!(
        to,
        " {} {} {} {} {} {}",
        out[0],
        out[1],
        words::read4(out, 4),
        out[3],
        words::read8(out, 8),
        out[2],
    )
}

// The outcomes of so many orders, each after a comma: the bytes past them.
pub fn say_outcomes<'a, W: Write>(to: &mut W, out: &'a [u8], orders: u64) -> io::Result<&'a [u8]>
    ensures { IfOk result (λ rest. length rest.now ≤ length out.now) }
{
    let mut rest = out;
    for _ in 0..orders {
        let Some((order, others)) = rest.split_first_chunk::<16>() else {
            return Ok(rest);
        };
        say(to, b",")?;
        say_outcome(to, order)?;
        rest = others;
    }
    Ok(rest)
}

// The lines of a text, without their ends.
#[derive(Drop)]
pub struct Lines<'a> {
    rest: &'a [u8],
}

pub fn lines_of(text: &[u8]) -> Lines<'_>
    ensures { result.rest.now ≡ text.now }
{
    Lines { rest: text }
}

impl<'a> Iterator for Lines<'a> {
    type Item = &'a [u8];

    ghost remaining = { λ s. at_most (length s.rest.now) };

    fn next(&mut self) -> Option<&'a [u8]> {
        if self.rest.is_empty() {
            return None;
        }
        let rest = self.rest;
        match rest.iter().position(|&b| b == b'\n') {
            Some(end) => {
                self.rest = &rest[end + 1..];
                Some(&rest[..end])
            }
            None => {
                self.rest = b"";
                Some(rest)
            }
        }
    }
}

// Column k of a line, as it is written; empty where there are fewer.
pub fn column(line: &[u8], k: usize) -> &[u8]
    ensures { length result.now ≤ length line.now }
{
    line.split(|&b| b == b'\t').nth(k).unwrap_or(b"")
}

// A hexadecimal digit's value.
fn digit(b: u8) -> u8
    ensures { result ≤ 15 }
{
    match b {
        b'0'..=b'9' => b - b'0',
        b'a'..=b'f' => b - b'a' + 10,
        _ => 0,
    }
}

// Writes what a column stands for into out, as far as it has room: how many bytes that is.
fn unescape(column: &[u8], out: &mut [u8]) -> usize
    ensures { IsPrefixLen result out.new }
{
    let mut rest = column;
    let mut n = 0;
    while n < out.len() {
        match rest {
            [] => {
                return n;
            }
            [b'\\', high, low, others @ ..] => {
                out[n] = digit(*high) * 16 + digit(*low);
                rest = others;
            }
            // Too few bytes behind it: it stands for itself, and ends the column.
            [b'\\', ..] => {
                out[n] = b'\\';
                rest = b"";
            }
            [b, others @ ..] => {
                out[n] = *b;
                rest = others;
            }
        }
        n += 1;
    }
    n
}

// Writes what column k stands for into out: how many bytes that is.
pub fn bytes(line: &[u8], k: usize, out: &mut [u8]) -> usize
    ensures { IsPrefixLen result out.new }
{
    unescape(column(line, k), out)
}

// The number v followed by a digit, as far as there is room.
pub fn more(v: u64, b: u8) -> u64
    ensures { (v ≤ 1000000000000000000 → result ≡ v * 10 + b % 16) × (1000000000000000000 < v → result ≡ v) }
{
    if 1000000000000000000 < v {
        v
    } else {
        v * 10 + u64::from(b) % 16
    }
}

// Column k as a number.
pub fn number(line: &[u8], k: usize) -> u64 {
    column(line, k).iter().fold(0, |v, &b| more(v, b))
}

// What a case expects, its last column, at the end of a line.
pub fn say_expected<W: Write>(to: &mut W, line: &[u8]) -> io::Result<()> {
    let expected = line.rsplit(|&b| b == b'\t').next().unwrap_or(line);
    say(to, b"; expected ")?;
    say(to, expected)?;
    say(to, b"\n")
}
