// A clerk's line: how it is read from standard input, and what it says: its words, and the numbers, kinds and dates that they write.
#![tactic(auto)]

ghost use Rattle.std.specs.Prelude.{◌≡◌, ◌≤◌, length, IfOk, OnErr};
ghost use Rattle.std.specs.Counts.{IsPrefixLen};

use calendar::Date;
use std::io;
use std::io::Read;

// A line that was read: its length, and whether the input goes on.
#[derive(Clone, Copy)]
pub struct Line {
    pub size: usize,
    pub more: bool,
}

// A tab, or the CR before a line's end, parts words as a space does.
fn blank(b: u8) -> u8 {
    if matches!(b, b'\t' | b'\r') { b' ' } else { b }
}

fn next_byte<R: Read>(from: &mut R) -> io::Result<Option<u8>> {
    let mut one = [0u8; 1];
    let got = from.read(&mut one)?;
    if got == 1 {
        Ok(Some(blank(one[0])))
    } else {
        Ok(None)
    }
}

// Reads a line without its end; of one that is longer than there is room, the rest is another.
pub fn read_line<R: Read>(from: &mut R, buf: &mut [u8]) -> io::Result<Line>
    ensures ok { IfOk result (λ line. IsPrefixLen line.size buf.new) }
    ensures err { OnErr result (length buf.new ≡ length buf.old) }
{
    let mut n: usize = 0;
    while n < buf.len() {
        match next_byte(from)? {
            None => {
                return Ok(Line {
                    size: n,
                    more: false,
                });
            }
            Some(b) => {
                if b == b'\n' {
                    return Ok(Line {
                        size: n,
                        more: true,
                    });
                }
                buf[n] = b;
            }
        }
        n += 1;
    }
    Ok(Line {
        size: n,
        more: true,
    })
}

// What stands past the white space that a text begins with.
#[tactic(auto, using(scan::proofs::Laws::run_within))]
fn past_white(s: &[u8]) -> &[u8]
    ensures { length result.now ≤ length s.now }
{
    &s[scan::white_end(s, 0)..]
}

// Word k of a line, the first being 0: empty where there are fewer.
pub fn word(line: &[u8], k: usize) -> &[u8] {
    line.split(|&b| b == b' ')
        .map(|w| past_white(w))
        .filter(|w| !w.is_empty())
        .nth(k)
        .unwrap_or(b"")
}

// The number that a word writes in decimal digits; 0, which nothing has, where it writes none.
pub fn value_of(w: &[u8]) -> u64 {
    let mut v: u64 = 0;
    for &b in w {
        if !b.is_ascii_digit() {
            return 0;
        }
        v = casebook::more(v, b);
    }
    v
}

// An order's kind, by its name or its number.
pub fn kind_of(w: &[u8]) -> u64 {
    match w {
        b"mandato" => 1,
        b"reversale" => 2,
        _ => value_of(w),
    }
}

// The date that a word writes as YYYY-MM-DD; day 0 of no month where it writes none.
pub fn date_of(w: &[u8]) -> Date {
    if w.len() == 10 && w[4] == b'-' && w[7] == b'-' {
        Date {
            year: value_of(&w[..4]),
            month: value_of(&w[5..7]),
            day: value_of(&w[8..]),
        }
    } else {
        Date {
            year: 0,
            month: 0,
            day: 0,
        }
    }
}
