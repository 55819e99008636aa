// A pen: bytes, tags, and numbers in digits, written one after the other into a lent buffer.
#![tactic(auto)]

ghost use Rattle.std.specs.Prelude.{[], ◌∷◌};
ghost use Rattle.grammar.specs.Grammar.{start_tag, end_tag};
ghost use Rattle.pen.specs.Pen.{Wrote, Room, tagged};
ghost use Rattle.pen.specs.Decimal.{digit, fixed, decimal_by, decimal, amount, dated};

use calendar::Date;

// The place after the bytes, which are written where they fit.
pub fn ink(m: &mut [u8], at: usize, x: &[u8]) -> usize
    requires { Room at x.now }
    ensures { Wrote m.old m.new at x.now result }
{
    let to = at + x.len();
    if to <= m.len() {
        words::copy_in(m, at, x);
    }
    to
}

// <name>
pub fn open_tag(m: &mut [u8], at: usize, name: &[u8]) -> usize
    requires { Room at (start_tag name.now) }
    ensures { Wrote m.old m.new at (start_tag name.now) result }
{
    let a = ink(m, at, b"<");
    let b = ink(m, a, name);
    ink(m, b, b">")
}

// </name>
pub fn close_tag(m: &mut [u8], at: usize, name: &[u8]) -> usize
    requires { Room at (end_tag name.now) }
    ensures { Wrote m.old m.new at (end_tag name.now) result }
{
    let a = ink(m, at, b"</");
    let b = ink(m, a, name);
    ink(m, b, b">")
}

// <name>text</name>
// The leaves of a text, a number, an amount and a date stay four: a writer handed over as a closure would carry its room in clauses, and be no plainer.
pub fn leaf(m: &mut [u8], at: usize, name: &[u8], text: &[u8]) -> usize
    requires { Room at (tagged name.now text.now) }
    ensures { Wrote m.old m.new at (tagged name.now text.now) result }
{
    let a = open_tag(m, at, name);
    let b = ink(m, a, text);
    close_tag(m, b, name)
}

// The last digit of n.
fn one_digit(m: &mut [u8], at: usize, n: u64) -> usize
    requires { Room at (digit n ∷ []) }
    ensures { Wrote m.old m.new at (digit n ∷ []) result }
{
    let d = [(48 + n % 10) as u8];
    ink(m, at, &d)
}

// The last w digits of n.
pub fn fixed_digits(m: &mut [u8], at: usize, n: u64, w: usize) -> usize
    requires { Room at (fixed w n) }
    ensures { Wrote m.old m.new at (fixed w n) result }
{
    if w == 0 {
        return at;
    }
    let a = fixed_digits(m, at, n / 10, w - 1);
    one_digit(m, a, n)
}

// n without leading zeros, in at most w + 1 digits.
#[tactic(auto, using(crate::proofs::Laws::decimal_none, crate::proofs::Laws::decimal_small))]
fn digits_by(m: &mut [u8], at: usize, n: u64, w: usize) -> usize
    requires { Room at (decimal_by w n) }
    ensures { Wrote m.old m.new at (decimal_by w n) result }
{
    if w == 0 || n <= 9 {
        return one_digit(m, at, n);
    }
    let a = digits_by(m, at, n / 10, w - 1);
    one_digit(m, a, n)
}

// A number of at most nine digits, without leading zeros.
pub fn decimal_digits(m: &mut [u8], at: usize, n: u64) -> usize
    requires { Room at (decimal n) }
    ensures { Wrote m.old m.new at (decimal n) result }
{
    digits_by(m, at, n, 8)
}

// An amount: euros, a point, two digits.
pub fn amount_of(m: &mut [u8], at: usize, cents: u64) -> usize
    requires { Room at (amount cents) }
    ensures { Wrote m.old m.new at (amount cents) result }
{
    let a = decimal_digits(m, at, cents / 100);
    let b = ink(m, a, b".");
    fixed_digits(m, b, cents % 100, 2)
}

// A date: YYYY-MM-DD.
pub fn date_of(m: &mut [u8], at: usize, d: Date) -> usize
    requires { Room at (dated d) }
    ensures { Wrote m.old m.new at (dated d) result }
{
    let a = fixed_digits(m, at, d.year, 4);
    let b = ink(m, a, b"-");
    let c = fixed_digits(m, b, d.month, 2);
    let e = ink(m, c, b"-");
    fixed_digits(m, e, d.day, 2)
}

// An element that holds a number, in w digits or without leading zeros, an amount, or a date.
pub fn fixed_leaf(m: &mut [u8], at: usize, name: &[u8], n: u64, w: usize) -> usize
    requires { Room at (tagged name.now (fixed w n)) }
    ensures { Wrote m.old m.new at (tagged name.now (fixed w n)) result }
{
    let a = open_tag(m, at, name);
    let b = fixed_digits(m, a, n, w);
    close_tag(m, b, name)
}

pub fn number_leaf(m: &mut [u8], at: usize, name: &[u8], n: u64) -> usize
    requires { Room at (tagged name.now (decimal n)) }
    ensures { Wrote m.old m.new at (tagged name.now (decimal n)) result }
{
    let a = open_tag(m, at, name);
    let b = decimal_digits(m, a, n);
    close_tag(m, b, name)
}

pub fn amount_leaf(m: &mut [u8], at: usize, name: &[u8], cents: u64) -> usize
    requires { Room at (tagged name.now (amount cents)) }
    ensures { Wrote m.old m.new at (tagged name.now (amount cents)) result }
{
    let a = open_tag(m, at, name);
    let b = amount_of(m, a, cents);
    close_tag(m, b, name)
}

pub fn date_leaf(m: &mut [u8], at: usize, name: &[u8], d: Date) -> usize
    requires { Room at (tagged name.now (dated d)) }
    ensures { Wrote m.old m.new at (tagged name.now (dated d)) result }
{
    let a = open_tag(m, at, name);
    let b = date_of(m, a, d);
    close_tag(m, b, name)
}
