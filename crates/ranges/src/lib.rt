// Tests of the bytes from one index of a buffer up to another, and the answer of a search.
#![tactic(auto)]

ghost use Rattle.std.specs.Prelude.{◌≡◌, ◌≤◌, length};
ghost use Rattle.scan.specs.Bytes.{part, all};
ghost use Rattle.ranges.specs.Ranges.{zeros, is_identifying, is_of, is_nothing};

// What the bytes of a code, an identifier or an empty place may be.
#[derive(Clone, Copy)]
pub enum Class {
    Digits,
    Alphanumeric,
    Identifying,
    Zero,
}

pub fn is_nothing(f: Option<usize>) -> bool
    ensures { result ≡ is_nothing f }
{
    f.is_none()
}

#[tactic(auto, unfolding(crate::specs::Ranges::is_identifying))]
fn is_identifying(b: u8) -> bool
    ensures { result ≡ is_identifying b }
{
    scan::is_alnum(b) || matches!(b, b'-' | b'_' | b'.')
}

fn is_of(c: Class, b: u8) -> bool
    ensures { result ≡ is_of c b }
{
    match c {
        Class::Digits => scan::is_digit(b),
        Class::Alphanumeric => scan::is_alnum(b),
        Class::Identifying => is_identifying(b),
        Class::Zero => b == 0,
    }
}

// Whether the bytes from a up to e are all of a class.
pub fn are_of(t: &[u8], a: usize, e: usize, c: Class) -> bool
    requires { (a ≤ e) × (e ≤ length t.now) }
    ensures { result ≡ all (is_of c) (part t.now a e) }
{
    t[a..e].iter().all(|&b| is_of(c, b))
}

// Whether the bytes from a up to e are zero: whether the greatest is. The fold stops nowhere before its end, so that many bytes are compared at once.
pub fn are_zero(t: &[u8], a: usize, e: usize) -> bool
    requires { (a ≤ e) × (e ≤ length t.now) }
    ensures { result ≡ zeros t.now a e }
{
    t[a..e].iter().fold(0, |top, &b| b.max(top)) == 0
}
