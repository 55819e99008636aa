// The bytes of a flow: a byte at a position, classes of bytes, runs, fixed byte strings compared against the flow, parts of the flow, one
// UTF-8 character that XML allows, and one of the five references. Everything above reads the flow through these.
#![tactic(auto)]

ghost use Rattle.std.specs.Prelude.{◌≡◌, ℕ, ◌+◌, ◌-◌, ◌≤◌, ◌<◌, length, take, drop};
ghost use Rattle.scan.specs.Bytes.{byte_at, part, is_letter, is_digit, is_alnum, is_name_byte, is_white, run_end, has_at, text_is};
ghost use Rattle.scan.specs.Characters.{is_char, sized, is_tail, char_size, char_at};
ghost use Rattle.scan.specs.References.{ref_at};

// Where a reader stands when it is done, or the place at which what it reads breaks.
pub type Walk = Result<usize, usize>;

// The byte at a position, 0 past the end.
pub fn byte(s: &[u8], at: usize) -> u8
    ensures { result ≡ byte_at s.now at }
{
    s.get(at).copied().unwrap_or(0)
}

#[tactic(auto, unfolding(crate::specs::Bytes::is_letter))]
pub fn is_letter(b: u8) -> bool
    ensures { result ≡ is_letter b }
{
    matches!(b, b'A'..=b'Z' | b'a'..=b'z')
}

#[tactic(auto, unfolding(crate::specs::Bytes::is_digit))]
pub fn is_digit(b: u8) -> bool
    ensures { result ≡ is_digit b }
{
    matches!(b, b'0'..=b'9')
}

#[tactic(auto, unfolding(crate::specs::Bytes::is_alnum))]
pub fn is_alnum(b: u8) -> bool
    ensures { result ≡ is_alnum b }
{
    is_letter(b) || is_digit(b)
}

// Small letters come first, by a test of their own: most bytes of a tag are, and one test of all four kinds is slower.
#[tactic(auto, unfolding(crate::specs::Bytes::is_name_byte, crate::specs::Bytes::is_letter, crate::specs::Bytes::is_digit))]
pub fn is_name_byte(b: u8) -> bool
    ensures { result ≡ is_name_byte b }
{
    if b'a' <= b {
        b <= b'z'
    } else {
        matches!(b, b'A'..=b'Z' | b'0'..=b'9' | b'_')
    }
}

#[tactic(auto, unfolding(crate::specs::Bytes::is_white))]
pub fn is_white(b: u8) -> bool
    ensures { result ≡ is_white b }
{
    matches!(b, b' ' | b'\t' | b'\n' | b'\r')
}

// The end of the run of name bytes that starts at a position.
pub fn name_run(s: &[u8], at: usize) -> usize
    requires { at ≤ length s.now }
    ensures { result ≡ run_end is_name_byte s.now at }
{
    at + s[at..].iter().take_while(|&&b| is_name_byte(b)).count()
}

pub fn white_end(s: &[u8], at: usize) -> usize
    requires { at ≤ length s.now }
    ensures { result ≡ run_end is_white s.now at }
{
    at + s[at..].iter().take_while(|&&b| is_white(b)).count()
}

// Whether the bytes x stand at a position.
pub fn has(s: &[u8], at: usize, x: &[u8]) -> bool
    requires { at ≤ length s.now }
    ensures { result ≡ has_at x.now s.now at }
{
    s[at..].starts_with(x)
}

// Whether a text is x: the same bytes and no other.
#[tactic(auto, using(crate::proofs::Laws::text_is_eq))]
pub fn same(t: &[u8], x: &[u8]) -> bool
    ensures { result ≡ text_is x.now t.now }
{
    t == x
}

#[tactic(auto, unfolding(crate::specs::Characters::is_char))]
fn is_char(v: u32) -> bool
    ensures { result ≡ is_char v }
{
    matches!(v, 0x09 | 0x0a | 0x0d | 0x20..=0xd7ff | 0xe000..=0xfffd | 0x10000..=0x10ffff)
}

#[tactic(auto, unfolding(crate::specs::Characters::sized))]
fn size_of(n: usize, least: u32, v: u32) -> usize
    ensures { result ≡ sized n least v }
{
    if least <= v && is_char(v) { n } else { 0 }
}

#[tactic(auto, unfolding(crate::specs::Characters::is_tail))]
fn is_tail(b: u8) -> bool
    ensures { result ≡ is_tail b }
{
    matches!(b, 0x80..=0xbf)
}

// How many bytes the character has that begins with these four, 0 where there is none.
#[tactic(auto, using(crate::proofs::Laws::tail_low), unfolding(crate::specs::Characters::char_size))]
fn char_size(a: u8, b: u8, c: u8, d: u8) -> usize
    ensures { result ≡ char_size a b c d }
{
    let (w, x, y, z) = (u32::from(a), u32::from(b), u32::from(c), u32::from(d));
    match a {
        0..=0x7f => size_of(1, 0, w),
        0xc0..=0xdf if is_tail(b) => size_of(2, 0x80, (w - 0xc0) * 0x40 + (x - 0x80)),
        0xe0..=0xef if is_tail(b) && is_tail(c) => size_of(
            3,
            0x800,
            (w - 0xe0) * 0x1000 + (x - 0x80) * 0x40 + (y - 0x80),
        ),
        0xf0..=0xf7 if is_tail(b) && is_tail(c) && is_tail(d) => size_of(
            4,
            0x10000,
            (w - 0xf0) * 0x40000 + (x - 0x80) * 0x1000 + (y - 0x80) * 0x40 + (z - 0x80),
        ),
        _ => 0,
    }
}

// Past the character at a position.
#[tactic(auto, using(crate::proofs::Laws::char_none, crate::proofs::Laws::char_some, crate::proofs::Laws::char_in_flow))]
pub fn character(s: &[u8], at: usize) -> Walk
    requires { at ≤ length s.now }
    ensures { result ≡ char_at s.now at }
{
    match char_size(
        byte(s, at),
        byte(s, at + 1),
        byte(s, at + 2),
        byte(s, at + 3),
    ) {
        0 => Err(at),
        n => Ok(at + n),
    }
}

// Past the reference at a position.
#[tactic(auto, unfolding(crate::specs::References::ref_at, crate::specs::References::which_at))]
pub fn reference(s: &[u8], at: usize) -> Walk
    requires { at ≤ length s.now }
    ensures { result ≡ ref_at s.now at }
{
    if has(s, at, b"&amp;") {
        Ok(at + 5)
    } else if has(s, at, b"&lt;") || has(s, at, b"&gt;") {
        Ok(at + 4)
    } else if has(s, at, b"&quot;") || has(s, at, b"&apos;") {
        Ok(at + 6)
    } else {
        Err(at)
    }
}
