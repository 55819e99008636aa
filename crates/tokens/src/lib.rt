// The markup's smallest parts: a name, the end of a start tag, text, an end tag, bytes that may stand or not.
#![tactic(auto)]

ghost use Rattle.std.specs.Prelude.{◌≡◌, ℕ, ◌+◌, ◌-◌, ◌≤◌, ◌<◌, length};
ghost use Rattle.scan.specs.Bytes.{bytes, has_at};
ghost use Rattle.tokens.specs.Tokens.{name_at, id_at, tag_end_at, piece_at, is_plain, text_at, end_tag_at, optional_at};

use scan::Walk;

// A name at a position.
#[tactic(auto, using(scan::proofs::Laws::run_from), unfolding(crate::specs::Tokens::name_at))]
pub fn name_end(s: &[u8], at: usize) -> Walk
    requires { at ≤ length s.now }
    ensures { result ≡ name_at s.now at }
{
    if scan::is_letter(scan::byte(s, at)) {
        let e = scan::name_run(s, at);
        if e - at <= 48 {
            return Ok(e);
        }
    }
    Err(at)
}

// One Id attribute, byte for byte, and the `>` after it.
#[tactic(auto, using(scan::proofs::Laws::run_from, scan::proofs::Laws::run_within, scan::proofs::Laws::has_within), unfolding(crate::specs::Tokens::id_at))]
fn id_end(s: &[u8], at: usize) -> Walk
    requires { at ≤ length s.now }
    ensures { result ≡ id_at s.now at }
{
    if scan::has(s, at, b" Id=\"") {
        let a = at + 5;
        let e = scan::name_run(s, a);
        if matches!(e - a, 1..=64) && scan::has(s, e, b"\">") {
            return Ok(e + 2);
        }
    }
    Err(at)
}

// What stands after the name in a start tag: `>`, or before it an Id where one may stand.
#[tactic(auto, unfolding(crate::specs::Tokens::tag_end_at))]
pub fn tag_end(s: &[u8], at: usize, ids: bool) -> Walk
    requires { at ≤ length s.now }
    ensures { result ≡ tag_end_at ids s.now at }
{
    if scan::byte(s, at) == b'>' {
        Ok(at + 1)
    } else if ids {
        id_end(s, at)
    } else {
        Err(at)
    }
}

// Whether an end tag begins here.
pub fn closes(s: &[u8], at: usize) -> bool
    requires { at ≤ length s.now }
    ensures { result ≡ has_at (bytes "</") s.now at }
{
    scan::has(s, at, b"</")
}

// One piece of a text: a reference or a character.
#[tactic(auto, unfolding(crate::specs::Tokens::piece_at))]
fn piece(s: &[u8], at: usize) -> Walk
    requires { at ≤ length s.now }
    ensures { result ≡ piece_at s.now at }
{
    if scan::byte(s, at) == b'&' {
        scan::reference(s, at)
    } else if scan::has(s, at, b"]]>") {
        Err(at)
    } else {
        scan::character(s, at)
    }
}

// A byte that is a piece of a text by itself, wherever it stands.
#[tactic(auto, unfolding(crate::specs::Tokens::is_plain))]
fn is_plain(b: u8) -> bool
    ensures { result ≡ is_plain b }
{
    matches!(b, 0x20..=0x7f) && b != b'&' && b != b']'
}

// Past the plain bytes and up to what is not plain.
#[tactic(auto, using(crate::proofs::Laws::text_plain))]
fn plain_end(s: &[u8], at: usize) -> usize
    requires { at ≤ length s.now }
    ensures { (at ≤ result) × (result ≤ length s.now) × (text_at s.now at ≡ text_at s.now result) }
{
    for i in at..s.len() {
        if s[i] == b'<' || !is_plain(s[i]) {
            return i;
        }
    }
    s.len()
}

// A text, up to the `<` where it ends.
pub fn text(s: &[u8], at: usize) -> Walk
    requires { at ≤ length s.now }
    ensures { result ≡ text_at s.now at }
{
    let mut i = plain_end(s, at);
    while scan::byte(s, i) != b'<' {
        match piece(s, i) {
            Ok(q) => {
                i = plain_end(s, q);
            }
            Err(p) => {
                return Err(p);
            }
        }
    }
    Ok(i)
}

// The end tag, at p, of the name that stands from a up to e.
#[tactic(auto, using(crate::proofs::Laws::end_inside), unfolding(crate::specs::Tokens::end_tag_at))]
pub fn end_tag(s: &[u8], a: usize, e: usize, p: usize) -> Walk
    requires { (a ≤ e) × (e ≤ length s.now) × (p ≤ length s.now) }
    ensures { result ≡ end_tag_at s.now a e p }
{
    if closes(s, p) {
        let b = p + 2;
        let n = e - a;
        if scan::has(s, b, &s[a..e]) && n < s.len() - b && s[b + n] == b'>' {
            return Ok(b + n + 1);
        }
    }
    Err(p)
}

// Past the bytes x where they stand here, else here.
#[tactic(auto, unfolding(crate::specs::Tokens::optional_at))]
pub fn optional(s: &[u8], at: usize, x: &[u8]) -> usize
    requires { at ≤ length s.now }
    ensures { result ≡ optional_at x.now s.now at }
{
    if scan::has(s, at, x) {
        at + x.len()
    } else {
        at
    }
}
