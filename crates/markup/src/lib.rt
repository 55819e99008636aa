// The markup of a flow or of another document: element and content readers, which call each other, and the whole. What is read is noted, so that later passes
// look a child's name and end up instead of walking it again.
#![tactic(auto)]

ghost use Rattle.std.specs.Prelude.{◌≡◌, ℕ, ◌+◌, ◌-◌, ◌≤◌, ◌<◌, length};
ghost use Rattle.markup.specs.Markup.{element_at, children_by, content_at, closed_by, markup_of};
ghost use Rattle.markup.specs.Inner.{opened_of};
ghost use Rattle.markup.specs.Noted.{Noted, note_of, note_in};

use scan::Walk;

// A whole document: where its root's `<` stands, where its root's name ends and where its content begins; or where the markup breaks.
pub type Markup = Result<(usize, usize, usize), usize>;

// Notes an element's end q and its name's end e of a place, where there is room for it and q fits 16 bits.
pub fn note(past: &mut [u32], at: usize, e: usize, q: usize)
    requires { (at ≤ e) × (e ≤ at + 48) }
    ensures { past.new ≡ note_in past.old at e q }
{
    let i = at / 4;
    if i < past.len() && q <= 65535 {
        past[i] = (q + 65536 * (e - at + 64 * (at % 4 + 1))) as u32;
    }
}

// What is noted of a place: its name's length and its element's end.
pub fn note_at(past: &[u32], at: usize) -> Option<(usize, usize)>
    ensures { result ≡ note_of past.now at }
{
    let n = *past.get(at / 4)? as usize;
    if n / 4194304 == at % 4 + 1 {
        Some((n / 65536 % 64, n % 65536))
    } else {
        None
    }
}

// An element, after its `<`: the place past it, or where the markup breaks. Where it stands, that place and its name's end are noted at the place after its `<`.
#[cycle(children_content_element)]
pub fn element(s: &[u8], at: usize, depth: usize, past: &mut [u32]) -> Walk
    requires { (at ≤ length s.now) × (depth ≤ 12) × Noted s.now past.old }
    ensures { (result ≡ element_at depth s.now at) × Noted s.now past.new }
{
    if depth == 0 {
        return Err(at);
    }
    let e = tokens::name_end(s, at)?;
    if scan::byte(s, e) != b'>' {
        return Err(e);
    }
    let p = content(s, e + 1, depth - 1, past)?;
    let q = tokens::end_tag(s, at, e, p)?;
    note(past, at, e, q);
    Ok(q)
}

// What an element holds: the place of its end tag's `<`, or where the markup breaks.
#[cycle(children_content_element)]
pub fn content(s: &[u8], at: usize, depth: usize, past: &mut [u32]) -> Walk
    requires { (at ≤ length s.now) × (depth ≤ 12) × Noted s.now past.old }
    ensures { (result ≡ content_at depth s.now at) × Noted s.now past.new }
{
    let w = scan::white_end(s, at);
    if scan::byte(s, w) != b'<' || scan::byte(s, w + 1) == b'/' {
        tokens::text(s, at)
    } else {
        children(s, w, depth, past)
    }
}

// Children from a place on: the place of the next `</`, or where the markup breaks.
#[cycle(children_content_element)]
pub fn children(s: &[u8], at: usize, depth: usize, past: &mut [u32]) -> Walk
    requires { (at ≤ length s.now) × (depth ≤ 12) × Noted s.now past.old }
    ensures { (result ≡ children_by (element_at depth s.now) s.now at) × Noted s.now past.new }
{
    let mut i = at;
    while !tokens::closes(s, i) {
        if scan::byte(s, i) != b'<' {
            return Err(i);
        }
        let q = element(s, i + 1, depth, past)?;
        i = scan::white_end(s, q);
    }
    Ok(i)
}

// All up to the root's content: where the root's `<` stands, where its name ends and where its content begins, or where the markup breaks. An Id may stand on
// the root or not.
pub fn open(s: &[u8], ids: bool) -> Markup
    ensures { result ≡ opened_of ids s.now }
{
    let a = tokens::optional(s, 0, b"\xef\xbb\xbf");
    let d = tokens::optional(s, a, b"<?xml version=\"1.0\" encoding=\"UTF-8\"?>");
    let lt = scan::white_end(s, d);
    if scan::byte(s, lt) != b'<' {
        return Err(lt);
    }
    let e = tokens::name_end(s, lt + 1)?;
    let c = tokens::tag_end(s, e, ids)?;
    Ok((lt, e, c))
}

// All after the root's content: the root's three places again, or where the markup breaks. The root is nobody's child, so nothing is noted of it itself.
pub fn close(s: &[u8], lt: usize, e: usize, c: usize, inside: Walk) -> Markup
    requires { (lt + 1 ≤ e) × (e ≤ length s.now) × (inside ≡ content_at 11 s.now c) }
    ensures { result ≡ closed_by s.now lt e c inside }
{
    let q = tokens::end_tag(s, lt + 1, e, inside?)?;
    let z = scan::white_end(s, q);
    if z == s.len() { Ok((lt, e, c)) } else { Err(z) }
}

// The markup of a whole document, on whose root an Id may stand or not: the root's three places, or where the markup breaks. The notes are for later passes.
pub fn markup_noted(s: &[u8], ids: bool, past: &mut [u32]) -> Markup
    requires { Noted s.now past.old }
    ensures { (result ≡ markup_of ids s.now) × Noted s.now past.new }
{
    let (lt, e, c) = open(s, ids)?;
    let inside = content(s, c, 11, past);
    close(s, lt, e, c, inside)
}

// The same with nothing noted: any bytes of any length.
pub fn markup_of(s: &[u8], ids: bool) -> Markup
    ensures { result ≡ markup_of ids s.now }
{
    let mut none = [0u32; 1];
    markup_noted(s, ids, &mut none)
}

// As `content`, with no notes at hand.
pub fn content_alone(s: &[u8], at: usize) -> Walk
    requires { at ≤ length s.now }
    ensures { result ≡ content_at 12 s.now at }
{
    let mut none = [0u32; 1];
    content(s, at, 12, &mut none)
}
