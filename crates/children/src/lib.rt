// The children of an element. A child is looked up in the markup pass's notes, and not read again.
#![tactic(auto)]

ghost use Rattle.std.specs.Prelude.{◌≡◌, ◌+◌, ◌-◌, ◌≤◌, ◌<◌, length};
ghost use Rattle.markup.specs.Noted.{Noted};
ghost use Rattle.children.specs.Child.{child_at, child_to, FieldPromise, NamePromise, TextPromise};

// An element: its `<`, the end of its name, the `<` of its end tag, and the place past it and the white space after it.
#[derive(Clone, Copy)]
pub struct Child {
    pub lt: usize,
    pub gt: usize,
    pub to: usize,
    pub after: usize,
}

// Where a field's name and its text stand in the flow: places and lengths, all zero where no field does.
#[derive(Clone, Copy)]
pub struct FieldSpans {
    pub name: usize,
    pub name_len: usize,
    pub text: usize,
    pub text_len: usize,
}

// The child at a position, read with no notes at hand.
pub fn child_alone(s: &[u8], i: usize) -> Option<Child>
    requires { i ≤ length s.now }
    ensures { result ≡ child_at s.now i }
{
    if scan::byte(s, i) != b'<' {
        return None;
    }
    let e = tokens::name_end(s, i + 1).ok()?;
    if scan::byte(s, e) != b'>' {
        return None;
    }
    let p = markup::content_alone(s, e + 1).ok()?;
    let q = tokens::end_tag(s, i + 1, e, p).ok()?;
    let after = scan::white_end(s, q);
    Some(Child {
        lt: i,
        gt: e,
        to: p,
        after,
    })
}

// The child at a position whose name's end and whose own end are known: its end tag is as long as its name and three bytes.
fn child_to(s: &[u8], i: usize, e: usize, q: usize) -> Child
    requires { (i ≤ e) × (e - i + 2 ≤ q) × (q ≤ length s.now) }
    ensures { result ≡ child_to s.now i e q }
{
    let after = scan::white_end(s, q);
    Child {
        lt: i,
        gt: e,
        to: q - (e - i) - 2,
        after,
    }
}

// The child at a position, by the notes of the markup pass.
pub fn child_at(s: &[u8], i: usize, past: &[u32]) -> Option<Child>
    requires { (i ≤ length s.now) × Noted s.now past.now }
    ensures { result ≡ child_at s.now i }
{
    if scan::byte(s, i) != b'<' {
        return None;
    }
    match markup::note_at(past, i + 1) {
        Some((k, q)) => Some(child_to(s, i, i + 1 + k, q)),
        None => child_alone(s, i),
    }
}

// Where name and text stand of the element whose `<` stands at a place.
pub fn field_at(s: &[u8], place: usize) -> FieldSpans
    ensures { FieldPromise s.now place result }
{
    let none = FieldSpans {
        name: 0,
        name_len: 0,
        text: 0,
        text_len: 0,
    };
    if s.len() < place {
        return none;
    }
    match child_alone(s, place) {
        Some(c) => {
            let name = c.lt + 1;
            let text = c.gt + 1;
            FieldSpans {
                name,
                name_len: c.gt - name,
                text,
                text_len: c.to - text,
            }
        }
        None => none,
    }
}

// The name of the element whose `<` stands at a place, as the part of the flow itself; empty where none does.
pub fn name_at(s: &[u8], place: usize) -> &[u8]
    ensures { NamePromise s.now place result.now }
{
    let w = field_at(s, place);
    &s[w.name..w.name + w.name_len]
}

// The text of the element whose `<` stands at a place, likewise.
pub fn text_at(s: &[u8], place: usize) -> &[u8]
    ensures { TextPromise s.now place result.now }
{
    let w = field_at(s, place);
    &s[w.text..w.text + w.text_len]
}
