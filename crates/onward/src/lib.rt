// Content read as far as it stands: markup, structure and fields in one pass. Where anything else stands it ends, and the general readers go on from there;
// so nothing is promised of an early end: it costs time, never an answer.
#![tactic(auto)]

ghost use Rattle.std.specs.Prelude.{◌≡◌, ◌+◌, ◌≤◌, ◌<◌, length};
ghost use Rattle.scan.specs.Bytes.{bytes, has_at};
ghost use Rattle.markup.specs.Noted.{Noted};
ghost use Rattle.onward.specs.Onward.{Reaches, Unless, Starts, Passed, Told, Tagged, Inner, Ended, Taken};

use fields::Form;
use schema::{Holds, Parent};

// How far content was read: up to a place; `row` is the last named child's, and `count` how many stand in it.
#[derive(Clone, Copy)]
pub struct Reached {
    pub at: usize,
    pub row: usize,
    pub count: usize,
}

// What begins at a place: a start tag that the parent names, with the place of its `>`, its row and what it holds; an element that the parent does not
// name; or anything else.
#[derive(Clone, Copy)]
enum Start {
    Named(usize, usize, Holds),
    Unnamed,
    Other,
}

// What begins at a place, by its name.
fn start_by_name(s: &[u8], i: usize, parent: Parent) -> Start
    requires { i ≤ length s.now }
    ensures { Starts parent s.now i result }
{
    if scan::byte(s, i) != b'<' {
        return Start::Other;
    }
    let a = i + 1;
    let Ok(e) = tokens::name_end(s, a) else {
        return Start::Other;
    };
    match rows::spot_of(s, a, e, parent) {
        Some((row, h)) if scan::byte(s, e) == b'>' => Start::Named(e, row, h),
        Some(_) => Start::Other,
        None => Start::Unnamed,
    }
}

// The same: where the tag of the row `want` stands, no other name is compared.
fn start_at(s: &[u8], i: usize, parent: Parent, want: usize) -> Start
    requires { i ≤ length s.now }
    ensures { Starts parent s.now i result }
{
    match tags::expected(s, i, parent, want) {
        Some((e, row, h)) => Start::Named(e, row, h),
        None => start_by_name(s, i, parent),
    }
}

// Past the element whose `<` stands at i, and the white space after it; 0 where it breaks.
fn passed(s: &[u8], i: usize, depth: usize, past: &mut [u32]) -> usize
    requires { (i < length s.now) × (depth ≤ 12) × Noted s.now past.old }
    ensures { Unless result (Passed depth s.now i result) × Noted s.now past.new }
{
    match markup::element(s, i + 1, depth, past) {
        Ok(q) => scan::white_end(s, q),
        Err(_) => 0,
    }
}

// The end of a text that has its field's form, or 0.
fn field(s: &[u8], at: usize, f: Form) -> usize
    requires { at ≤ length s.now }
    ensures { Unless result (Told f s.now at result) }
{
    let Ok(p) = tokens::text(s, at) else {
        return 0;
    };
    match fields::value_of(f, &s[at..p]) {
        Some(_) => p,
        None => 0,
    }
}

// Past an element's end tag at p and the white space after it, or 0. Its name stands from a up to e, and what it holds ends at p if an end tag stands there;
// the tag is compared with the start tag's own bytes.
fn ended(s: &[u8], a: usize, e: usize, p: usize, past: &mut [u32]) -> usize
    requires { Tagged s.now a e × (p ≤ length s.now) × Inner 11 s.now e p × Noted s.now past.old }
    ensures { Unless result (Ended s.now a e p result) × Noted s.now past.new }
{
    if !tokens::closes(s, p) {
        return 0;
    }
    let b = p + 2;
    let z = e + 1;
    if !tags::stands(s, b, &s[a..z]) {
        return 0;
    }
    let q = b + (z - a);
    markup::note(past, a, e, q);
    scan::white_end(s, q)
}

// A named child whose start tag ends at e, past its end tag and white space, or 0: it holds what its row says, of at most d levels.
#[cycle(child_onward)]
fn child(s: &[u8], i: usize, e: usize, h: Holds, d: usize, depth: usize, past: &mut [u32]) -> usize
    requires { Tagged s.now (i + 1) e × (1 ≤ d) × (1 ≤ depth) × (depth ≤ 12) × Noted s.now past.old }
    ensures { Unless result (Taken d depth s.now i e h result) × Noted s.now past.new }
{
    let inner = e + 1;
    match h {
        Holds::Text(f) => {
            let p = field(s, inner, f);
            if p == 0 {
                return 0;
            }
            ended(s, i + 1, e, p, past)
        }
        Holds::Rows(q) => {
            if d == 1 {
                return 0;
            }
            let parent = rows::rows_for(s, inner, q, past);
            let r = onward(s, inner, parent, d - 1, depth - 1, past);
            if r.count == 0 {
                return 0;
            }
            if !structure::in_turn(parent, r.row, r.count, structure::rows(parent)) {
                return 0;
            }
            ended(s, i + 1, e, r.at, past)
        }
    }
}

// The content at a place, of at most d levels of the structure and `depth` of the markup, as far as it stands. The row after the last one is expected.
#[cycle(child_onward)]
pub fn onward(s: &[u8], at: usize, p: Parent, d: usize, depth: usize, past: &mut [u32]) -> Reached
    requires { (at ≤ length s.now) × (1 ≤ d) × (depth ≤ 12) × Noted s.now past.old }
    ensures { Reaches d depth p s.now at result × Noted s.now past.new }
{
    let mut i = scan::white_end(s, at);
    let mut row: usize = 0;
    let mut count: usize = 0;
    let mut want: usize = 0;
    if depth == 0 {
        return Reached { at: i, row, count };
    }
    loop {
        match start_at(s, i, p, want) {
            Start::Named(e, next, h) => {
                if !structure::in_turn(p, row, count, next) {
                    return Reached { at: i, row, count };
                }
                let j = child(s, i, e, h, d, depth, past);
                if j == 0 {
                    return Reached { at: i, row, count };
                }
                count = structure::counted(row, count, next);
                row = next;
                want = next + 1;
                i = j;
            }
            Start::Unnamed => {
                let j = passed(s, i, depth, past);
                if j == 0 {
                    return Reached { at: i, row, count };
                }
                i = j;
            }
            Start::Other => {
                return Reached { at: i, row, count };
            }
        }
    }
}
