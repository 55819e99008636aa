// The parts of an element, in one walk over its named children: for each row of its table where the first child there stands.
#![tactic(auto)]

ghost use Rattle.std.specs.Prelude.{◌≡◌, ◌≤◌, length};
ghost use Rattle.scan.specs.Bytes.{part};
ghost use Rattle.markup.specs.Noted.{Noted};
ghost use Rattle.rows.specs.Kept.{kept_from, next_of};
ghost use Rattle.orders.specs.Orders.{in_row};
ghost use Rattle.parts.specs.Parts.{parts_in};

use rows::Kept;
use schema::Parent;

// Where a child stands: the place of its `<`, and its text; zeros where there is none.
#[derive(Clone, Copy)]
pub struct Span {
    pub lt: usize,
    pub from: usize,
    pub to: usize,
}

// The part of the message itself, not a copy.
pub fn text_at(s: &[u8], w: Span) -> &[u8]
    requires { (w.from ≤ w.to) × (w.to ≤ length s.now) }
    ensures { result.now ≡ part s.now w.from w.to }
{
    &s[w.from..w.to]
}

// The first child from a place on that stands in a row of the parent.
pub fn next_row(s: &[u8], from: usize, parent: Parent, row: usize, past: &[u32]) -> Option<Kept>
    requires { (from ≤ length s.now) × Noted s.now past.now }
    ensures { result ≡ next_of (in_row row (kept_from parent s.now from)) }
{
    let mut i = from;
    while let Some(k) = rows::next_named(s, i, parent, past) {
        if k.row == row {
            return Some(k);
        }
        i = k.child.after;
    }
    None
}

// The children of the first nine rows, from a place on.
pub fn parts_of(s: &[u8], from: usize, parent: Parent, past: &[u32]) -> [Span; 9]
    requires { (from ≤ length s.now) × Noted s.now past.now }
    ensures { result ≡ parts_in (kept_from parent s.now from) }
{
    let none = Span {
        lt: 0,
        from: 0,
        to: 0,
    };
    let mut each: [Span; 9] = [none; 9];
    let mut i = from;
    while let Some(k) = rows::next_named(s, i, parent, past) {
        let c = k.child;
        let row = k.row;
        if row < 9 && each[row].to == 0 {
            each[row] = Span {
                lt: c.lt,
                from: c.gt + 1,
                to: c.to,
            };
        }
        i = c.after;
    }
    each
}
