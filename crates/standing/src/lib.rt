// What a flow's content comes to: its structure breaks, or a field does, or it stands. One walk says which; only where a field breaks does a second one
// say where, and why.
#![tactic(auto)]

ghost use Rattle.std.specs.Prelude.{◌≡◌, ◌+◌, ◌≤◌, ◌<◌, length};
ghost use Rattle.markup.specs.Noted.{Noted};
ghost use Rattle.schema.specs.Table.{table};
ghost use Rattle.rows.specs.Kept.{kept_from};
ghost use Rattle.structure.specs.Structure.{ranges};
ghost use Rattle.standing.specs.Readings.{fields_at, first_bad};
ghost use Rattle.standing.specs.Standing.{standing_by_fields, standing_at, forget, bad_at, field_breaking, structured, after};
ghost use Rattle.standing.specs.Walk.{held_breaking, rest, Goes};

use children::Child;
use fields::{Cause, Form};
use schema::{Holds, Parent};

// What breaks in content: its structure, or a field, named by its `<`, with its cause.
#[derive(Clone, Copy)]
pub enum Flaw {
    StructureBreaks,
    FieldBreaks(usize, Cause),
}

// What breaks in content. It has no place and no cause, which content that stands would pay for.
#[derive(Clone, Copy)]
pub enum Breaking {
    Structure,
    Field,
}

// Whether the structure stands.
fn has_structure(b: Option<Breaking>) -> bool
    ensures { result ≡ structured b }
{
    !matches!(b, Some(Breaking::Structure))
}

// One part and another: the structure of either is said first, then a field.
fn then(first: Option<Breaking>, next: Option<Breaking>) -> Option<Breaking>
    ensures { result ≡ after first next }
{
    match first {
        None => next,
        Some(Breaking::Field) if has_structure(next) => first,
        Some(_) => Some(Breaking::Structure),
    }
}

// A field: it holds no element, and has its form.
fn field_breaking(s: &[u8], c: Child, f: Form, past: &[u32]) -> Option<Breaking>
    requires { (c.gt + 1 ≤ c.to) × (c.to ≤ length s.now) × Noted s.now past.now }
    ensures { result ≡ field_breaking s.now f c }
{
    if !structure::text_only(s, c.gt + 1, past) {
        Some(Breaking::Structure)
    } else if rows::read_field(s, c, f).is_err() {
        Some(Breaking::Field)
    } else {
        None
    }
}

// What a named child holds, of at most d levels with its own: a field, or the rows of a parent.
#[cycle(held_breaking_walk_on)]
fn held_breaking(s: &[u8], c: Child, h: Holds, d: usize, past: &[u32]) -> Option<Breaking>
    requires { (c.gt + 1 ≤ c.to) × (c.to ≤ length s.now) × (1 ≤ d) × Noted s.now past.now }
    ensures { result ≡ held_breaking d s.now c h }
{
    match h {
        Holds::Text(f) => field_breaking(s, c, f, past),
        Holds::Rows(q) => {
            if d == 1 {
                return Some(Breaking::Structure);
            }
            let inner = c.gt + 1;
            let p = rows::rows_for(s, inner, q, past);
            walk_on(s, scan::white_end(s, inner), 0, 0, p, d - 1, past)
        }
    }
}

// What the children from a place on come to, of at most d levels: of those before it n stand in `row` and none after it. A field that breaks is kept
// while the structure of the others is looked at, so that all is walked once.
#[cycle(held_breaking_walk_on)]
fn walk_on(
    s: &[u8],
    from: usize,
    row: usize,
    n: usize,
    parent: Parent,
    d: usize,
    past: &[u32],
) -> Option<Breaking>
    requires { (from ≤ length s.now) × (n ≤ from) × (row < length (ranges (table parent))) × (1 ≤ d) × Noted s.now past.now }
    ensures { result ≡ rest d parent s.now row n (kept_from parent s.now from) }
{
    let mut i = from;
    let mut last = row;
    let mut m = n;
    let mut so_far = None;
    while has_structure(so_far) {
        let Some(k) = rows::next_named(s, i, parent, past) else {
            return if structure::filled(parent, last, m, structure::rows(parent)) {
                so_far
            } else {
                Some(Breaking::Structure)
            };
        };
        let c = k.child;
        let h = k.holds;
        let next = k.row;
        if !structure::filled(parent, last, m, next) {
            return Some(Breaking::Structure);
        }
        m = structure::counted(last, m, next);
        last = next;
        i = c.after;
        so_far = then(so_far, held_breaking(s, c, h, d, past));
    }
    Some(Breaking::Structure)
}

// A field's reading, with its cause.
fn field_found(s: &[u8], c: Child, f: Form) -> Result<(), Flaw>
    requires { (c.gt + 1 ≤ c.to) × (c.to ≤ length s.now) }
    ensures { result ≡ standing_by_fields (bad_at s.now f c) }
{
    match fields::field_of(f, &s[c.gt + 1..c.to]) {
        Ok(_) => Ok(()),
        Err(x) => Err(Flaw::FieldBreaks(c.lt, x)),
    }
}

// The first field that breaks in the content at a place, of at most d levels, whatever its structure.
fn first_bad(s: &[u8], at: usize, parent: Parent, d: usize, past: &[u32]) -> Result<(), Flaw>
    requires { (at ≤ length s.now) × Noted s.now past.now }
    ensures { result ≡ standing_by_fields (first_bad (fields_at d parent s.now at)) }
{
    if d == 0 {
        return Ok(());
    }
    let mut i = scan::white_end(s, at);
    while let Some(k) = rows::next_named(s, i, parent, past) {
        let c = k.child;
        match k.holds {
            Holds::Text(f) => field_found(s, c, f)?,
            Holds::Rows(q) => {
                let inner = c.gt + 1;
                let deeper = rows::rows_for(s, inner, q, past);
                first_bad(s, inner, deeper, d - 1, past)?
            }
        }
        i = c.after;
    }
    Ok(())
}

// What the content at a place comes to, of at most d levels, where all before `from` stands: n of those children stand in `row` and none after it.
pub fn judge_on(
    s: &[u8],
    at: usize,
    from: usize,
    row: usize,
    n: usize,
    parent: Parent,
    d: usize,
    past: &[u32],
) -> Result<(), Flaw>
    requires at_in_bounds { (at ≤ length s.now) × (1 ≤ d) × Noted s.now past.now }
    requires goes { Goes (forget (standing_at d parent s.now at)) d parent s.now None from row n }
    ensures { result ≡ standing_at d parent s.now at }
{
    match walk_on(s, from, row, n, parent, d, past) {
        Some(Breaking::Structure) => Err(Flaw::StructureBreaks),
        Some(Breaking::Field) => first_bad(s, at, parent, d, past),
        None => Ok(()),
    }
}

// What the content at a place comes to, of at most d levels.
pub fn judge(s: &[u8], at: usize, parent: Parent, d: usize, past: &[u32]) -> Result<(), Flaw>
    requires { (at ≤ length s.now) × Noted s.now past.now }
    ensures { result ≡ standing_at d parent s.now at }
{
    if d == 0 {
        return Err(Flaw::StructureBreaks);
    }
    judge_on(s, at, scan::white_end(s, at), 0, 0, parent, d, past)
}
