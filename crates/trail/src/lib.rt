// What the one pass over content finds, in the order of the document, for those who read on: the named children of orders and lines, each from the place where the
// search for it began, with its value or with where its own children begin. What is kept is true; what is not kept is read again.
#![tactic(auto)]

ghost use Rattle.std.specs.Prelude.{◌≡◌, ◌≤◌};
ghost use Rattle.fields.specs.declared.Value.TheVariants.{Day};
ghost use Rattle.trail.specs.Codes.{flag, parent_code, parent_at, form_code, operation_shape, value_at, Tells};
ghost use Rattle.trail.specs.Trail.{found_at, Coded, Finding, FieldFound, RowsFound, Trailed, FieldSaid, RowsSaid};

use calendar::Date;
use codes::Operation;
use fields::{Form, Value};
use schema::Parent;

// A named child that was found, in numbers: where the search for it began, the place after it, the codes of its parent and of what it holds; then which kind
// of value it has and that value, or where its own children begin. All are zero where nothing is kept.
#[derive(Clone, Copy)]
struct Found {
    from: usize,
    after: usize,
    parent: usize,
    holds: usize,
    shape: usize,
    value: u64,
}

// A value in numbers; of shape 0 where it is not kept.
#[derive(Clone, Copy)]
struct Worth {
    shape: usize,
    value: u64,
}

// A child that has children: the parent whose rows they are, where they begin, and the place after the child.
#[derive(Clone, Copy)]
pub struct Entered {
    pub parent: Parent,
    pub inner: usize,
    pub after: usize,
}

fn flag(r: bool) -> usize
    ensures { (result ≡ flag r) × (result ≤ 1) }
{
    usize::from(r)
}

// A parent's code, or 0 where its children are not kept: 2 and 3 are mandato's, 4 and 5 reversale's, 6 to 9 those of their lines; the odd ones are those
// of an order that replaces others.
pub fn parent_code(p: Parent) -> usize
    ensures { result ≡ parent_code p }
{
    match p {
        Parent::Mandato(r) => 2 + flag(r),
        Parent::Reversale(r) => 4 + flag(r),
        Parent::InformazioniBeneficiario(r) => 6 + flag(r),
        Parent::InformazioniVersante(r) => 8 + flag(r),
        Parent::SostituzioneMandato => 10,
        Parent::SostituzioneReversale => 12,
        Parent::FlussoOrdinativi => 14,
        Parent::FlussoOpi => 16,
        _ => 0,
    }
}

// The parent of a code.
#[tactic(auto, unfolding(crate::specs::Codes::parent_at))]
fn parent_at(c: usize) -> Parent
    ensures { result ≡ parent_at c }
{
    let r = c % 2 == 1;
    match c / 2 {
        1 => Parent::Mandato(r),
        2 => Parent::Reversale(r),
        3 => Parent::InformazioniBeneficiario(r),
        4 => Parent::InformazioniVersante(r),
        5 => Parent::SostituzioneMandato,
        6 => Parent::SostituzioneReversale,
        7 => Parent::FlussoOrdinativi,
        _ => Parent::FlussoOpi,
    }
}

// A form's code, or 0 where no field of it is kept.
fn form_code(f: Form) -> usize
    ensures { result ≡ form_code f }
{
    match f {
        Form::Esercizio => 1,
        Form::TipoOperazione => 2,
        Form::Numero => 3,
        Form::Data => 4,
        Form::Importo => 5,
        Form::Progressivo => 6,
        _ => 0,
    }
}

// A date's three numbers in one, where they fit.
fn day_worth(d: Date) -> Worth
    ensures { Tells (Day d) result }
{
    let none = Worth { shape: 0, value: 0 };
    if 65535 < d.year {
        return none;
    }
    if 255 < d.month {
        return none;
    }
    if 255 < d.day {
        return none;
    }
    Worth {
        shape: 2,
        value: d.year * 65536 + d.month * 256 + d.day,
    }
}

fn operation_shape(o: Operation) -> usize
    ensures { result ≡ operation_shape o }
{
    match o {
        Operation::Inserimento => 3,
        Operation::Variazione => 4,
        Operation::Annullo => 5,
        Operation::Sostituzione => 6,
    }
}

// A value in numbers.
fn worth_of(v: Value) -> Worth
    ensures { Tells v result }
{
    match v {
        Value::Number(n) => Worth { shape: 1, value: n },
        Value::Day(d) => day_worth(d),
        Value::Operation(o) => Worth {
            shape: operation_shape(o),
            value: 0,
        },
        Value::Text | Value::Accepted(_) | Value::Refused(_) => Worth { shape: 0, value: 0 },
    }
}

// The value of numbers.
#[tactic(auto, unfolding(crate::specs::Codes::value_at))]
fn value_at(shape: usize, value: u64) -> Value
    ensures { result ≡ value_at shape value }
{
    match shape {
        1 => Value::Number(value),
        2 => Value::Day(Date {
            year: value / 65536,
            month: value / 256 % 256,
            day: value % 256,
        }),
        3 => Value::Operation(Operation::Inserimento),
        4 => Value::Operation(Operation::Variazione),
        5 => Value::Operation(Operation::Annullo),
        _ => Value::Operation(Operation::Sostituzione),
    }
}

// What is kept at a place of the trail.
fn found_at(trail: &[u64], n: usize) -> Found
    ensures { result ≡ found_at trail.now n }
{
    if trail.len() / 2 <= n {
        return Found {
            from: 0,
            after: 0,
            parent: 0,
            holds: 0,
            shape: 0,
            value: 0,
        };
    }
    let k = trail[2 * n] as usize;
    Found {
        from: k % 65536,
        after: k / 65536 % 65536,
        parent: k / 1099511627776,
        holds: k / 34359738368 % 32,
        shape: k / 4294967296 % 8,
        value: trail[2 * n + 1],
    }
}

// Keeps what was found at a place of the trail, where it fits and there is room, and tells the next place.
fn keep(s: &[u8], trail: &mut [u64], n: usize, e: Found) -> usize
    requires { Trailed s.now trail.old × Finding s.now e × Coded e }
    ensures { Trailed s.now trail.new }
{
    if 65535 < e.from {
        return n;
    }
    if 65535 < e.after {
        return n;
    }
    if trail.len() / 2 <= n {
        return n;
    }
    let k = e.from + 65536 * (e.after + 65536 * (e.shape + 8 * (e.holds + 32 * e.parent)));
    trail[2 * n] = k as u64;
    trail[2 * n + 1] = e.value;
    n + 1
}

// Keeps a field that was read, and tells the next place of the trail.
pub fn keep_field(
    s: &[u8],
    p: Parent,
    f: Form,
    from: usize,
    after: usize,
    v: Value,
    trail: &mut [u64],
    n: usize,
) -> usize
    requires { Trailed s.now trail.old × FieldFound p f s.now from after v }
    ensures { Trailed s.now trail.new }
{
    let parent = parent_code(p);
    if parent == 0 {
        return n;
    }
    let holds = form_code(f);
    if holds == 0 {
        return n;
    }
    let w = worth_of(v);
    if w.shape == 0 {
        return n;
    }
    let e = Found {
        from,
        after,
        parent,
        holds,
        shape: w.shape,
        value: w.value,
    };
    keep(s, trail, n, e)
}

// Keeps a child that has children, at the place of the trail before theirs.
pub fn keep_rows(s: &[u8], p: Parent, from: usize, r: Entered, trail: &mut [u64], n: usize)
    requires { Trailed s.now trail.old × RowsFound p s.now from r }
    ensures { Trailed s.now trail.new }
{
    let parent = parent_code(p);
    if parent == 0 {
        return;
    }
    let holds = parent_code(r.parent);
    if holds == 0 {
        return;
    }
    let e = Found {
        from,
        after: r.after,
        parent,
        holds,
        shape: 7,
        value: r.inner as u64,
    };
    keep(s, trail, n, e);
}

// The place of the trail for what a child of these rows holds, where the child's own is n.
pub fn inside(q: Parent, trail: &[u64], n: usize) -> usize {
    if parent_code(q) != 0 && n < trail.len() {
        n + 1
    } else {
        n
    }
}

// The first place of the trail from n on where something is kept that was not sought before `from`, or nothing any more: where a reader that comes there has to look.
pub fn seek(trail: &[u64], n: usize, from: usize) -> usize {
    for i in n..trail.len() / 2 {
        let k = trail[2 * i] as usize;
        if k == 0 || from <= k % 65536 {
            return i;
        }
    }
    n.max(trail.len() / 2)
}

// The field of this form that a parent names first from a place on, where that is kept at n.
pub fn field_kept(
    s: &[u8],
    p: Parent,
    f: Form,
    from: usize,
    trail: &[u64],
    n: usize,
) -> Option<(Value, usize)>
    requires { Trailed s.now trail.now }
    ensures { FieldSaid p f s.now from result }
{
    let e = found_at(trail, n);
    if e.from != from {
        return None;
    }
    let parent = parent_code(p);
    if parent == 0 {
        return None;
    }
    if e.parent != parent {
        return None;
    }
    let holds = form_code(f);
    if holds == 0 {
        return None;
    }
    if e.holds != holds {
        return None;
    }
    if e.shape == 0 {
        return None;
    }
    if 7 <= e.shape {
        return None;
    }
    Some((value_at(e.shape, e.value), e.after))
}

// The child that a parent names first from a place on, where it is kept at n that it has children.
pub fn rows_kept(s: &[u8], p: Parent, from: usize, trail: &[u64], n: usize) -> Option<Entered>
    requires { Trailed s.now trail.now }
    ensures { RowsSaid p s.now from result }
{
    let e = found_at(trail, n);
    if e.from != from {
        return None;
    }
    let parent = parent_code(p);
    if parent == 0 {
        return None;
    }
    if e.parent != parent {
        return None;
    }
    if e.shape != 7 {
        return None;
    }
    Some(Entered {
        parent: parent_at(e.holds),
        inner: e.value as usize,
        after: e.after,
    })
}
