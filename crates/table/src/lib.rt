// The whole table: head, entries, layout, validity, and the search for a body. Tables 1 and 2 are judged by the same functions, which take what tells
// them apart.
#![tactic(auto)]

ghost use Rattle.std.specs.Prelude.{◌≡◌, true, ◌+◌, ◌*◌, ◌≤◌, ◌<◌, length};
ghost use Rattle.bounds.specs.Bounds.{max_bodies, max_length, max_slots};
ghost use Rattle.record.specs.Slot.{slot_size};
ghost use Rattle.slots.specs.Slots.{records_at};
ghost use Rattle.body.specs.Body.{body_ok};
ghost use Rattle.entries.specs.Entry.{entry_size, slots_of, place_of};
ghost use Rattle.table.specs.Table.{table1, table2, head_size, bodies, head_ok, year_ok, entry_ok, layout_ok, lines_hold, years_hold, body_holds, bodies_ok, valid_as, table_ok, body_of, contents_ok};
ghost use Rattle.table.specs.Inner.{Known, sums_agree};

use ranges::Class;

pub const HEAD: usize = 16;

// Where the head has the bank's ABI digits, and the zeros after them.
pub const ABI: usize = 8;

pub const REST: usize = 13;

// An entry of a table 1.
pub const OLD_ENTRY: usize = 32;

// What tells tables apart: an entry's size, where its rest begins, whether it keeps totals before that, whether lines may be replaced, whether it has a
// closed year after the totals, the head's number, the greatest length.
#[derive(Clone, Copy)]
pub struct Layout {
    pub entry: usize,
    pub rest: usize,
    pub keeps: bool,
    pub replaces: bool,
    pub closes: bool,
    pub number: u64,
    pub most: usize,
}

pub fn table_1() -> Layout
    ensures { result ≡ table1 }
{
    Layout {
        entry: OLD_ENTRY,
        rest: entries::FIXED,
        keeps: false,
        replaces: false,
        closes: false,
        number: 1,
        most: 65536,
    }
}

pub fn table_2() -> Layout
    ensures { result ≡ table2 }
{
    Layout {
        entry: entries::ENTRY,
        rest: entries::REST,
        keeps: true,
        replaces: true,
        closes: true,
        number: 2,
        most: bounds::MAX_LENGTH,
    }
}

// The number of bodies.
pub fn body_count(t: &[u8]) -> usize
    requires { head_size ≤ length t.now }
    ensures { (result ≡ bodies t.now) × (result < 65536) }
{
    words::read2(t, 0) as usize
}

#[tactic(auto, using(crate::proofs::Laws::entries_most), unfolding(crate::specs::Table::head_ok))]
fn head_ok(t: &[u8], l: Layout) -> bool
    requires { Known l }
    ensures { result ≡ head_ok l t.now }
{
    if !(HEAD..=l.most).contains(&t.len()) {
        return false;
    }
    let n = body_count(t);
    if !(1..=bounds::MAX_BODIES).contains(&n) || t.len() < HEAD + l.entry * n {
        return false;
    }
    words::read2(t, 2) == l.number
        && words::read4(t, 4) == t.len() as u64
        && ranges::are_of(t, ABI, REST, Class::Digits)
        && ranges::are_zero(t, REST, HEAD)
}

// Whether an entry's closed year may stand, where it has one.
fn year_ok(t: &[u8], at: usize, l: Layout) -> bool
    requires { Known l × (at + l.entry ≤ length t.now) }
    ensures { result ≡ year_ok l t.now at }
{
    !l.closes || entries::closed_ok(entries::closed_of(t, at))
}

#[tactic(auto, unfolding(crate::specs::Table::entry_ok))]
fn entry_ok(t: &[u8], at: usize, p: usize, l: Layout) -> bool
    requires { Known l × (at + l.entry ≤ length t.now) × (length t.now ≤ max_length) }
    ensures { result ≡ entry_ok l t.now at p }
{
    entries::form_ok(t, at)
        && entries::place_of(t, at) == p
        && year_ok(t, at, l)
        && ranges::are_zero(t, at + l.rest, at + l.entry)
}

fn layout_ok(t: &[u8], n: usize, l: Layout) -> bool
    requires { Known l × (n ≤ max_bodies) × (head_size + l.entry * n ≤ length t.now) × (length t.now ≤ max_length) }
    ensures { result ≡ layout_ok l t.now head_size n (head_size + l.entry * n) }
{
    let mut p = HEAD + l.entry * n;
    for i in 0..n {
        let at = HEAD + l.entry * i;
        if !entry_ok(t, at, p, l) {
            return false;
        }
        p += record::SLOT * entries::slots_of(t, at);
    }
    p == t.len()
}

// Whether an entry keeps these sums.
fn kept_are(t: &[u8], at: usize, paid: u64, collected: u64) -> bool
    requires { at + entry_size ≤ length t.now }
    ensures { result ≡ sums_agree t.now at paid collected }
{
    words::read8(t, at + entries::FIXED) == paid
        && words::read8(t, at + entries::COLLECTED) == collected
}

// Whether a body's lines are as the layout has them: where none may be replaced, none is.
fn lines_hold(t: &[u8], base: usize, n: usize, l: Layout) -> bool
    requires { base + slot_size * n ≤ length t.now }
    ensures { result ≡ lines_hold l (records_at t.now base n) }
{
    l.replaces || body::none_replaced(t, base, n)
}

// Whether a valid body's records are of later years than the entry's closed one, where it has one. A body that never closed is not walked again: valid
// records are of 2000 on.
fn years_hold(t: &[u8], at: usize, base: usize, n: usize, l: Layout) -> bool
    requires { Known l × (at + l.entry ≤ length t.now) × (base + slot_size * n ≤ length t.now) × (body_ok t.now base n ≡ true) }
    ensures { result ≡ years_hold l t.now at (records_at t.now base n) }
{
    if !l.closes {
        return true;
    }
    let closed = entries::closed_of(t, at);
    closed == 0 || body::all_later(t, base, n, closed)
}

// Whether the body of the entry at a place is valid, and what the entry keeps agrees with it.
#[tactic(auto, using(crate::proofs::Laws::holds_not, crate::proofs::Laws::holds_lines, crate::proofs::Laws::holds_years, crate::proofs::Laws::holds_kept, crate::proofs::Laws::holds_bare))]
fn body_holds(t: &[u8], at: usize, l: Layout) -> bool
    requires { Known l × (at + l.entry ≤ length t.now) × (place_of t.now at + slot_size * slots_of t.now at ≤ length t.now)
        × (slots_of t.now at ≤ max_slots) }
    ensures { result ≡ body_holds l t.now at }
{
    let base = entries::place_of(t, at);
    let n = entries::slots_of(t, at);
    let Some((paid, collected)) = body::judge(t, base, n) else {
        return false;
    };
    lines_hold(t, base, n, l)
        && years_hold(t, at, base, n, l)
        && (!l.keeps || kept_are(t, at, paid, collected))
}

fn bodies_ok(t: &[u8], n: usize, l: Layout) -> bool
    requires { Known l × (head_size + l.entry * n ≤ length t.now) × (length t.now ≤ max_length)
        × (layout_ok l t.now head_size n (head_size + l.entry * n) ≡ true) }
    ensures { result ≡ bodies_ok l t.now head_size n }
{
    for i in 0..n {
        if !body_holds(t, HEAD + l.entry * i, l) {
            return false;
        }
    }
    true
}

// Whether head and entries of any bytes at all are right, what the entries keep aside.
#[tactic(auto, using(crate::proofs::Laws::contents_layout, crate::proofs::Laws::contents_codes))]
pub fn contents_ok(t: &[u8], l: Layout) -> bool
    requires { Known l }
    ensures { result ≡ contents_ok l t.now }
{
    if !head_ok(t, l) {
        return false;
    }
    let n = body_count(t);
    layout_ok(t, n, l) && entries::codes_distinct(t, HEAD, l.entry, n)
}

// Whether any bytes at all are a valid table of this layout.
#[tactic(auto, using(crate::proofs::Laws::table_contents, crate::proofs::Laws::table_bodies))]
pub fn valid_as(t: &[u8], l: Layout) -> bool
    requires { Known l }
    ensures { result ≡ valid_as l t.now }
{
    contents_ok(t, l) && bodies_ok(t, body_count(t), l)
}

// Whether any bytes at all are a valid table.
pub fn table_ok(t: &[u8]) -> bool
    ensures { result ≡ table_ok t.now }
{
    valid_as(t, table_2())
}

// Which body of a valid table has this code.
pub fn find_body(t: &[u8], code: &[u8]) -> Option<usize>
    requires { table_ok t.now ≡ true }
    ensures { result ≡ body_of t.now code.now }
{
    let n = body_count(t);
    entries::find_code(t, HEAD, entries::ENTRY, n, code)
}
