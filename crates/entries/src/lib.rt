// The bodies' entries: their form, their codes compared byte by byte, the search for a body by its code, the totals that they keep and the last year that
// was closed. A code is never a number.
#![tactic(auto)]

ghost use Rattle.std.specs.Prelude.{◌≡◌, true, ◌+◌, ◌*◌, ◌≤◌, ◌<◌, length};
ghost use Rattle.scan.specs.Bytes.{text_is};
ghost use Rattle.words.specs.Numbers.{put};
ghost use Rattle.bounds.specs.Bounds.{max_code, max_length};
ghost use Rattle.ranges.specs.Ranges.{is_nothing};
ghost use Rattle.entries.specs.Entry.{entry_fixed, closed_place, entry_rest, request_size, kept_bytes, code_length, code_at, slots_of, place_of, closed_of, closed_ok, form_ok, forms_ok, codes_from, find_code, distinct_codes};

use ranges::Class;

pub const ENTRY: usize = 48;

// An entry's bytes before its body's own, which are the cents paid and collected and the last closed year; the rest after these.
pub const FIXED: usize = 24;

pub const COLLECTED: usize = 32;

pub const CLOSED: usize = 40;

pub const REST: usize = 42;

pub const REQUEST: usize = 20;

// Number of slots of the body whose entry begins at a place.
#[tactic(auto, unfolding(crate::specs::Entry::slots_of))]
pub fn slots_of(t: &[u8], at: usize) -> usize
    requires { at + request_size ≤ length t.now }
    ensures { (result ≡ slots_of t.now at) × (result < 65536) }
{
    words::read2(t, at + 18) as usize
}

// Place of the first slot of the body whose entry begins at a place.
#[tactic(auto, unfolding(crate::specs::Entry::place_of))]
pub fn place_of(t: &[u8], at: usize) -> usize
    requires { at + entry_fixed ≤ length t.now }
    ensures { (result ≡ place_of t.now at) × (result < 4294967296) }
{
    words::read4(t, at + 20) as usize
}

// The last year that was closed, of the body whose entry begins at a place.
#[tactic(auto, unfolding(crate::specs::Entry::closed_of))]
pub fn closed_of(t: &[u8], at: usize) -> u64
    requires { at + entry_rest ≤ length t.now }
    ensures { (result ≡ closed_of t.now at) × (result < 65536) }
{
    words::read2(t, at + CLOSED)
}

// Whether an entry may hold this as its closed year.
pub fn closed_ok(year: u64) -> bool
    ensures { result ≡ closed_ok year }
{
    year == 0 || (bounds::FIRST_YEAR..=bounds::LAST_YEAR).contains(&year)
}

// Writes the cents paid and collected that an entry keeps.
pub fn settle(t: &mut [u8], at: usize, paid: u64, collected: u64)
    requires { at + closed_place ≤ length t.old }
    ensures { t.new ≡ put t.old (at + entry_fixed) (kept_bytes paid collected) }
{
    words::write8(t, at + FIXED, paid);
    words::write8(t, at + COLLECTED, collected);
}

// Whether an entry's bytes 0 to 19 are right.
#[tactic(auto, unfolding(crate::specs::Entry::form_ok, crate::specs::Entry::code_at))]
pub fn form_ok(t: &[u8], at: usize) -> bool
    requires { (at + request_size ≤ length t.now) × (length t.now ≤ max_length) }
    ensures { result ≡ form_ok t.now at }
{
    let n = usize::from(t[at]);
    (1..=bounds::MAX_CODE).contains(&n)
        && ranges::are_of(t, at + 1, at + 1 + n, Class::Alphanumeric)
        && ranges::are_zero(t, at + 1 + n, at + 18)
        && (1..=bounds::MAX_SLOTS).contains(&slots_of(t, at))
}

// Whether the n forms from a place on, each `size` after the one before, are right.
pub fn forms_ok(t: &[u8], first: usize, size: usize, n: usize) -> bool
    requires { (request_size ≤ size) × (first + size * n ≤ length t.now) × (length t.now ≤ max_length) }
    ensures { result ≡ forms_ok size t.now first n }
{
    for i in 0..n {
        if !form_ok(t, first + size * i) {
            return false;
        }
    }
    true
}

// Whether the entry at a place has this code: the same bytes and no other, of the same length.
#[tactic(auto, unfolding(crate::specs::Entry::code_at))]
fn code_is(t: &[u8], at: usize, code: &[u8]) -> bool
    requires { (at + request_size ≤ length t.now) × (code_length t.now at ≤ max_code) }
    ensures { result ≡ text_is (code_at t.now at) code.now }
{
    let a = at + 1;
    let e = a + usize::from(t[at]);
    scan::same(code, &t[a..e])
}

// The index of the body with this code, among n entries from a place on.
pub fn find_code(t: &[u8], first: usize, size: usize, n: usize, code: &[u8]) -> Option<usize>
    requires { (request_size ≤ size) × (first + size * n ≤ length t.now) × (forms_ok size t.now first n ≡ true) }
    ensures { result ≡ find_code (codes_from size t.now first n) 0 code.now }
{
    for i in 0..n {
        if code_is(t, first + size * i, code) {
            return Some(i);
        }
    }
    None
}

// Whether the code of the entry at a place is not among the n after it.
#[tactic(auto, unfolding(crate::specs::Entry::code_at))]
fn code_alone(t: &[u8], at: usize, size: usize, n: usize) -> bool
    requires { (request_size ≤ size) × (at + size + size * n ≤ length t.now) × (code_length t.now at ≤ max_code)
        × (forms_ok size t.now (at + size) n ≡ true) }
    ensures { result ≡ is_nothing (find_code (codes_from size t.now (at + size) n) 0 (code_at t.now at)) }
{
    let a = at + 1;
    let e = a + usize::from(t[at]);
    find_code(t, at + size, size, n, &t[a..e]).is_none()
}

// Whether no code stands twice among the n entries from a place on.
pub fn codes_distinct(t: &[u8], first: usize, size: usize, n: usize) -> bool
    requires { (request_size ≤ size) × (first + size * n ≤ length t.now) × (forms_ok size t.now first n ≡ true) }
    ensures { result ≡ distinct_codes (codes_from size t.now first n) }
{
    for i in 0..n {
        if !code_alone(t, first + size * i, size, n - (i + 1)) {
            return false;
        }
    }
    true
}
