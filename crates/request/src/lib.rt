// A request to open a table, judged: five ABI digits and twenty bytes per body.
#![tactic(auto)]

ghost use Rattle.std.specs.Prelude.{◌≡◌, ◌+◌, ◌*◌, ◌≤◌, length};
ghost use Rattle.bounds.specs.Bounds.{max_bodies};
ghost use Rattle.entries.specs.Entry.{request_size, slots_from};
ghost use Rattle.request.specs.Request.{first_body, asked, needed, bodies_asked_ok, request_ok};

use ranges::Class;

// The ABI digits come first in a request, then the bodies.
pub const FIRST: usize = bounds::ABI;

// The slots of the n bodies asked for, together.
fn slots_asked(q: &[u8], n: usize) -> usize
    requires { (n ≤ max_bodies) × (first_body + request_size * n ≤ length q.now) }
    ensures { (result ≡ slots_from request_size q.now first_body n) × (result ≤ 65535 * n) }
{
    let mut sum: usize = 0;
    for i in 0..n {
        sum += entries::slots_of(q, FIRST + entries::REQUEST * i);
    }
    sum
}

// The length of the table that n bodies need.
#[tactic(auto, unfolding(crate::specs::Request::needed))]
pub fn length_for(q: &[u8], n: usize) -> usize
    requires { (n ≡ asked q.now) × (n ≤ max_bodies) × (first_body + request_size * n ≤ length q.now) }
    ensures { result ≡ needed q.now }
{
    table::HEAD + entries::ENTRY * n + record::SLOT * slots_asked(q, n)
}

// Whether a request of n bodies is right but for its length and count.
#[tactic(auto, unfolding(crate::specs::Request::bodies_asked_ok))]
fn bodies_ok(q: &[u8], n: usize) -> bool
    requires { (n ≡ asked q.now) × (n ≤ max_bodies) × (first_body + request_size * n ≡ length q.now) }
    ensures { result ≡ bodies_asked_ok q.now }
{
    entries::forms_ok(q, FIRST, entries::REQUEST, n)
        && entries::codes_distinct(q, FIRST, entries::REQUEST, n)
        && length_for(q, n) <= bounds::MAX_LENGTH
}

// Whether a request is right: code 9 where it is not.
#[tactic(auto, unfolding(crate::specs::Request::request_ok, crate::specs::Request::asked))]
pub fn request_ok(q: &[u8]) -> bool
    ensures { result ≡ request_ok q.now }
{
    if q.len() < FIRST {
        return false;
    }
    let rest = q.len() - FIRST;
    let n = rest / entries::REQUEST;
    ranges::are_of(q, 0, FIRST, Class::Digits)
        && rest % entries::REQUEST == 0
        && (1..=bounds::MAX_BODIES).contains(&n)
        && bodies_ok(q, n)
}
