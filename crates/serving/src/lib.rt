// A flow's orders served one after another, each on the table that the one before left, and its outcome written.
#![tactic(auto)]

ghost use Rattle.std.specs.Prelude.{◌≡◌, cond, ◌*◌, ◌≤◌, length, eqb};
ghost use Rattle.bounds.specs.Bounds.{max_slots};
ghost use Rattle.slots.specs.Slots.{records_at};
ghost use Rattle.slots.specs.Inner.{Filters};
ghost use Rattle.rules.specs.Rules.{order_code};
ghost use Rattle.service.specs.Service.{outcome_size};
ghost use Rattle.serving.specs.Served.{orders_from, Rooted, Servable, max_steps, AllServed};

use rules::{Change, Ruling};
use schema::Parent;

// What a flow's orders come to together: how many were accepted, and how many slots their searches looked at.
#[derive(Clone, Copy)]
pub struct FlowSums {
    pub accepted: usize,
    pub steps: usize,
}

// An order's code, for its outcome bytes.
pub fn code_of(j: Ruling) -> u8
    ensures { result ≡ order_code j }
{
    match j {
        Ok((_, _)) => 0,
        Err(c) => c,
    }
}

// What an order of this code adds to the accepted ones.
pub fn one_of(code: u8) -> usize
    ensures { (result ≡ cond (eqb code 0) 1 0) × (result ≤ 1) }
{
    usize::from(code == 0)
}

// Serves the orders among a root's named children from a place on, each on the table that the one before left. The filter has the keys of the body's
// records; `records` is how many there are, unless every place is marked.
fn serve_marked(
    t: &mut [u8],
    f: &[u8],
    from: usize,
    root: Parent,
    base: usize,
    n: usize,
    year: u64,
    out: &mut [u8],
    past: &[u32],
    records: usize,
    marks: &mut [u8],
) -> FlowSums
    requires { Servable t.old base n year (orders_from root f.now from) × Rooted root f.now past.now from
        × (outcome_size * length (orders_from root f.now from) ≤ length out.old) × (max_slots * length (orders_from root f.now from) ≤ max_steps)
        × (records ≤ n) × Filters marks.old records (records_at t.old base n) }
    ensures { AllServed t.old base n year (orders_from root f.now from) out.old result t.new out.new }
{
    let mut i = from;
    let mut to: usize = 0;
    let mut accepted: usize = 0;
    let mut steps: usize = 0;
    let mut used = records;
    while let Some(k) = orders::next_order(f, i, root, past) {
        let c = k.child;
        let o = orders::order_of(f, k, past);
        let s = service::serve_order(t, base, n, used, marks, year, o);
        let j = s.ruling;
        let code = code_of(j);
        used = service::note_order(marks, used, year, o, j);
        service::put_outcome(out, to, o, code);
        accepted += one_of(code);
        steps += s.steps;
        to += service::OUTCOME;
        i = c.after;
    }
    FlowSums { accepted, steps }
}

// The same, with a filter of its own. For few orders every place is marked: to mark the keys of a body's records costs as much as two searches.
pub fn serve_all(
    t: &mut [u8],
    f: &[u8],
    from: usize,
    root: Parent,
    base: usize,
    n: usize,
    year: u64,
    out: &mut [u8],
    past: &[u32],
    count: usize,
) -> FlowSums
    requires { Servable t.old base n year (orders_from root f.now from) × Rooted root f.now past.now from
        × (outcome_size * length (orders_from root f.now from) ≤ length out.old) × (max_slots * length (orders_from root f.now from) ≤ max_steps) }
    ensures { AllServed t.old base n year (orders_from root f.now from) out.old result t.new out.new }
{
    if count < 4 {
        let mut every = [1u8; 4096];
        return serve_marked(t, f, from, root, base, n, year, out, past, 0, &mut every);
    }
    let mut marks = [0u8; 4096];
    let records = slots::mark_keys(t, base, n, &mut marks);
    serve_marked(
        t, f, from, root, base, n, year, out, past, records, &mut marks,
    )
}
