// A flow's orders taken on one body's plain list, one after another, each on the list that the one before left, and their outcomes written.
#![tactic(auto)]

ghost use Rattle.std.specs.Prelude.{◌*◌, ◌≤◌, length};
ghost use Rattle.bounds.specs.Bounds.{max_slots};
ghost use Rattle.service.specs.Service.{outcome_size};
ghost use Rattle.serving.specs.Served.{orders_from, Rooted, max_steps};
ghost use Rattle.training.specs.Training.{places, list_of};
ghost use Rattle.list_flow.specs.ListFlow.{ListTaken};

use schema::Parent;
use training::Book;

// How many orders were accepted, how many their searches looked at, and the body's orders afterwards.
#[derive(Clone, Copy)]
pub struct ListServed {
    pub accepted: usize,
    pub steps: usize,
    pub book: Book,
}

// Takes the orders among a root's named children from a place on.
pub fn take_orders(
    b: Book,
    f: &[u8],
    from: usize,
    root: Parent,
    slots: usize,
    year: u64,
    out: &mut [u8],
    past: &[u32],
) -> ListServed
    requires { (slots ≤ places) × Rooted root f.now past.now from
        × (outcome_size * length (orders_from root f.now from) ≤ length out.old) × (max_slots * length (orders_from root f.now from) ≤ max_steps) }
    ensures { ListTaken slots year (orders_from root f.now from) (list_of b) out.old result.accepted result.steps (list_of result.book) out.new }
{
    let mut book = b;
    let mut i = from;
    let mut to: usize = 0;
    let mut accepted: usize = 0;
    let mut steps: usize = 0;
    while let Some(k) = orders::next_order(f, i, root, past) {
        let c = k.child;
        let o = orders::order_of(f, k, past);
        let s = training::take_order(book, slots, year, o);
        let j = s.ruling;
        let code = serving::code_of(j);
        service::put_outcome(out, to, o, code);
        accepted += serving::one_of(code);
        steps += s.steps;
        to += service::OUTCOME;
        i = c.after;
        book = s.book;
    }
    ListServed {
        accepted,
        steps,
        book,
    }
}
