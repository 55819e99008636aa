// Whether a message can be written: the outcome bytes are this flow's, and the caller's values have their forms. These are held as they are judged: copied
// one after another into bytes that the call lends, so that a writer takes them all at once.
#![tactic(auto)]

ghost use Rattle.std.specs.Prelude.{◌≡◌, true, ◌+◌, ◌≤◌, ◌<◌, length};
ghost use Rattle.order.specs.Ordinativo.{ordinativo};
ghost use Rattle.message.specs.Message.{is_outcome};
ghost use Rattle.message.specs.From.{outcome_fits, outcomes_fit};
ghost use Rattle.texts.specs.Texts.{caller_text, istat_text, caller_time};
ghost use Rattle.message_fit.specs.Fit.{caller_by};
ghost use Rattle.message_fit.specs.Holding.{texts_room, Lays, Holds};
ghost use Rattle.message_fit.specs.Walk.{orders_from, Rooted};

use header::Span;
use message_pen::Given;
use order::Order;
use schema::Parent;

// Nine texts of at most 140 bytes.
pub const TEXTS_ROOM: usize = 1260;

// A caller's nine texts: whether all have their forms, and where each stands in the bytes that hold them.
#[derive(Clone, Copy)]
pub struct Held {
    pub right: bool,
    pub outcome: Span,
    pub given: Given,
}

// While they are laid down: whether all so far have their forms, and where the next is to stand.
#[derive(Clone, Copy)]
pub struct Laid {
    pub right: bool,
    pub to: usize,
}

// Whether an order can get this code.
fn is_outcome(code: u8) -> bool
    ensures { result ≡ is_outcome code }
{
    code == 0 || digits::is_refusal(u64::from(code))
}

// How many lines an order has, as a byte holds it.
fn count(o: Order) -> u64
    ensures { result ≡ length (ordinativo o).lines }
{
    order::count_of(o.lines) as u64
}

// Whether bytes begin with an order's sixteen.
fn outcome_fits(out: &[u8], o: Order) -> bool
    requires { 16 ≤ length out.now }
    ensures { result ≡ outcome_fits (ordinativo o) out.now }
{
    out[0] == o.kind
        && out[1] == codes::operation_number(o.operation)
        && is_outcome(out[2])
        && u64::from(out[3]) == count(o)
        && words::read4(out, 4) == o.number
        && words::read8(out, 8) == o.total
}

// Whether the outcome bytes are those of the orders from a place on.
pub fn outcomes_fit(f: &[u8], from: usize, root: Parent, out: &[u8], past: &[u32]) -> bool
    requires { Rooted root f.now past.now from }
    ensures { result ≡ outcomes_fit (orders_from root f.now from) out.now }
{
    let mut i = from;
    let mut at: usize = 0;
    while let Some(k) = orders::next_order(f, i, root, past) {
        let c = k.child;
        if out.len() - at < 16 {
            return false;
        }
        let o = orders::order_of(f, k, past);
        if !outcome_fits(&out[at..], o) {
            return false;
        }
        at += 16;
        i = c.after;
    }
    true
}

// A text after the others, if it has its form; past a wrong one nothing is laid down any more.
fn lay(texts: &mut [u8], at: Laid, t: &[u8], ok: bool) -> Laid
    requires { (at.to + 140 ≤ texts_room) × (ok ≡ true → length t.now ≤ 140) }
    ensures { Lays texts.old texts.new at t.now ok result }
{
    if !at.right {
        return at;
    }
    if !ok {
        return Laid {
            right: false,
            to: at.to,
        };
    }
    let to = pen::ink(texts, at.to, t);
    Laid { right: true, to }
}

fn time(texts: &mut [u8], at: Laid, t: &[u8]) -> Laid
    requires { at.to + 140 ≤ texts_room }
    ensures { Lays texts.old texts.new at t.now (caller_time t.now) result }
{
    lay(texts, at, t, texts::is_caller_time(t))
}

fn text(texts: &mut [u8], at: Laid, t: &[u8]) -> Laid
    requires { at.to + 140 ≤ texts_room }
    ensures { Lays texts.old texts.new at t.now (caller_text t.now) result }
{
    lay(texts, at, t, texts::is_caller_text(t))
}

fn istat_code(texts: &mut [u8], at: Laid, t: &[u8]) -> Laid
    requires { at.to + 140 ≤ texts_room }
    ensures { Lays texts.old texts.new at t.now (istat_text t.now) result }
{
    lay(texts, at, t, texts::is_istat(t))
}

fn span(from: usize, to: usize) -> Span
    ensures { result ≡ record { from = from; to = to } }
{
    Span { from, to }
}

// The caller's texts, judged and held. The message's time comes last, so that it is empty, and no time, where one of them is wrong.
pub fn hold(
    texts: &mut [u8],
    created: &[u8],
    outcome: &[u8],
    istat: &[u8],
    ente: &[u8],
    described: &[u8],
    fiscal: &[u8],
    tramite: &[u8],
    bank: &[u8],
    flow: &[u8],
) -> Held
    requires { texts_room ≤ length texts.old }
    ensures { Holds result texts.new (caller_by created.now outcome.now ente.now described.now
        istat.now fiscal.now tramite.now bank.now flow.now) }
{
    let a = time(texts, Laid { right: true, to: 0 }, outcome);
    let b = text(texts, a, ente);
    let c = text(texts, b, described);
    let d = istat_code(texts, c, istat);
    let e = text(texts, d, fiscal);
    let f = text(texts, e, tramite);
    let g = text(texts, f, bank);
    let h = text(texts, g, flow);
    let i = time(texts, h, created);
    let given = Given {
        created: span(h.to, i.to),
        ente: span(a.to, b.to),
        described: span(b.to, c.to),
        istat: span(c.to, d.to),
        fiscal: span(d.to, e.to),
        tramite: span(e.to, f.to),
        bank: span(f.to, g.to),
        flow: span(g.to, h.to),
    };
    Held {
        right: i.right,
        outcome: span(0, a.to),
        given,
    }
}
