// A flow's call, on any bytes at all: the table is checked, then the edition, the flow's length, markup, structure and fields, then bank, body, year and room; then
// its orders are served.
#![tactic(auto)]

ghost use Rattle.std.specs.Prelude.{◌≡◌, true, ℕ, ◌+◌, ◌*◌, ◌≤◌, ◌<◌, length};
ghost use Rattle.markup.specs.Noted.{Noted};
ghost use Rattle.bounds.specs.Bounds.{max_flow};
ghost use Rattle.table.specs.Table.{table_ok};
ghost use Rattle.header.specs.Heading.{header_by, Within};
ghost use Rattle.flow.specs.Flow.{verdict_of, header_of, flow_orders};
ghost use Rattle.desk.specs.Desk.{with_room, for_bank, for_flow, Gives, FlowPromise, SameReply, flow_reply};
ghost use Rattle.serving.specs.Served.{orders_from, Rooted, Storable, Servable};
ghost use Rattle.desk.specs.Steps.{body_for};

use address::NoBody;
use editions::Edition;
use fields::Cause;
use flow::Breakage;
use header::Heading;
use schema::Parent;

// Why a flow is refused.
#[derive(Clone, Copy)]
pub enum FlowRefusal {
    InvalidTable,
    UnknownEdition,
    TooLong,
    BrokenMarkup,
    BrokenStructure,
    BrokenField(usize, Cause),
    OtherBank,
    UnknownBody,
    ClosedYear,
    NoRoom,
}

// What a flow's call answers: its orders, how many were accepted, and the steps of their searches; or why it is refused.
pub type FlowAnswer = Result<(usize, usize, usize), FlowRefusal>;

// Document 01's numbers of an answer, and the cause and steps that document 02 adds.
// Code and values stand side by side, since C takes them one by one (`hondivole_flow`).
#[derive(Clone, Copy)]
pub struct FlowReply {
    pub code: u64,
    pub place: u64,
    pub orders: u64,
    pub accepted: u64,
    pub cause: u64,
    pub steps: u64,
}

// The orders of a flow for a body of the table: 8, or they are served.
fn with_room(
    t: &mut [u8],
    f: &[u8],
    root: Parent,
    from: usize,
    year: u64,
    base: usize,
    n: usize,
    out: &mut [u8],
    past: &[u32],
) -> FlowAnswer
    requires { Servable t.old base n year (orders_from root f.now from) × Rooted root f.now past.now from × (length f.now ≤ max_flow) }
    ensures { Gives t.old out.old
        (with_room (length out.old) base n year (orders_from root f.now from)) result t.new out.new }
{
    let count = orders::count_orders(f, from, root, past);
    if out.len() < service::OUTCOME * count {
        return Err(FlowRefusal::NoRoom);
    }
    let s = serving::serve_all(t, f, from, root, base, n, year, out, past, count);
    Ok((count, s.accepted, s.steps))
}

// The orders of a flow, for the body with the flow's code: 7, 36 where it has closed the flow's year or a later one, or as the room says.
fn for_body(
    t: &mut [u8],
    f: &[u8],
    root: Parent,
    h: Heading,
    out: &mut [u8],
    past: &[u32],
) -> FlowAnswer
    requires { (table_ok t.old ≡ true) × Within f.now h × Rooted root f.now past.now h.orders × (length f.now ≤ max_flow)
        × Storable h.esercizio (orders_from root f.now h.orders) }
    ensures { Gives t.old out.old
        (body_for t.old (length out.old) (header_by f.now h) (orders_from root f.now h.orders)) result
        t.new out.new }
{
    let ente = header::part_at(f, h.ente);
    match address::body_named(t, ente) {
        Ok((e, base, n)) => {
            let year = h.esercizio;
            if year <= entries::closed_of(t, e) {
                return Err(FlowRefusal::ClosedYear);
            }
            with_room(t, f, root, h.orders, year, base, n, out, past)
        }
        Err(NoBody::Unknown) => Err(FlowRefusal::UnknownBody),
        Err(NoBody::Invalid) => Err(FlowRefusal::InvalidTable),
    }
}

// A flow of an edition that stands, its root's content at a place: 6, or as its body says.
fn for_bank(
    t: &mut [u8],
    e: Edition,
    f: &[u8],
    at: usize,
    out: &mut [u8],
    past: &[u32],
) -> FlowAnswer
    requires { (table_ok t.old ≡ true) × (verdict_of e f.now ≡ Ok at) × Noted f.now past.now × (length f.now ≤ max_flow) }
    ensures { Gives t.old out.old
        (for_bank t.old (length out.old) (header_of e f.now at) (flow_orders e f.now at)) result t.new
        out.new }
{
    let from = scan::white_end(f, at);
    let h = header::header_from(f, e, from, past);
    let abi = header::part_at(f, h.abi);
    if !scan::same(abi, &t[8..13]) {
        return Err(FlowRefusal::OtherBank);
    }
    let root = header::root_of(e);
    for_body(t, f, root, h, out, past)
}

// Reads a flow of an edition that is not too long, noting in `past` where its elements end, and serves it.
fn take_noted(t: &mut [u8], e: Edition, f: &[u8], out: &mut [u8], past: &mut [u32]) -> FlowAnswer
    requires { (table_ok t.old ≡ true) × (length f.now ≤ max_flow) × Noted f.now past.old }
    ensures { Gives t.old out.old
        (for_flow e t.old f.now (length out.old) (verdict_of e f.now)) result t.new out.new }
{
    match flow::verdict_of(f, e, past) {
        Err(Breakage::MarkupBreaks(_)) => Err(FlowRefusal::BrokenMarkup),
        Err(Breakage::StructureBreaks) => Err(FlowRefusal::BrokenStructure),
        Err(Breakage::FieldBreaks(p, x)) => Err(FlowRefusal::BrokenField(p, x)),
        Ok(at) => for_bank(t, e, f, at, out, past),
    }
}

// Takes a flow of the edition of a number. Every byte of table and outcomes is determined, and none changes where the flow is refused. A short flow needs few notes, and
// their zeros are a good part of its time.
pub fn take_flow(t: &mut [u8], edition: u64, f: &[u8], out: &mut [u8]) -> FlowAnswer
    ensures { FlowPromise t.old edition f.now out.old result t.new out.new }
{
    if !table::table_ok(t) {
        return Err(FlowRefusal::InvalidTable);
    }
    let Some(e) = editions::edition_of(edition) else {
        return Err(FlowRefusal::UnknownEdition);
    };
    if 32768 < f.len() {
        return Err(FlowRefusal::TooLong);
    }
    if f.len() < 4096 {
        let mut few = [0u32; 1024];
        return take_noted(t, e, f, out, &mut few);
    }
    let mut past = [0u32; 8193];
    take_noted(t, e, f, out, &mut past)
}

fn refusal(code: u64) -> FlowReply
    ensures { SameReply result (record { code = code; place = 0; orders = 0; accepted = 0; cause = 0; steps = 0 }) }
{
    FlowReply {
        code,
        place: 0,
        orders: 0,
        accepted: 0,
        cause: 0,
        steps: 0,
    }
}

// The numbers of an answer.
pub fn reply_of(a: FlowAnswer) -> FlowReply
    ensures { SameReply result (flow_reply a) }
{
    match a {
        Err(FlowRefusal::InvalidTable) => refusal(1),
        Err(FlowRefusal::UnknownEdition) => refusal(23),
        Err(FlowRefusal::TooLong) => refusal(2),
        Err(FlowRefusal::BrokenMarkup) => refusal(3),
        Err(FlowRefusal::BrokenStructure) => refusal(4),
        Err(FlowRefusal::BrokenField(p, x)) => FlowReply {
            code: 5,
            place: p as u64,
            orders: 0,
            accepted: 0,
            cause: fields::cause_number(x),
            steps: 0,
        },
        Err(FlowRefusal::OtherBank) => refusal(6),
        Err(FlowRefusal::UnknownBody) => refusal(7),
        Err(FlowRefusal::ClosedYear) => refusal(36),
        Err(FlowRefusal::NoRoom) => refusal(8),
        Ok((n, k, s)) => FlowReply {
            code: 0,
            place: 0,
            orders: n as u64,
            accepted: k as u64,
            cause: 0,
            steps: s as u64,
        },
    }
}
