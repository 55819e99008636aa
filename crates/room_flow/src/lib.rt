// A flow's call in the training room: the edition, the flow's length, markup, structure and fields, then bank, body and room for outcomes; then its orders are taken on the
// body's list.
#![tactic(auto)]

ghost use Rattle.std.specs.Prelude.{◌≡◌, ◌≤◌, ◌<◌, length};
ghost use Rattle.markup.specs.Noted.{Noted};
ghost use Rattle.bounds.specs.Bounds.{max_flow};
ghost use Rattle.header.specs.Heading.{header_by, Within};
ghost use Rattle.flow.specs.Flow.{verdict_of, header_of, flow_orders};
ghost use Rattle.serving.specs.Served.{orders_from, Rooted};
ghost use Rattle.plain.specs.Plain.{numbered};
ghost use Rattle.plain.specs.Flows.{with_space, on_body, at_bank, of_verdict, Teaches, FlowLesson};
ghost use Rattle.room.specs.Room.{room_of};

use desk::{FlowAnswer, FlowRefusal};
use editions::Edition;
use flow::Breakage;
use header::Heading;
use room::Room;
use schema::Parent;

// What a flow answers, and the room afterwards.
#[derive(Clone, Copy)]
pub struct FlowTaught {
    pub answer: FlowAnswer,
    pub room: Room,
}

// The orders of a flow for body b of the room: 8, or they are taken.
fn for_body(
    r: Room,
    b: usize,
    f: &[u8],
    root: Parent,
    from: usize,
    year: u64,
    out: &mut [u8],
    past: &[u32],
) -> FlowTaught
    requires { (b < length (room_of r).bodies) × Rooted root f.now past.now from × (length f.now ≤ max_flow) }
    ensures { Teaches (room_of r) out.old (with_space (length out.old) b year (orders_from root f.now from)) result.answer
        (room_of result.room) out.new }
{
    let count = orders::count_orders(f, from, root, past);
    if out.len() < service::OUTCOME * count {
        return FlowTaught {
            answer: Err(FlowRefusal::NoRoom),
            room: r,
        };
    }
    let p = room::seat_at(r, b);
    let s = list_flow::take_orders(p.book, f, from, root, room::slots_of(p), year, out, past);
    FlowTaught {
        answer: Ok((count, s.accepted, s.steps)),
        room: room::with_book(r, b, s.book),
    }
}

// The orders of a flow, for the body with the flow's code: 7, or as the room for outcomes says.
fn with_code(
    r: Room,
    f: &[u8],
    root: Parent,
    h: Heading,
    out: &mut [u8],
    past: &[u32],
) -> FlowTaught
    requires { Within f.now h × Rooted root f.now past.now h.orders × (length f.now ≤ max_flow) }
    ensures { Teaches (room_of r) out.old
        (on_body (length out.old) (header_by f.now h).esercizio (orders_from root f.now h.orders)
        (numbered (room_of r) (header_by f.now h).ente)) result.answer (room_of result.room) out.new }
{
    let ente = header::part_at(f, h.ente);
    match room::find_seat(r, ente) {
        Some(b) => for_body(r, b, f, root, h.orders, h.esercizio, out, past),
        None => FlowTaught {
            answer: Err(FlowRefusal::UnknownBody),
            room: r,
        },
    }
}

// A flow of an edition that stands, its root's content at a place: 6, or as its body says.
fn for_bank(r: Room, e: Edition, f: &[u8], at: usize, out: &mut [u8], past: &[u32]) -> FlowTaught
    requires { (verdict_of e f.now ≡ Ok at) × Noted f.now past.now × (length f.now ≤ max_flow) }
    ensures { Teaches (room_of r) out.old
        (at_bank (room_of r) (length out.old) (header_of e f.now at) (flow_orders e f.now at)) result.answer (room_of result.room)
        out.new }
{
    let from = scan::white_end(f, at);
    let h = header::header_from(f, e, from, past);
    let abi = header::part_at(f, h.abi);
    if !room::bank_is(r, abi) {
        return FlowTaught {
            answer: Err(FlowRefusal::OtherBank),
            room: r,
        };
    }
    let root = header::root_of(e);
    with_code(r, f, root, h, out, past)
}

fn refused(r: Room, answer: FlowAnswer) -> FlowTaught
    ensures { (result.answer ≡ answer) × (room_of result.room ≡ room_of r) }
{
    FlowTaught { answer, room: r }
}

// Reads a flow of an edition that is not too long, noting in `past` where its elements end, and takes it.
fn take_noted(r: Room, e: Edition, f: &[u8], out: &mut [u8], past: &mut [u32]) -> FlowTaught
    requires { (length f.now ≤ max_flow) × Noted f.now past.old }
    ensures { Teaches (room_of r) out.old (of_verdict e (room_of r) f.now (length out.old) (verdict_of e f.now))
        result.answer (room_of result.room) out.new }
{
    match flow::verdict_of(f, e, past) {
        Err(Breakage::MarkupBreaks(_)) => refused(r, Err(FlowRefusal::BrokenMarkup)),
        Err(Breakage::StructureBreaks) => refused(r, Err(FlowRefusal::BrokenStructure)),
        Err(Breakage::FieldBreaks(p, x)) => refused(r, Err(FlowRefusal::BrokenField(p, x))),
        Ok(at) => for_bank(r, e, f, at, out, past),
    }
}

// Takes a flow of the edition of a number.
pub fn take_flow(r: Room, edition: u64, f: &[u8], out: &mut [u8]) -> FlowTaught
    ensures { FlowLesson (room_of r) edition f.now out.old result.answer (room_of result.room) out.new }
{
    let Some(e) = editions::edition_of(edition) else {
        return refused(r, Err(FlowRefusal::UnknownEdition));
    };
    if 32768 < f.len() {
        return refused(r, Err(FlowRefusal::TooLong));
    }
    let mut past = [0u32; 8193];
    take_noted(r, e, f, out, &mut past)
}
