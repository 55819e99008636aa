// The call that writes an outcome message, on any bytes at all: the caller's nine texts are judged and held together, so that no function below the call
// names them; the flow is read, the outcome bytes are judged, the message's length is counted by a run that writes nothing, and only then is it written.
#![tactic(auto)]

ghost use Rattle.std.specs.Prelude.{◌≡◌, true, ◌+◌, ◌≤◌, length};
ghost use Rattle.bounds.specs.Bounds.{max_flow};
ghost use Rattle.scan.specs.Bytes.{byte_at, part};
ghost use Rattle.markup.specs.Noted.{Noted};
ghost use Rattle.rows.specs.Kept.{kept_from};
ghost use Rattle.schema.specs.declared.Parent.TheVariants.{FlussoOpi};
ghost use Rattle.orders.specs.Shape.{order_rows, Shaped, Filled};
ghost use Rattle.orders.specs.Orders.{text_in, order_of};
ghost use Rattle.editions.specs.declared.Edition.TheVariants.{Opi};
ghost use Rattle.header.specs.Header.{root_of};
ghost use Rattle.header.specs.Heading.{root_rows, FourFirst};
ghost use Rattle.flow.specs.Flow.{verdict_of};
ghost use Rattle.message.specs.Written.{message_tree};
ghost use Rattle.message.specs.From.{outcomes_fit, message_from};
ghost use Rattle.message_pen.specs.Parts.{RoomFor, WroteAll, RoomOf, WroteTree};
ghost use Rattle.message_fit.specs.Fit.{caller_by};
ghost use Rattle.message_fit.specs.Walk.{orders_from, Rooted};
ghost use Rattle.message_fit.specs.Holding.{caller_in, HeldIn};
ghost use Rattle.message_write.specs.Write.{writing_of, write_in, Leaves, WritePromise, write_reply};
ghost use Rattle.message_write.specs.Parts.{entry_here, kind_from, header_with, flow_name, message_by, Written as Made};

use editions::Edition;
use flow::Breakage;
use header::{Heading, Span};
use message_fit::Held;
use message_pen::Saying;
use rows::Kept;
use schema::Parent;

// Why no message is written.
#[derive(Clone, Copy)]
pub enum WriteRefusal {
    UnknownEdition,
    TooLong,
    BrokenMarkup,
    BrokenStructure,
    BrokenField,
    Unfit,
    NoRoom,
}

// What writing a message answers: its length, or why none is written.
pub type WriteAnswer = Result<usize, WriteRefusal>;

// Document 02's numbers of an answer.
// Code and values stand side by side, since C takes them one by one (`hondivole_message_write`).
#[derive(Clone, Copy)]
pub struct WriteReply {
    pub code: u64,
    pub length: u64,
}

// The outcome bytes of a flow's orders, and the orders: those from a place of its root on, and where its elements end.
#[derive(Clone, Copy)]
struct Orders<'a> {
    out: &'a [u8],
    flow: &'a [u8],
    from: usize,
    root: Parent,
    past: &'a [u32],
}

// What all entries of a message say.
#[derive(Clone, Copy)]
struct Common<'a> {
    year: u64,
    name: &'a [u8],
    time: &'a [u8],
}

// The caller's nine texts, and the bytes that hold them.
#[derive(Clone, Copy)]
struct Texts<'a> {
    held: Held,
    bytes: &'a [u8],
}

// The entry of an order whose outcome bytes stand at a place, where it is of this kind: only then is the order read.
fn entry_at(
    m: &mut [u8],
    at: usize,
    kind: u8,
    all: Orders<'_>,
    n: Kept,
    k: usize,
    c: Common<'_>,
) -> usize
    requires { Shaped order_rows 3 all.flow.now n × Noted all.flow.now all.past.now × (byte_at all.out.now k ≡ (order_of all.flow.now n).kind)
        × (k + 16 ≤ length all.out.now) × RoomFor at (entry_here kind c.name.now c.year c.time.now all.flow.now n all.out.now k) }
    ensures { WroteAll m.old m.new at
        (entry_here kind c.entry.name.now c.entry.year c.entry.time.now all.entry.flow.now n all.entry.out.now k) result }
{
    if scan::byte(all.out, k) != kind {
        return at;
    }
    let o = orders::order_of(all.flow, n, all.past);
    let v = Saying {
        kind,
        operation: o.operation,
        code: u64::from(scan::byte(all.out, k + 2)),
        esercizio: c.year,
        number: o.number,
        date: o.date,
        total: o.total,
    };
    message_pen::entry(m, at, v, c.name, c.time)
}

// The entries of a kind, of the orders from a place on with their outcome bytes.
fn entries_of(m: &mut [u8], at: usize, kind: u8, all: Orders<'_>, c: Common<'_>) -> usize
    requires { Rooted all.root all.flow.now all.past.now all.from × (outcomes_fit (orders_from all.root all.flow.now all.from) all.out.now ≡ true)
        × RoomFor at (kind_from kind c.name.now c.year c.time.now all.root all.flow.now all.from all.out.now) }
    ensures { WroteAll m.old m.new at
        (kind_from kind c.entry.name.now c.entry.year c.entry.time.now all.entry.root all.entry.flow.now all.entry.from all.entry.out.now) result }
{
    let mut i = all.from;
    let mut k: usize = 0;
    let mut to = at;
    while let Some(n) = orders::next_order(all.flow, i, all.root, all.past) {
        to = entry_at(m, to, kind, all, n, k, c);
        k += 16;
        i = n.child.after;
    }
    to
}

// A whole message, from its header's texts and the orders of a flow: the entries of reversali, then those of mandati.
fn framed(
    m: &mut [u8],
    abi: &[u8],
    body: &[u8],
    year: u64,
    name: &[u8],
    all: Orders<'_>,
    t: Texts<'_>,
) -> usize
    requires { Rooted all.root all.flow.now all.past.now all.from × (outcomes_fit (orders_from all.root all.flow.now all.from) all.out.now ≡ true)
        × HeldIn t.held t.bytes.now
        × RoomOf 0 (message_tree (message_from (header_with abi.now body.now year) name.now (orders_from all.root all.flow.now all.from) all.out.now
        (caller_in t.held t.bytes.now))) }
    ensures { WroteTree m.old m.new 0
        (message_tree (message_from (header_with abi.now body.now year) name.now (orders_from all.entry.root all.entry.flow.now all.entry.from)
        all.entry.out.now (caller_in t.entry.held t.entry.bytes.now))) result }
{
    let time = header::part_at(t.bytes, t.held.outcome);
    let common = Common { year, name, time };
    let a = pen::open_tag(m, 0, b"messaggi_esito_applicativo");
    let b = message_pen::beginning(m, a, abi, t.bytes, t.held.given, body);
    let d = entries_of(m, b, 2, all, common);
    let e = entries_of(m, d, 1, all, common);
    pen::close_tag(m, e, b"messaggi_esito_applicativo")
}

// Where the second of the four fields stands that both editions have one after the other: identificativo_flusso.
fn second_from(f: &[u8], from: usize, parent: Parent, past: &[u32]) -> Span
    requires { FourFirst parent f.now from × Noted f.now past.now }
    ensures { (part f.now result.from result.to ≡ text_in 1 f.now (kept_from parent f.now from)) × (result.from ≤ result.to)
        × (result.to ≤ length f.now) }
{
    let a = orders::first_named(f, from, parent, past).child;
    let b = orders::first_named(f, a.after, parent, past).child;
    Span {
        from: b.gt + 1,
        to: b.to,
    }
}

// In edition 2, in its testata_flusso.
fn nested_name(f: &[u8], from: usize, past: &[u32]) -> Span
    requires { Filled (root_rows Opi) 3 FlussoOpi f.now 0 from × Noted f.now past.now }
    ensures { (part f.now result.from result.to ≡ flow_name Opi f.now from) × (result.from ≤ result.to) × (result.to ≤ length f.now) }
{
    let k = orders::first_named(f, from, Parent::FlussoOpi, past).child;
    let inner = scan::white_end(f, k.gt + 1);
    second_from(f, inner, Parent::TestataFlusso, past)
}

// Where identificativo_flusso stands.
fn name_of(f: &[u8], e: Edition, from: usize, past: &[u32]) -> Span
    requires { Filled (root_rows e) 3 (root_of e) f.now 0 from × Noted f.now past.now }
    ensures { (part f.now result.from result.to ≡ flow_name e f.now from) × (result.from ≤ result.to) × (result.to ≤ length f.now) }
{
    match e {
        Edition::Oil => second_from(f, from, Parent::FlussoOrdinativi, past),
        Edition::Opi => nested_name(f, from, past),
    }
}

// The message of a flow that stands, its texts where they stand in the flow.
fn whole(m: &mut [u8], all: Orders<'_>, h: Heading, w: Span, t: Texts<'_>) -> usize
    requires { Made all.flow.now all.past.now all.from all.root h w all.out.now t.held t.bytes.now }
    ensures { WroteTree m.old m.new 0
        (message_tree (message_by all.entry.flow.now all.entry.from all.entry.root h w all.entry.out.now (caller_in t.entry.held t.entry.bytes.now))) result }
{
    let abi = header::part_at(all.flow, h.abi);
    let body = header::part_at(all.flow, h.ente);
    let name = header::part_at(all.flow, w);
    framed(m, abi, body, h.esercizio, name, all, t)
}

// The message of a flow that stands, its root's content at a place: 41, or counted, then 40, or it is written.
fn standing(
    m: &mut [u8],
    f: &[u8],
    e: Edition,
    at: usize,
    past: &[u32],
    out: &[u8],
    t: Texts<'_>,
) -> WriteAnswer
    requires { (verdict_of e f.now ≡ Ok at) × Noted f.now past.now × HeldIn t.held t.bytes.now }
    ensures { Leaves m.old (writing_of e f.now out.now (caller_in t.entry.held t.entry.bytes.now) (Ok at)) result
        m.new }
{
    let root = header::root_of(e);
    let from = scan::white_end(f, at);
    if !message_fit::outcomes_fit(f, from, root, out, past) {
        return Err(WriteRefusal::Unfit);
    }
    if !t.held.right {
        return Err(WriteRefusal::Unfit);
    }
    let h = header::header_from(f, e, from, past);
    let w = name_of(f, e, from, past);
    let all = Orders {
        out,
        flow: f,
        from,
        root,
        past,
    };
    let mut none = [0u8; 1];
    let n = whole(&mut none, all, h, w, t);
    if m.len() < n {
        return Err(WriteRefusal::NoRoom);
    }
    Ok(whole(m, all, h, w, t))
}

// Reads a flow that is not too long, noting in `past` where its elements end, and writes its message.
fn write_noted(
    m: &mut [u8],
    past: &mut [u32],
    e: Edition,
    f: &[u8],
    out: &[u8],
    t: Texts<'_>,
) -> WriteAnswer
    requires { (length f.now ≤ max_flow) × Noted f.now past.old × HeldIn t.held t.bytes.now }
    ensures { Leaves m.old (write_in e f.now out.now (caller_in t.entry.held t.entry.bytes.now)) result m.new }
{
    match flow::verdict_of(f, e, past) {
        Err(Breakage::MarkupBreaks(_)) => Err(WriteRefusal::BrokenMarkup),
        Err(Breakage::StructureBreaks) => Err(WriteRefusal::BrokenStructure),
        Err(Breakage::FieldBreaks(_, _)) => Err(WriteRefusal::BrokenField),
        Ok(at) => standing(m, f, e, at, past, out, t),
    }
}

// Writes the outcome message of a flow of an edition.
fn write_in(e: Edition, f: &[u8], out: &[u8], t: Texts<'_>, m: &mut [u8]) -> WriteAnswer
    requires { HeldIn t.held t.bytes.now }
    ensures { Leaves m.old (write_in e f.now out.now (caller_in t.entry.held t.entry.bytes.now)) result m.new }
{
    if 32768 < f.len() {
        return Err(WriteRefusal::TooLong);
    }
    if f.len() < 4096 {
        let mut few = [0u32; 1024];
        return write_noted(m, &mut few, e, f, out, t);
    }
    let mut past = [0u32; 8193];
    write_noted(m, &mut past, e, f, out, t)
}

// Writes the outcome message of a flow of the edition of a number. Every byte of the buffer is determined, and none changes where the call is refused.
pub fn write_message(
    edition: u64,
    f: &[u8],
    out: &[u8],
    created: &[u8],
    outcome: &[u8],
    ente: &[u8],
    described: &[u8],
    istat: &[u8],
    fiscal: &[u8],
    tramite: &[u8],
    bank: &[u8],
    flow: &[u8],
    m: &mut [u8],
) -> WriteAnswer
    ensures { WritePromise edition f.now out.now (caller_by created.now outcome.now ente.now
        described.now
        istat.now fiscal.now tramite.now bank.now flow.now) m.old result m.new }
{
    let Some(e) = editions::edition_of(edition) else {
        return Err(WriteRefusal::UnknownEdition);
    };
    let mut texts = [0u8; message_fit::TEXTS_ROOM];
    let held = message_fit::hold(
        &mut texts, created, outcome, istat, ente, described, fiscal, tramite, bank, flow,
    );
    let t = Texts {
        held,
        bytes: &texts,
    };
    write_in(e, f, out, t, m)
}

fn no_message(code: u64) -> WriteReply
    ensures { (result.code ≡ code) × (result.length ≡ 0) }
{
    WriteReply { code, length: 0 }
}

// The numbers of an answer.
pub fn reply_of(a: WriteAnswer) -> WriteReply
    ensures { (result.code ≡ (write_reply a).code) × (result.length ≡ (write_reply a).length) }
{
    match a {
        Err(WriteRefusal::UnknownEdition) => no_message(23),
        Err(WriteRefusal::TooLong) => no_message(2),
        Err(WriteRefusal::BrokenMarkup) => no_message(3),
        Err(WriteRefusal::BrokenStructure) => no_message(4),
        Err(WriteRefusal::BrokenField) => no_message(5),
        Err(WriteRefusal::Unfit) => no_message(41),
        Err(WriteRefusal::NoRoom) => no_message(40),
        Ok(n) => WriteReply {
            code: 0,
            length: n as u64,
        },
    }
}
