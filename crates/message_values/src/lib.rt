// The values of an outcome message that stands, written into a lent buffer: ten texts of its header and 48 bytes per entry (docs/FORMAT.md). Texts are
// shown as parts of the message.
#![tactic(auto)]

ghost use Rattle.std.specs.Prelude.{◌≡◌, ℕ, ◌+◌, ◌*◌, ◌≤◌, ◌<◌, length, get_or};
ghost use Rattle.scan.specs.Bytes.{part};
ghost use Rattle.codes.specs.Codes.{esito_operazione};
ghost use Rattle.digits.specs.Digits.{esercizio, numero, importo, codice_errore};
ghost use Rattle.dates.specs.Dates.{data_of};
ghost use Rattle.markup.specs.Noted.{Noted};
ghost use Rattle.words.specs.Numbers.{put};
ghost use Rattle.schema.specs.declared.Parent.TheVariants.{MessaggiEsito};
ghost use Rattle.rows.specs.Kept.{kept_from};
ghost use Rattle.orders.specs.Orders.{value_of, date_of};
ghost use Rattle.parts.specs.Parts.{no_span, AllWithin};
ghost use Rattle.message.specs.Read.{operation_in};
ghost use Rattle.agreement.specs.Agreement.{entry_parent, entries_of};
ghost use Rattle.message_values.specs.Values.{entry_room, header_room, kind_number, span_bytes, spans_bytes, facts_bytes, error_code_at, facts_at, parts_bytes, entry_at, entries_at, head_at};

use agreement::EntryKind;
use calendar::Date;
use codes::{Esito, Operation};
use parts::Span;
use schema::Parent;

pub const ENTRY: usize = 48;

pub const HEAD: usize = 80;

// What an entry says, but its texts.
#[derive(Clone, Copy)]
pub struct Facts {
    pub kind: u8,
    pub operation: u8,
    pub code: u8,
    pub esercizio: u64,
    pub number: u64,
    pub date: Date,
    pub total: u64,
}

fn kind_number(k: EntryKind) -> u8
    ensures { result ≡ kind_number k }
{
    match k {
        EntryKind::Reversale => 2,
        EntryKind::Mandato => 1,
    }
}

fn date_of(d: Option<Date>) -> Date
    ensures { result ≡ date_of d }
{
    match d {
        Some(date) => date,
        None => Date {
            year: 0,
            month: 0,
            day: 0,
        },
    }
}

fn operation_of(e: Option<Esito>) -> Operation
    ensures { result ≡ operation_in e }
{
    match e {
        Some(Esito::Accepted(o)) | Some(Esito::Refused(o)) => o,
        None => Operation::Sostituzione,
    }
}

fn small(n: Option<u64>) -> u8
    requires { value_of n ≤ 255 }
    ensures { result ≡ value_of n }
{
    match n {
        Some(v) => v as u8,
        None => 0,
    }
}

fn year_at(s: &[u8], w: Span) -> u64
    requires { (w.from ≤ w.to) × (w.to ≤ length s.now) }
    ensures { result ≡ value_of (esercizio (part s.now w.from w.to)) }
{
    agreement::value_of(digits::esercizio_of(parts::text_at(s, w)))
}

fn number_at(s: &[u8], w: Span) -> u64
    requires { (w.from ≤ w.to) × (w.to ≤ length s.now) }
    ensures { result ≡ value_of (numero (part s.now w.from w.to)) }
{
    agreement::value_of(digits::numero_of(parts::text_at(s, w)))
}

fn total_at(s: &[u8], w: Span) -> u64
    requires { (w.from ≤ w.to) × (w.to ≤ length s.now) }
    ensures { result ≡ value_of (importo (part s.now w.from w.to)) }
{
    agreement::value_of(digits::importo_of(parts::text_at(s, w)))
}

fn date_at(s: &[u8], w: Span) -> Date
    requires { (w.from ≤ w.to) × (w.to ≤ length s.now) }
    ensures { result ≡ date_of (data_of (part s.now w.from w.to)) }
{
    date_of(dates::data_of(parts::text_at(s, w)))
}

fn operation_at(s: &[u8], w: Span) -> Operation
    requires { (w.from ≤ w.to) × (w.to ≤ length s.now) }
    ensures { result ≡ operation_in (esito_operazione (part s.now w.from w.to)) }
{
    operation_of(codes::esito_operazione(parts::text_at(s, w)))
}

fn error_at(s: &[u8], w: Span) -> u8
    requires { (w.from ≤ w.to) × (w.to ≤ length s.now) }
    ensures { result ≡ value_of (codice_errore (part s.now w.from w.to)) }
{
    small(digits::codice_errore(parts::text_at(s, w)))
}

// The code of an entry, 0 without a list of errors.
fn code_at(s: &[u8], list: Span, kind: EntryKind, past: &[u32]) -> u8
    requires { (list.from ≤ length s.now) × Noted s.now past.now }
    ensures { result ≡ error_code_at kind s.now list }
{
    if list.to == 0 {
        return 0;
    }
    let each = parts::parts_of(
        s,
        scan::white_end(s, list.from),
        agreement::errors_parent(kind),
        past,
    );
    error_at(s, each[1])
}

// An entry's facts, of its parts.
fn facts_of(s: &[u8], each: [Span; 9], kind: EntryKind, past: &[u32]) -> Facts
    requires { AllWithin s.now each × ((get_or each 8 no_span).from ≤ length s.now) × Noted s.now past.now }
    ensures { result ≡ facts_at kind s.now each }
{
    let code = code_at(s, each[8], kind, past);
    let esercizio = year_at(s, each[1]);
    let number = number_at(s, each[2]);
    let date = date_at(s, each[4]);
    let total = total_at(s, each[5]);
    let operation = codes::operation_number(operation_at(s, each[6]));
    let kind = kind_number(kind);
    Facts {
        kind,
        operation,
        code,
        esercizio,
        number,
        date,
        total,
    }
}

// The first 24 bytes of an entry: what it says.
fn put_facts(values: &mut [u8], at: usize, f: Facts)
    requires { at + 24 ≤ length values.old }
    ensures { values.new ≡ put values.old at (facts_bytes f) }
{
    let date = f.date;
    let first = [f.kind, f.operation, f.code, 0];
    let day = [(date.month % 256) as u8, (date.day % 256) as u8];
    words::copy_in(values, at, &first);
    words::write2(values, at + 4, f.esercizio);
    words::write2(values, at + 6, 0);
    words::write4(values, at + 8, f.number);
    words::write2(values, at + 12, date.year);
    words::copy_in(values, at + 14, &day);
    words::write8(values, at + 16, f.total);
}

// Where a text begins, and its length.
fn put_span(values: &mut [u8], at: usize, w: Span)
    requires { (at + 8 ≤ length values.old) × (w.from ≤ w.to) }
    ensures { values.new ≡ put values.old at (span_bytes w) }
{
    words::write4(values, at, w.from as u64);
    words::write4(values, at + 4, (w.to - w.from) as u64);
}

// Nine texts.
fn put_spans(values: &mut [u8], each: [Span; 9])
    requires { (72 ≤ length values.old) × ((n : ℕ) → n < 9 → (get_or each n no_span).from ≤ (get_or each n no_span).to) }
    ensures { values.new ≡ put values.old 0 (spans_bytes each) }
{
    for (i, &w) in each.iter().enumerate() {
        put_span(values, 8 * i, w);
    }
}

// An entry's 48 bytes: its facts, its two texts, zeros.
fn put_parts(values: &mut [u8], at: usize, f: Facts, flow: Span, time: Span)
    requires { (at + entry_room ≤ length values.old) × (flow.from ≤ flow.to) × (time.from ≤ time.to) }
    ensures { values.new ≡ put values.old at (parts_bytes f flow time) }
{
    put_facts(values, at, f);
    put_span(values, at + 24, flow);
    put_span(values, at + 32, time);
    words::write8(values, at + 40, 0);
}

// An entry, its children from a place on.
fn put_entry(values: &mut [u8], at: usize, s: &[u8], from: usize, kind: EntryKind, past: &[u32])
    requires { (at + entry_room ≤ length values.old) × (from ≤ length s.now) × Noted s.now past.now }
    ensures { values.new ≡ put values.old at (entry_at kind s.now (kept_from (entry_parent kind) s.now from)) }
{
    let each = parts::parts_of(s, from, agreement::entry_parent(kind), past);
    let f = facts_of(s, each, kind, past);
    put_parts(values, at, f, each[0], each[7]);
}

// The entries of a kind among the root's children from a place on: where the next would stand.
pub fn put_entries(
    values: &mut [u8],
    at: usize,
    s: &[u8],
    from: usize,
    kind: EntryKind,
    past: &[u32],
) -> usize
    requires { (at + entry_room * length (entries_of kind s.now from) ≤ length values.old) × (from ≤ length s.now) × Noted s.now past.now }
    ensures { (result ≡ at + entry_room * length (entries_of kind s.now from))
        × (values.new ≡ put values.old at (entries_at kind s.now (entries_of kind s.now from))) }
{
    let row = agreement::entry_row(kind);
    let mut to = at;
    let mut i = from;
    while let Some(k) = parts::next_row(s, i, Parent::MessaggiEsito, row, past) {
        let c = k.child;
        put_entry(values, to, s, scan::white_end(s, c.gt + 1), kind, past);
        to += ENTRY;
        i = c.after;
    }
    to
}

// The header, of the root's children from a place on.
pub fn put_head(values: &mut [u8], s: &[u8], from: usize, past: &[u32])
    requires { (header_room ≤ length values.old) × (from ≤ length s.now) × Noted s.now past.now }
    ensures { values.new ≡ put values.old 0 (head_at s.now (kept_from MessaggiEsito s.now from)) }
{
    let root = parts::parts_of(s, from, Parent::MessaggiEsito, past);
    let each = parts::parts_of(
        s,
        scan::white_end(s, root[0].from),
        Parent::TestataMessaggio,
        past,
    );
    put_spans(values, each);
    put_span(values, 72, root[1]);
}
