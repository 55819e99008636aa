// Reads an outcome message of any bytes at all (Req 01): its length, markup, structure and fields, then whether its entries agree; then its values are
// written into the caller's buffer.
#![tactic(auto)]

ghost use Rattle.std.specs.Prelude.{◌≡◌, ◌+◌, ◌≤◌, length};
ghost use Rattle.tokens.specs.Tokens.{white_at};
ghost use Rattle.markup.specs.Noted.{Noted};
ghost use Rattle.flow.specs.Flow.{id_allowed};
ghost use Rattle.agreement.specs.Agreement.{entries_of};
ghost use Rattle.message.specs.Read.{max_message};
ghost use Rattle.message_read.specs.Steps.{count_from, earlier_of, by_off, by_standing, judged_by, judged_at, judged_of, ReadGives};
ghost use Rattle.message_read.specs.Promise.{ReadIn, ReadPromise};

use agreement::EntryKind;
use editions::Edition;
use fields::Cause;
use schema::Parent;
use standing::Flaw;

// Document 02's numbers of an answer: the code, the place and cause of a field that breaks, how many entries there are.
// Code and values stand side by side, since C takes them one by one (`hondivole_message_read`).
#[derive(Clone, Copy)]
pub struct Reply {
    pub code: u64,
    pub place: u64,
    pub cause: u64,
    pub entries: u64,
}

// What breaks in a message's content.
#[derive(Clone, Copy)]
enum MessageFlaw {
    Structure,
    Field(usize, Cause),
}

fn refusal(code: u64, place: usize, cause: u64) -> Reply
    ensures { result ≡ record { code = code; place = place; cause = cause; entries = 0 } }
{
    Reply {
        code,
        place: place as u64,
        cause,
        entries: 0,
    }
}

// How many entries of a kind there are among the root's children from a place on.
fn count_entries(s: &[u8], from: usize, kind: EntryKind, past: &[u32]) -> usize
    requires { (from ≤ length s.now) × Noted s.now past.now }
    ensures { (result ≡ length (entries_of kind s.now from)) × (result ≤ length s.now) }
{
    let mut i = from;
    let mut n: usize = 0;
    while let Some(k) = parts::next_row(
        s,
        i,
        Parent::MessaggiEsito,
        agreement::entry_row(kind),
        past,
    ) {
        let c = k.child;
        n += 1;
        i = c.after;
    }
    n
}

// The earlier of a field that breaks and an element that doesn't agree, which is of the wrong form.
fn earlier(p: usize, x: Cause, off: Option<usize>) -> Result<usize, MessageFlaw>
    ensures { result ≡ earlier_of p x off }
{
    match off {
        Some(q) => {
            if p <= q {
                Err(MessageFlaw::Field(p, x))
            } else {
                Err(MessageFlaw::Field(q, Cause::Misformed))
            }
        }
        None => Err(MessageFlaw::Field(p, x)),
    }
}

fn by_off(off: Option<usize>, n: usize) -> Result<usize, MessageFlaw>
    ensures { result ≡ by_off off n }
{
    match off {
        Some(q) => Err(MessageFlaw::Field(q, Cause::Misformed)),
        None => Ok(n),
    }
}

// What a message of as many entries as it may have comes to: its structure, then the first element that breaks.
fn stood(w: Result<(), Flaw>, off: Option<usize>, n: usize) -> Result<usize, MessageFlaw>
    ensures { result ≡ by_standing w off n }
{
    match w {
        Err(Flaw::StructureBreaks) => Err(MessageFlaw::Structure),
        Err(Flaw::FieldBreaks(p, x)) => earlier(p, x, off),
        Ok(()) => by_off(off, n),
    }
}

// Structure first, with 1 to 64 entries in all; then the first element that breaks.
#[tactic(auto, using(crate::proofs::Laws::judged_few, crate::proofs::Laws::judged_many, crate::proofs::Laws::judged_is))]
fn settle(w: Result<(), Flaw>, off: Option<usize>, n: usize) -> Result<usize, MessageFlaw>
    ensures { result ≡ judged_by w off n }
{
    if n < 1 || 64 < n {
        return Err(MessageFlaw::Structure);
    }
    stood(w, off, n)
}

// The content of a message's root.
fn judge_content(s: &[u8], at: usize, past: &[u32]) -> Result<usize, MessageFlaw>
    requires { (at ≤ length s.now) × (length s.now ≤ max_message) × Noted s.now past.now }
    ensures { result ≡ judged_at s.now at }
{
    let w = standing::judge(s, at, Parent::MessaggiEsito, 3, past);
    let from = scan::white_end(s, at);
    let n = count_entries(s, from, EntryKind::Reversale, past)
        + count_entries(s, from, EntryKind::Mandato, past);
    settle(w, agreement::first_off(s, from, past), n)
}

// The values of a message of n entries, its root's children from a place on: 40, or they are written.
fn give(s: &[u8], from: usize, n: usize, values: &mut [u8], past: &[u32]) -> Reply
    requires { (from ≤ length s.now) × (n ≡ count_from s.now from) × (n ≤ 64) × Noted s.now past.now }
    ensures { ReadGives s.now values.old from (Ok n) result values.new }
{
    if values.len() < message_values::HEAD + message_values::ENTRY * n {
        return refusal(40, 0, 0);
    }
    message_values::put_head(values, s, from, past);
    let to = message_values::put_entries(
        values,
        message_values::HEAD,
        s,
        from,
        EntryKind::Reversale,
        past,
    );
    message_values::put_entries(values, to, s, from, EntryKind::Mandato, past);
    Reply {
        code: 0,
        place: 0,
        cause: 0,
        entries: n as u64,
    }
}

// A message's content.
fn read_content(s: &[u8], at: usize, values: &mut [u8], past: &[u32]) -> Reply
    requires { (at ≤ length s.now) × (length s.now ≤ max_message) × Noted s.now past.now }
    ensures { ReadGives s.now values.old (white_at s.now at) (judged_at s.now at) result values.new }
{
    match judge_content(s, at, past) {
        Err(MessageFlaw::Structure) => refusal(4, 0, 0),
        Err(MessageFlaw::Field(p, x)) => refusal(5, p, fields::cause_number(x)),
        Ok(n) => give(s, scan::white_end(s, at), n, values, past),
    }
}

// A message whose markup stands: its root's name goes from the byte after lt up to e, and its content begins at a place.
fn read_root(s: &[u8], lt: usize, e: usize, at: usize, values: &mut [u8], past: &[u32]) -> Reply
    requires { (lt + 1 ≤ e) × (e ≤ length s.now) × (at ≤ length s.now) × (length s.now ≤ max_message) × Noted s.now past.now }
    ensures { ReadGives s.now values.old (white_at s.now at) (judged_of s.now lt e at) result
        values.new }
{
    if !schema::is(s, lt + 1, e, b"messaggi_esito_applicativo") {
        return refusal(4, 0, 0);
    }
    read_content(s, at, values, past)
}

// Whether an Id may stand on the root of a message.
fn id_allowed(e: Edition) -> bool
    ensures { result ≡ id_allowed e }
{
    matches!(e, Edition::Opi)
}

// Reads a message that is not too long, noting in `past` where its elements end.
fn read_noted(s: &[u8], ed: Edition, values: &mut [u8], past: &mut [u32]) -> Reply
    requires { (length s.now ≤ max_message) × Noted s.now past.old }
    ensures { ReadIn ed s.now values.old result values.new }
{
    match markup::markup_noted(s, id_allowed(ed), past) {
        Ok((lt, e, at)) => read_root(s, lt, e, at, values, past),
        Err(_) => refusal(3, 0, 0),
    }
}

// Reads a message of an edition.
pub fn read_in(s: &[u8], ed: Edition, values: &mut [u8]) -> Reply
    ensures { ReadIn ed s.now values.old result values.new }
{
    if 65536 < s.len() {
        return refusal(2, 0, 0);
    }
    let mut past = [0u32; 16385];
    read_noted(s, ed, values, &mut past)
}

// Reads a message of the edition of a number. Every byte of the values is determined, and none changes where the message is refused.
pub fn read_message(edition: u64, s: &[u8], values: &mut [u8]) -> Reply
    ensures { ReadPromise edition s.now values.old result values.new }
{
    let Some(e) = editions::edition_of(edition) else {
        return refusal(23, 0, 0);
    };
    read_in(s, e, values)
}
