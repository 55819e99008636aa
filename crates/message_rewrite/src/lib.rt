// Reads an outcome message and writes it again from the values read (Req 01).
#![tactic(auto)]

ghost use Rattle.std.specs.Prelude.{◌≡◌, ◌+◌, ◌*◌, ◌≤◌, length};
ghost use Rattle.tree.specs.Written.{bytes_of};
ghost use Rattle.message_pen.specs.Parts.{RoomFor, WroteAll, RoomOf, WroteTree};
ghost use Rattle.message_rewrite.specs.Again.{span_at, text_shown, PairAt, operation_by, said_at, entry_again, EntryAt, entries_again, EntriesAt, given_at, head_again, HeadAt, message_again, AllAt, again_reply, again_buffer};
ghost use Rattle.message_rewrite.specs.Promise.{RewriteIn, RewritePromise};

use calendar::Date;
use codes::Operation;
use editions::Edition;
use header::Span;
use message_pen::{Given, Saying};

// Document 02's numbers of an answer.
// Code and values stand side by side, since C takes them one by one (`hondivole_message_rewrite`).
#[derive(Clone, Copy)]
pub struct RewriteReply {
    pub code: u64,
    pub length: u64,
}

// Where the text stands that a pair of place and length shows.
fn span_at(v: &[u8], at: usize) -> Span
    requires { at + 8 ≤ length v.now }
    ensures { result ≡ span_at v.now at }
{
    let from = words::read4(v, at) as usize;
    let length = words::read4(v, at + 4) as usize;
    Span {
        from,
        to: from + length,
    }
}

// The text of a pair.
fn text_at<'a>(s: &'a [u8], v: &[u8], at: usize) -> &'a [u8]
    requires { PairAt s.now v.now at }
    ensures { result.now ≡ text_shown s.now v.now at }
{
    header::part_at(s, span_at(v, at))
}

fn operation_by(n: u8) -> Operation
    ensures { result ≡ operation_by n }
{
    match n {
        1 => Operation::Inserimento,
        2 => Operation::Variazione,
        3 => Operation::Annullo,
        _ => Operation::Sostituzione,
    }
}

// What an entry says but for its texts, of its 48 bytes.
fn said_at(v: &[u8], at: usize) -> Saying
    requires { at + 48 ≤ length v.now }
    ensures { result ≡ said_at v.now at }
{
    let date = Date {
        year: words::read2(v, at + 12),
        month: u64::from(scan::byte(v, at + 14)),
        day: u64::from(scan::byte(v, at + 15)),
    };
    Saying {
        kind: scan::byte(v, at),
        operation: operation_by(scan::byte(v, at + 1)),
        code: u64::from(scan::byte(v, at + 2)),
        esercizio: words::read2(v, at + 4),
        number: words::read4(v, at + 8),
        date,
        total: words::read8(v, at + 16),
    }
}

// An entry, from its 48 bytes and the message that its texts are parts of.
fn entry_again(m: &mut [u8], to: usize, s: &[u8], v: &[u8], at: usize) -> usize
    requires { (at + 48 ≤ length v.now) × EntryAt s.now v.now at × RoomOf to (entry_again s.now v.now at) }
    ensures { WroteTree m.old m.new to (entry_again s.now v.now at) result }
{
    let flow = text_at(s, v, at + 24);
    let time = text_at(s, v, at + 32);
    message_pen::entry(m, to, said_at(v, at), flow, time)
}

// The n entries.
fn entries_again(m: &mut [u8], to: usize, s: &[u8], v: &[u8], n: usize) -> usize
    requires { (80 + 48 * n ≤ length v.now) × EntriesAt s.now v.now 80 n × RoomFor to (entries_again s.now v.now 80 n) }
    ensures { WroteAll m.old m.new to (entries_again s.now v.now 80 n) result }
{
    let mut a = to;
    for k in 0..n {
        a = entry_again(m, a, s, v, 80 + 48 * k);
    }
    a
}

// Where the texts of the header stand, and identificativo_flusso_BT.
fn given_at(v: &[u8]) -> Given
    requires { 80 ≤ length v.now }
    ensures { result ≡ given_at v.now }
{
    Given {
        created: span_at(v, 8),
        ente: span_at(v, 16),
        described: span_at(v, 24),
        istat: span_at(v, 32),
        fiscal: span_at(v, 40),
        tramite: span_at(v, 48),
        bank: span_at(v, 56),
        flow: span_at(v, 72),
    }
}

// What stands before the entries.
fn head_again(m: &mut [u8], to: usize, s: &[u8], v: &[u8]) -> usize
    requires { HeadAt s.now v.now × RoomFor to (head_again s.now v.now) }
    ensures { WroteAll m.old m.new to (head_again s.now v.now) result }
{
    let abi = text_at(s, v, 0);
    let body = text_at(s, v, 64);
    message_pen::beginning(m, to, abi, s, given_at(v), body)
}

// The whole message.
fn again(m: &mut [u8], s: &[u8], v: &[u8], n: usize) -> usize
    requires { (80 + 48 * n ≤ length v.now) × AllAt s.now v.now n × RoomOf 0 (message_again s.now v.now n) }
    ensures { WroteTree m.old m.new 0 (message_again s.now v.now n) result }
{
    let a = pen::open_tag(m, 0, b"messaggi_esito_applicativo");
    let b = head_again(m, a, s, v);
    let c = entries_again(m, b, s, v, n);
    pen::close_tag(m, c, b"messaggi_esito_applicativo")
}

fn no_message(code: u64) -> RewriteReply
    ensures { result ≡ record { code = code; length = 0 } }
{
    RewriteReply { code, length: 0 }
}

// Counted first, then 40, or it is written.
fn counted(b: &mut [u8], s: &[u8], v: &[u8], n: usize) -> RewriteReply
    requires { (80 + 48 * n ≤ length v.now) × AllAt s.now v.now n × RoomOf 0 (message_again s.now v.now n) }
    ensures { (result ≡ again_reply (length b.old) (bytes_of (message_again s.now v.now n)))
        × (b.new ≡ again_buffer b.old (bytes_of (message_again s.now v.now n))) }
{
    let mut none = [0u8; 1];
    let to = again(&mut none, s, v, n);
    if b.len() < to {
        return no_message(40);
    }
    RewriteReply {
        code: 0,
        length: again(b, s, v, n) as u64,
    }
}

// Reads a message of an edition and writes it again.
fn rewrite_in(s: &[u8], ed: Edition, b: &mut [u8]) -> RewriteReply
    ensures { RewriteIn ed s.now b.old result b.new }
{
    let mut values = [0u8; 3152];
    let r = message_read::read_in(s, ed, &mut values);
    if r.code != 0 {
        return no_message(r.code);
    }
    counted(b, s, &values, r.entries as usize)
}

// Reads a message of the edition of a number and writes it again. Every byte of the buffer is determined, and none changes where the call is refused.
pub fn rewrite_message(edition: u64, s: &[u8], b: &mut [u8]) -> RewriteReply
    ensures { RewritePromise edition s.now b.old result b.new }
{
    let Some(e) = editions::edition_of(edition) else {
        return no_message(23);
    };
    rewrite_in(s, e, b)
}
