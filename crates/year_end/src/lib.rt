// Closing a year: a body's call, on any bytes at all. All is judged before a byte is written.
#![tactic(auto)]

ghost use Rattle.std.specs.Prelude.{◌≡◌, ◌+◌, ◌≤◌};
ghost use Rattle.slots.specs.Slots.{records_at};
ghost use Rattle.entries.specs.Entry.{closed_of};
ghost use Rattle.closing.specs.Closing.{removed};
ghost use Rattle.service.specs.Service.{settled};
ghost use Rattle.year_end.specs.YearEnd.{close_of, body_closed, close_stored, ClosePromise, close_reply};
ghost use Rattle.year_end.specs.Inner.{Fits};

use address::NoBody;

// Why a year is not closed.
#[derive(Clone, Copy)]
pub enum CloseRefusal {
    InvalidTable,
    UnknownBody,
    NotAYear,
    AlreadyClosed,
    EarlierRemains,
    LineWaits,
}

// What a close answers: how many records were removed, or why it is refused.
pub type CloseAnswer = Result<usize, CloseRefusal>;

// An answer in document 02's numbers.
// Code and values stand side by side, since C takes them one by one (`hondivole_close`).
#[derive(Clone, Copy)]
pub struct CloseReply {
    pub code: u64,
    pub removed: u64,
}

// Sets the totals that a body's entry keeps anew, from its records.
fn settle_body(t: &mut [u8], e: usize, base: usize, n: usize)
    requires { Fits t.old e base n }
    ensures { t.new ≡ settled t.old e (records_at t.old base n) }
{
    if let Some((paid, collected)) = body::judge(t, base, n) {
        entries::settle(t, e, paid, collected);
    }
}

// Closes a year in a body: how many records are removed.
fn close_body(t: &mut [u8], e: usize, base: usize, n: usize, year: u64) -> usize
    requires { Fits t.old e base n }
    ensures { (result ≡ removed year (records_at t.old base n)) × (t.new ≡ body_closed t.old e base n year) }
{
    let count = closing::remove_year(t, base, n, year);
    settle_body(t, e, base, n);
    words::write2(t, e + entries::CLOSED, year);
    count
}

// Closes a year in a body, unless something stands against it.
#[tactic(auto, using(crate::proofs::Laws::too_early, crate::proofs::Laws::too_late))]
fn close_in(t: &mut [u8], e: usize, base: usize, n: usize, year: u64) -> CloseAnswer
    requires { Fits t.old e base n }
    ensures { (result ≡ close_of (closed_of t.old e) year (records_at t.old base n))
        × (t.new ≡ close_stored t.old e base n year result) }
{
    if year < bounds::FIRST_YEAR || bounds::LAST_YEAR < year {
        return Err(CloseRefusal::NotAYear);
    }
    if year <= entries::closed_of(t, e) {
        return Err(CloseRefusal::AlreadyClosed);
    }
    if closing::earlier_remains(t, base, n, year) {
        return Err(CloseRefusal::EarlierRemains);
    }
    if closing::line_waits(t, base, n, year) {
        return Err(CloseRefusal::LineWaits);
    }
    Ok(close_body(t, e, base, n, year))
}

// Closes a year for the body with a code, or leaves the table as it is.
pub fn close(t: &mut [u8], code: &[u8], year: u64) -> CloseAnswer
    ensures { ClosePromise t.old code.now year result t.new }
{
    match address::addressed_by(t, code) {
        Err(NoBody::Invalid) => Err(CloseRefusal::InvalidTable),
        Err(NoBody::Unknown) => Err(CloseRefusal::UnknownBody),
        Ok((e, base, n)) => close_in(t, e, base, n, year),
    }
}

// Document 02's numbers of an answer.
pub fn reply_of(a: CloseAnswer) -> CloseReply
    ensures { (result.code ≡ (close_reply a).code) × (result.removed ≡ (close_reply a).removed) }
{
    match a {
        Err(CloseRefusal::InvalidTable) => refusal(1),
        Err(CloseRefusal::UnknownBody) => refusal(7),
        Err(CloseRefusal::NotAYear) => refusal(37),
        Err(CloseRefusal::AlreadyClosed) => refusal(36),
        Err(CloseRefusal::EarlierRemains) => refusal(38),
        Err(CloseRefusal::LineWaits) => refusal(39),
        Ok(count) => CloseReply {
            code: 0,
            removed: count as u64,
        },
    }
}

fn refusal(code: u64) -> CloseReply
    ensures { (result.code ≡ code) × (result.removed ≡ 0) }
{
    CloseReply { code, removed: 0 }
}
