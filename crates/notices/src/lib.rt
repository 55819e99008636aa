// The bank's notices of execution and reversal, and a body's totals, on any bytes at all.
#![tactic(auto)]

ghost use Rattle.std.specs.Prelude.{◌≡◌, true, false, ℕ, ◌*◌, ◌≤◌, pos, ◌-ℤ◌};
ghost use Rattle.bounds.specs.Bounds.{max_cents, max_slots};
ghost use Rattle.address.specs.Address.{addressed};
ghost use Rattle.service.specs.Inner.{Served};
ghost use Rattle.notices.specs.Notices.{noticed, notice_by, notice_table_by, notice_reply, NoticePromise, zero_totals, body_totals, TotalsPromise};

use address::NoBody;
use calendar::Date;
use record::Key;
use rules::Noticed;

// Why a notice is refused.
#[derive(Clone, Copy)]
pub enum NoticeRefusal {
    InvalidTable,
    WrongDay(u64),
    UnknownBody,
    Declined(u8),
}

// What a notice's call answers: the line's cents, or why it is refused.
pub type NoticeAnswer = Result<u64, NoticeRefusal>;

// Document 01's numbers of an answer.
// Code and values stand side by side, since C takes them one by one (`hondivole_execute`).
#[derive(Clone, Copy)]
pub struct NoticeReply {
    pub code: u64,
    pub cents: u64,
}

// What a totals call answers.
#[derive(Clone, Copy)]
pub struct TotalsAnswer {
    pub code: u64,
    pub used: u64,
    pub paid: u64,
    pub collected: u64,
    pub balance: i64,
}

// What a notice that a body took answers.
pub fn answer_of(n: Noticed) -> NoticeAnswer
    ensures { result ≡ noticed n }
{
    n.map(|(_, cents)| cents).map_err(NoticeRefusal::Declined)
}

// A notice of a TARGET day.
fn notice(t: &mut [u8], code: &[u8], executing: bool, key: Key, line: u64) -> NoticeAnswer
    ensures { (result ≡ notice_by t.old executing key line (addressed t.old code.now))
        × (t.new ≡ notice_table_by t.old executing key line (addressed t.old code.now)) }
{
    match address::addressed_by(t, code) {
        Err(NoBody::Invalid) => Err(NoticeRefusal::InvalidTable),
        Err(NoBody::Unknown) => Err(NoticeRefusal::UnknownBody),
        Ok((e, base, n)) => answer_of(service::serve_notice(t, e, base, n, executing, key, line)),
    }
}

// A notice of any day: what is no TARGET day is refused after an invalid table and before an unknown body.
fn dated(t: &mut [u8], code: &[u8], executing: bool, key: Key, line: u64, day: Date) -> NoticeAnswer
    ensures { NoticePromise t.old executing code.now key line day result t.new }
{
    let refused = target_days::code_of(day);
    if refused == 0 {
        notice(t, code, executing, key, line)
    } else if table::table_ok(t) {
        Err(NoticeRefusal::WrongDay(refused))
    } else {
        Err(NoticeRefusal::InvalidTable)
    }
}

// Takes the bank's notice that a line was executed on a date.
pub fn execute(t: &mut [u8], code: &[u8], key: Key, line: u64, day: Date) -> NoticeAnswer
    ensures { NoticePromise t.old true code.now key line day result t.new }
{
    dated(t, code, true, key, line, day)
}

// Takes the bank's notice that a line's execution was reversed (storno) on a date.
pub fn reverse(t: &mut [u8], code: &[u8], key: Key, line: u64, day: Date) -> NoticeAnswer
    ensures { NoticePromise t.old false code.now key line day result t.new }
{
    dated(t, code, false, key, line, day)
}

// The numbers of an answer.
pub fn reply_of(a: NoticeAnswer) -> NoticeReply
    ensures { (result.code ≡ (notice_reply a).code) × (result.cents ≡ (notice_reply a).cents) }
{
    match a {
        Err(NoticeRefusal::InvalidTable) => NoticeReply { code: 1, cents: 0 },
        Err(NoticeRefusal::WrongDay(c)) => NoticeReply { code: c, cents: 0 },
        Err(NoticeRefusal::UnknownBody) => NoticeReply { code: 7, cents: 0 },
        Ok(cents) => NoticeReply { code: 0, cents },
        Err(NoticeRefusal::Declined(c)) => NoticeReply {
            code: c as u64,
            cents: 0,
        },
    }
}

// "A refusal gives zeros."
pub fn no_totals(code: u64) -> TotalsAnswer
    ensures { result ≡ zero_totals code }
{
    TotalsAnswer {
        code,
        used: 0,
        paid: 0,
        collected: 0,
        balance: 0,
    }
}

// The first number less the second, which may be below zero.
fn difference(a: u64, b: u64) -> i64
    requires { (a ≤ max_cents * max_slots) × (b ≤ max_cents * max_slots) }
    ensures { result ≡ pos a -ℤ pos b }
{
    (a as i64) - (b as i64)
}

// The totals of a valid body, as its entry keeps them.
fn body_totals(t: &[u8], e: usize, base: usize, n: usize) -> TotalsAnswer
    requires { Served t.now e base n }
    ensures { result ≡ body_totals t.now base n }
{
    let used = slots::used_slots(t, base, n) as u64;
    let paid = words::read8(t, e + entries::FIXED);
    let collected = words::read8(t, e + entries::COLLECTED);
    let balance = difference(collected, paid);
    TotalsAnswer {
        code: 0,
        used,
        paid,
        collected,
        balance,
    }
}

// A body's totals: used slots, cents paid and collected, and the balance, which may be below zero.
pub fn totals(t: &[u8], code: &[u8]) -> TotalsAnswer
    ensures { TotalsPromise t.now code.now result }
{
    match address::addressed_by(t, code) {
        Err(NoBody::Invalid) => no_totals(1),
        Err(NoBody::Unknown) => no_totals(7),
        Ok((e, base, n)) => body_totals(t, e, base, n),
    }
}
