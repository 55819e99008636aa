// The calls of the C interface: thin functions over the desk, each with its promise; those of outcome messages stand in messages.rt. Every result is written
// on every path. Crate hondivole_c exports them to C.
#![tactic(auto)]

pub mod messages;

ghost use Rattle.std.specs.Prelude.{true, false};
ghost use Rattle.days.specs.Days.{date_by, days_told, DaysPromise};
ghost use Rattle.target_days.specs.Target.{first_told, FirstPromise};
ghost use Rattle.children.specs.Child.{FieldPromise};
ghost use Rattle.opening.specs.Opening.{OpenReplies};
ghost use Rattle.convert.specs.Convert.{ConvertReplies};
ghost use Rattle.salvage.specs.Salvage.{SalvageReplies};
ghost use Rattle.year_end.specs.YearEnd.{CloseReplies};
ghost use Rattle.desk.specs.Desk.{FlowReplies};
ghost use Rattle.journal.specs.Journal.{JournalPromise};
ghost use Rattle.notices.specs.Notices.{keyed, NoticeReplies, totalled, TotalsPromise};

use calendar::Date;
use record::Key;

// Opens a table.
pub fn hondivole_open(request: &[u8], table: &mut [u8]) -> u64
    ensures { OpenReplies request.now table.old result table.new }
{
    opening::code_of(opening::open_table(request, table))
}

// Converts a table 1 into a table 2.
pub fn hondivole_convert(old: &[u8], table: &mut [u8]) -> u64
    ensures { ConvertReplies old.now table.old result table.new }
{
    convert::code_of(convert::convert(old, table))
}

// Repairs a damaged table, and reports what was moved and what blanked.
pub fn hondivole_salvage(table: &mut [u8], report: &mut [u8], blanked: &mut u64) -> u64
    ensures { SalvageReplies table.old report.old result blanked.new table.new report.new }
{
    let a = salvage::reply_of(salvage::salvage(table, report));
    *blanked = a.blanked;
    a.code
}

// Closes a year for a body, and tells how many records were removed.
pub fn hondivole_close(table: &mut [u8], body: &[u8], year: u64, removed: &mut u64) -> u64
    ensures { CloseReplies table.old body.now year result removed.new table.new }
{
    let a = year_end::reply_of(year_end::close(table, body, year));
    *removed = a.removed;
    a.code
}

// Takes a flow of the edition of a number.
pub fn hondivole_flow(
    table: &mut [u8],
    edition: u64,
    flow: &[u8],
    outcomes: &mut [u8],
    place: &mut u64,
    orders: &mut u64,
    accepted: &mut u64,
    cause: &mut u64,
    steps: &mut u64,
) -> u64
    ensures { FlowReplies table.old edition flow.now outcomes.old
        (record {
          code = result;
          place = place.new;
          orders = orders.new;
          accepted = accepted.new;
          cause = cause.new;
          steps = steps.new;
        })
        table.new outcomes.new }
{
    let a = desk::reply_of(desk::take_flow(table, edition, flow, outcomes));
    *place = a.place;
    *orders = a.orders;
    *accepted = a.accepted;
    *cause = a.cause;
    *steps = a.steps;
    a.code
}

// Takes a notice of execution.
pub fn hondivole_execute(
    table: &mut [u8],
    body: &[u8],
    kind: u64,
    esercizio: u64,
    number: u64,
    line: u64,
    year: u64,
    month: u64,
    day: u64,
    cents: &mut u64,
) -> u64
    ensures { NoticeReplies table.old true body.now (keyed kind esercizio number) line (date_by year month day)
        result cents.new table.new }
{
    let key = Key {
        kind,
        esercizio,
        number,
    };
    let date = Date { year, month, day };
    let a = notices::reply_of(notices::execute(table, body, key, line, date));
    *cents = a.cents;
    a.code
}

// Takes a notice of reversal.
pub fn hondivole_reverse(
    table: &mut [u8],
    body: &[u8],
    kind: u64,
    esercizio: u64,
    number: u64,
    line: u64,
    year: u64,
    month: u64,
    day: u64,
    cents: &mut u64,
) -> u64
    ensures { NoticeReplies table.old false body.now (keyed kind esercizio number) line (date_by year month day)
        result cents.new table.new }
{
    let key = Key {
        kind,
        esercizio,
        number,
    };
    let date = Date { year, month, day };
    let a = notices::reply_of(notices::reverse(table, body, key, line, date));
    *cents = a.cents;
    a.code
}

// Checks a cash journal's movements against a body's executed lines.
pub fn hondivole_journal(table: &[u8], body: &[u8], movements: &[u8]) -> u64
    ensures { JournalPromise table.now body.now movements.now result }
{
    journal::check(table, body, movements)
}

// A body's totals.
pub fn hondivole_totals(
    table: &[u8],
    body: &[u8],
    used: &mut u64,
    paid: &mut u64,
    collected: &mut u64,
    balance: &mut i64,
) -> u64
    ensures { TotalsPromise table.now body.now
        (totalled result used.new paid.new collected.new balance.new) }
{
    let a = notices::totals(table, body);
    *used = a.used;
    *paid = a.paid;
    *collected = a.collected;
    let signed = a.balance;
    *balance = signed;
    a.code
}

// Where the name and the text of the element at a place stand.
pub fn hondivole_field_at(
    flow: &[u8],
    place: u64,
    name: &mut u64,
    name_len: &mut u64,
    text: &mut u64,
    text_len: &mut u64,
)
    ensures { FieldPromise flow.now place (record { name = name.new; name_len = name_len.new; text = text.new; text_len = text_len.new }) }
{
    let f = children::field_at(flow, place as usize);
    *name = f.name as u64;
    *name_len = f.name_len as u64;
    *text = f.text as u64;
    *text_len = f.text_len as u64;
}

// The first TARGET day on or after a date.
pub fn hondivole_first_target_day(
    year: u64,
    month: u64,
    day: u64,
    first_year: &mut u64,
    first_month: &mut u64,
    first_day: &mut u64,
) -> u64
    ensures { FirstPromise (date_by year month day) (first_told result (date_by first_year.new first_month.new
        first_day.new)) }
{
    let a = target_days::first_target_day(year, month, day);
    let d = a.date;
    *first_year = d.year;
    *first_month = d.month;
    *first_day = d.day;
    a.code
}

// The number of days between two dates, below zero when the second is earlier.
pub fn hondivole_days_between(
    year: u64,
    month: u64,
    day: u64,
    to_year: u64,
    to_month: u64,
    to_day: u64,
    days: &mut i64,
) -> u64
    ensures { DaysPromise (date_by year month day) (date_by to_year to_month to_day) (days_told result days.new) }
{
    let a = days::days_between(year, month, day, to_year, to_month, to_day);
    let signed = a.days;
    *days = signed;
    a.code
}
