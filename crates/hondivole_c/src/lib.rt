// The C interface: what the static library exports, each function under its C name with the promise of the one in crate hondivole that it calls;
// those of outcome messages stand in messages.rt.
#![tactic(auto)]

pub mod messages;

ghost use Rattle.std.specs.Prelude.{true, false};
ghost use Rattle.days.specs.Days.{date_by, days_told, DaysPromise};
ghost use Rattle.target_days.specs.Target.{first_told, FirstPromise};
ghost use Rattle.children.specs.Child.{FieldPromise};
ghost use Rattle.opening.specs.Opening.{OpenReplies};
ghost use Rattle.convert.specs.Convert.{ConvertReplies};
ghost use Rattle.salvage.specs.Salvage.{SalvageReplies};
ghost use Rattle.year_end.specs.YearEnd.{CloseReplies};
ghost use Rattle.desk.specs.Desk.{FlowReplies};
ghost use Rattle.journal.specs.Journal.{JournalPromise};
ghost use Rattle.notices.specs.Notices.{keyed, NoticeReplies, totalled, TotalsPromise};

// Opens a table.
#[unsafe(no_mangle)]
pub extern "C" fn hondivole_open(request: &[u8], table: &mut [u8]) -> u64
    ensures { OpenReplies request.now table.old result table.new }
{
    hondivole::hondivole_open(request, table)
}

// Converts a table 1 into a table 2.
#[unsafe(no_mangle)]
pub extern "C" fn hondivole_convert(old: &[u8], table: &mut [u8]) -> u64
    ensures { ConvertReplies old.now table.old result table.new }
{
    hondivole::hondivole_convert(old, table)
}

// Repairs a damaged table, and reports what was moved and what blanked.
#[unsafe(no_mangle)]
pub extern "C" fn hondivole_salvage(table: &mut [u8], report: &mut [u8], blanked: &mut u64) -> u64
    ensures { SalvageReplies table.old report.old result blanked.new table.new report.new }
{
    hondivole::hondivole_salvage(table, report, blanked)
}

// Closes a year for a body, and tells how many records were removed.
#[unsafe(no_mangle)]
pub extern "C" fn hondivole_close(
    table: &mut [u8],
    body: &[u8],
    year: u64,
    removed: &mut u64,
) -> u64
    ensures { CloseReplies table.old body.now year result removed.new table.new }
{
    hondivole::hondivole_close(table, body, year, removed)
}

// Takes a flow of the edition of a number.
#[unsafe(no_mangle)]
pub extern "C" fn hondivole_flow(
    table: &mut [u8],
    edition: u64,
    flow: &[u8],
    outcomes: &mut [u8],
    place: &mut u64,
    orders: &mut u64,
    accepted: &mut u64,
    cause: &mut u64,
    steps: &mut u64,
) -> u64
    ensures { FlowReplies table.old edition flow.now outcomes.old
        (record {
          code = result;
          place = place.new;
          orders = orders.new;
          accepted = accepted.new;
          cause = cause.new;
          steps = steps.new;
        })
        table.new outcomes.new }
{
    hondivole::hondivole_flow(
        table, edition, flow, outcomes, place, orders, accepted, cause, steps,
    )
}

// Takes a notice of execution.
#[unsafe(no_mangle)]
pub extern "C" fn hondivole_execute(
    table: &mut [u8],
    body: &[u8],
    kind: u64,
    esercizio: u64,
    number: u64,
    line: u64,
    year: u64,
    month: u64,
    day: u64,
    cents: &mut u64,
) -> u64
    ensures { NoticeReplies table.old true body.now (keyed kind esercizio number) line (date_by year month day)
        result cents.new table.new }
{
    hondivole::hondivole_execute(
        table, body, kind, esercizio, number, line, year, month, day, cents,
    )
}

// Takes a notice of reversal.
#[unsafe(no_mangle)]
pub extern "C" fn hondivole_reverse(
    table: &mut [u8],
    body: &[u8],
    kind: u64,
    esercizio: u64,
    number: u64,
    line: u64,
    year: u64,
    month: u64,
    day: u64,
    cents: &mut u64,
) -> u64
    ensures { NoticeReplies table.old false body.now (keyed kind esercizio number) line (date_by year month day)
        result cents.new table.new }
{
    hondivole::hondivole_reverse(
        table, body, kind, esercizio, number, line, year, month, day, cents,
    )
}

// Checks a cash journal's movements against a body's executed lines.
#[unsafe(no_mangle)]
pub extern "C" fn hondivole_journal(table: &[u8], body: &[u8], movements: &[u8]) -> u64
    ensures { JournalPromise table.now body.now movements.now result }
{
    hondivole::hondivole_journal(table, body, movements)
}

// A body's totals.
#[unsafe(no_mangle)]
pub extern "C" fn hondivole_totals(
    table: &[u8],
    body: &[u8],
    used: &mut u64,
    paid: &mut u64,
    collected: &mut u64,
    balance: &mut i64,
) -> u64
    ensures { TotalsPromise table.now body.now
        (totalled result used.new paid.new collected.new balance.new) }
{
    hondivole::hondivole_totals(table, body, used, paid, collected, balance)
}

// Where the name and the text of the element at a place stand.
#[unsafe(no_mangle)]
pub extern "C" fn hondivole_field_at(
    flow: &[u8],
    place: u64,
    name: &mut u64,
    name_len: &mut u64,
    text: &mut u64,
    text_len: &mut u64,
)
    ensures { FieldPromise flow.now place (record { name = name.new; name_len = name_len.new; text = text.new; text_len = text_len.new }) }
{
    hondivole::hondivole_field_at(flow, place, name, name_len, text, text_len)
}

// The first TARGET day on or after a date.
#[unsafe(no_mangle)]
pub extern "C" fn hondivole_first_target_day(
    year: u64,
    month: u64,
    day: u64,
    first_year: &mut u64,
    first_month: &mut u64,
    first_day: &mut u64,
) -> u64
    ensures { FirstPromise (date_by year month day) (first_told result (date_by first_year.new first_month.new
        first_day.new)) }
{
    hondivole::hondivole_first_target_day(year, month, day, first_year, first_month, first_day)
}

// The number of days between two dates, below zero when the second is earlier.
#[unsafe(no_mangle)]
pub extern "C" fn hondivole_days_between(
    year: u64,
    month: u64,
    day: u64,
    to_year: u64,
    to_month: u64,
    to_day: u64,
    days: &mut i64,
) -> u64
    ensures { DaysPromise (date_by year month day) (date_by to_year to_month to_day) (days_told result days.new) }
{
    hondivole::hondivole_days_between(year, month, day, to_year, to_month, to_day, days)
}
