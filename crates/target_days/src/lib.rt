// TARGET days of the years 2002 to 2099, and the first of them on or after a date.
#![tactic(auto)]

ghost use Rattle.std.specs.Prelude.{◌≡◌, true, ◌≤◌};
ghost use Rattle.calendar.specs.Calendar.{is_date};
ghost use Rattle.days.specs.Days.{served, date_by, next_day};
ghost use Rattle.target_days.specs.Easter.{easter};
ghost use Rattle.target_days.specs.Target.{weekend, fixed_closing, march_day, closing, target_code, first_from, FirstPromise};

use calendar::Date;

// The first TARGET day on or after a date, or 27 with zeros.
// Code and values stand side by side, since C takes them one by one (`hondivole_first_target_day`).
#[derive(Clone, Copy)]
pub struct FirstDay {
    pub code: u64,
    pub date: Date,
}

// Easter Sunday of a year, as a day of March that is counted on into April: Butcher's rule.
fn easter_of(y: u64) -> u64
    requires { (2002 ≤ y) × (y ≤ 2099) }
    ensures { result ≡ easter y }
{
    let a = y % 19;
    let b = y / 100;
    let c = y % 100;
    let g = (b - (b + 8) / 25 + 1) / 3;
    let h = (19 * a + b - b / 4 - g + 15) % 30;
    let l = (32 + 2 * (b % 4) + 2 * (c / 4) - h - c % 4) % 7;
    let m = (a + 11 * h + 22 * l) / 451;
    h + l + 22 - 7 * m
}

#[tactic(auto, unfolding(crate::specs::Target::weekend))]
fn is_weekend(w: u64) -> bool
    ensures { result ≡ weekend w }
{
    matches!(w, 0 | 6)
}

// 1 January, 1 May, 25 and 26 December.
#[tactic(auto, unfolding(crate::specs::Target::fixed_closing))]
fn is_fixed(month: u64, day: u64) -> bool
    ensures { result ≡ fixed_closing month day }
{
    matches!((month, day), (1, 1) | (5, 1) | (12, 25 | 26))
}

// A day of March, counted on into April; 0 for the other months.
#[tactic(auto, unfolding(crate::specs::Target::march_day))]
fn march_day(month: u64, day: u64) -> u64
    requires { day ≤ 31 }
    ensures { result ≡ march_day month day }
{
    match month {
        3 => day,
        4 => 31 + day,
        _ => 0,
    }
}

#[tactic(auto, using(crate::proofs::Laws::march_most, crate::proofs::Laws::served_real, crate::proofs::Easter::easter_most, days::proofs::Laws::counted_date), unfolding(crate::specs::Target::closing, crate::specs::Target::closes_on))]
fn closes(d: Date) -> bool
    requires { served d ≡ true }
    ensures { result ≡ closing d }
{
    if is_weekend(days::weekday_of(days::number_of(d))) || is_fixed(d.month, d.day) {
        return true;
    }
    // Good Friday and Easter Monday.
    let e = easter_of(d.year);
    let m = march_day(d.month, d.day);
    m + 2 == e || m == e + 1
}

// 0 for a TARGET day, 27 for what is no date or outside the years, 28 for a closing day.
#[tactic(auto, unfolding(crate::specs::Target::target_code))]
pub fn code_of(d: Date) -> u64
    ensures { result ≡ target_code d }
{
    if !days::is_served(d) {
        27
    } else if closes(d) {
        28
    } else {
        0
    }
}

#[tactic(auto, using(calendar::proofs::Laws::date_ranges), unfolding(days::specs::Days::next_day))]
fn next_day(d: Date) -> Date
    requires { is_date d ≡ true }
    ensures { result ≡ next_day d }
{
    let same_month = Date {
        day: d.day + 1,
        ..d
    };
    let same_year = Date {
        month: d.month + 1,
        day: 1,
        ..d
    };
    if calendar::is_date(same_month) {
        same_month
    } else if calendar::is_date(same_year) {
        same_year
    } else {
        Date {
            year: d.year + 1,
            month: 1,
            day: 1,
        }
    }
}

// The first of d and the four days after it that is no closing day.
#[tactic(auto, using(crate::proofs::Laws::served_real, crate::proofs::Laws::code_served, crate::proofs::Laws::first_stop, crate::proofs::Laws::first_step), unfolding(crate::specs::Target::first_from))]
fn first_from(d: Date) -> Date
    ensures { result ≡ first_from 4 d }
{
    let mut e = d;
    for passed in 0..4u64 {
        if code_of(e) != 28 {
            return e;
        }
        e = next_day(e);
    }
    e
}

// The first TARGET day on or after a date; 27 with zeros where that is no date or outside the years.
#[tactic(auto, unfolding(crate::specs::Target::first_target_day))]
pub fn first_target_day(year: u64, month: u64, day: u64) -> FirstDay
    ensures { FirstPromise (date_by year month day) result }
{
    let d = Date { year, month, day };
    if days::is_served(d) {
        FirstDay {
            code: 0,
            date: first_from(d),
        }
    } else {
        FirstDay {
            code: 27,
            date: Date {
                year: 0,
                month: 0,
                day: 0,
            },
        }
    }
}
