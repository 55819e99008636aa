// Real Gregorian dates of the years 2000 to 2099, which fields write and the table keeps.
#![tactic(auto)]

ghost use Rattle.std.specs.Prelude.{◌≡◌};
ghost use Rattle.calendar.specs.Calendar.{leap, month_length, is_date};

#[derive(Clone, Copy)]
pub struct Date {
    pub year: u64,
    pub month: u64,
    pub day: u64,
}

#[tactic(auto, unfolding(crate::specs::Calendar::leap))]
fn is_leap(y: u64) -> bool
    ensures { result ≡ leap y }
{
    y % 4 == 0 && (y % 100 != 0 || y % 400 == 0)
}

#[tactic(auto, unfolding(crate::specs::Calendar::month_length))]
fn month_length(y: u64, m: u64) -> u64
    ensures { result ≡ month_length y m }
{
    match m {
        2 => if is_leap(y) { 29 } else { 28 },
        4 | 6 | 9 | 11 => 30,
        _ => 31,
    }
}

#[tactic(auto, unfolding(crate::specs::Calendar::is_date))]
pub fn is_date(d: Date) -> bool
    ensures { result ≡ is_date d }
{
    // Most days are in every month, and the month's length is not asked.
    (bounds::FIRST_YEAR..=bounds::LAST_YEAR).contains(&d.year)
        && (1..=12).contains(&d.month)
        && 1 <= d.day
        && (d.day <= 28 || d.day <= month_length(d.year, d.month))
}
