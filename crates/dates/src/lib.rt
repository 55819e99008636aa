// The forms that write a date: data_mandato, data_reversale, data_ora_creazione_flusso, and the times of an outcome message.
#![tactic(auto)]

ghost use Rattle.std.specs.Prelude.{◌≡◌};
ghost use Rattle.dates.specs.Dates.{day_of, data_written, data_of, is_on, signs, data_ora_written, data_ora, is_sign, zone_signs, zona_by, data_ora_zona, data_ora_zona_written};
ghost use Rattle.dates.specs.Inner.{is_day, is_time, ora_by, ora_zona_by};

use calendar::Date;

fn day_of(y: Option<u64>, m: Option<u64>, d: Option<u64>) -> Option<Date>
    ensures { result ≡ day_of y m d }
{
    Some(Date {
        year: y?,
        month: m?,
        day: d?,
    })
}

// The date that YYYY-MM-DD writes, real or not.
pub fn data_written(t: &[u8]) -> Option<Date>
    ensures { result ≡ data_written t.now }
{
    if t.len() == 10 && t[4] == b'-' && t[7] == b'-' {
        day_of(
            digits::four_digits(&t[..4]),
            digits::two_digits(&t[5..7]),
            digits::two_digits(&t[8..]),
        )
    } else {
        None
    }
}

// data_mandato, data_reversale
#[tactic(auto, unfolding(crate::specs::Dates::data_of))]
pub fn data_of(t: &[u8]) -> Option<Date>
    ensures { result ≡ data_of t.now }
{
    data_written(t).filter(|&d| calendar::is_date(d))
}

// A date, and a real one where REAL says so.
fn is_day<const REAL: bool>(t: &[u8]) -> bool
    ensures { result ≡ is_day REAL t.now }
{
    if REAL {
        data_of(t).is_some()
    } else {
        data_written(t).is_some()
    }
}

// Three numbers, and on a real clock where REAL says so.
#[tactic(auto, unfolding(crate::specs::Dates::clock))]
fn is_time<const REAL: bool>(h: Option<u64>, m: Option<u64>, s: Option<u64>) -> bool
    ensures { result ≡ is_time REAL h m s }
{
    match (h, m, s) {
        (Some(hour), Some(minute), Some(second)) => {
            !REAL || hour <= 23 && minute <= 59 && second <= 59
        }
        _ => false,
    }
}

pub fn is_on(d: Option<Date>) -> bool
    ensures { result ≡ is_on d }
{
    d.is_some()
}

// The length of YYYY-MM-DDThh:mm:ss, and its T and colons.
#[tactic(auto, unfolding(crate::specs::Dates::signs))]
fn signs_stand(t: &[u8]) -> bool
    ensures { result ≡ signs t.now }
{
    t.len() == 19 && t[10] == b'T' && t[13] == b':' && t[16] == b':'
}

// YYYY-MM-DDThh:mm:ss, of a real date and time where REAL says so.
#[tactic(auto, using(crate::proofs::Laws::signs_19), unfolding(crate::specs::Inner::ora_by))]
fn ora_by<const REAL: bool>(t: &[u8]) -> bool
    ensures { result ≡ ora_by REAL t.now }
{
    signs_stand(t)
        && is_day::<REAL>(&t[..10])
        && is_time::<REAL>(
            digits::two_digits(&t[11..13]),
            digits::two_digits(&t[14..16]),
            digits::two_digits(&t[17..]),
        )
}

// data_ora_creazione_flusso, whatever date and time it writes
#[tactic(auto, unfolding(crate::specs::Dates::data_ora_written, crate::specs::Inner::ora_by))]
pub fn data_ora_written(t: &[u8]) -> bool
    ensures { result ≡ data_ora_written t.now }
{
    ora_by::<false>(t)
}

// data_ora_creazione_flusso
#[tactic(auto, using(crate::proofs::Laws::ora_both), unfolding(crate::specs::Inner::ora_by))]
pub fn data_ora(t: &[u8]) -> bool
    ensures { result ≡ data_ora t.now }
{
    ora_by::<true>(t)
}

fn is_sign(b: u8) -> bool
    ensures { result ≡ is_sign b }
{
    matches!(b, b'+' | b'-')
}

// The length of a sign and hh:mm, the sign and the colon.
#[tactic(auto, unfolding(crate::specs::Dates::zone_signs))]
fn zone_signs(z: &[u8]) -> bool
    ensures { result ≡ zone_signs z.now }
{
    z.len() == 6 && is_sign(z[0]) && z[3] == b':'
}

// Z, or a sign and hh:mm, to 23:59 where REAL says so.
#[tactic(auto, using(crate::proofs::Laws::zone_6), unfolding(crate::specs::Dates::zona_by))]
fn zona_by<const REAL: bool>(z: &[u8]) -> bool
    ensures { result ≡ zona_by (is_time REAL) z.now }
{
    scan::same(z, b"Z")
        || zone_signs(z)
            && is_time::<REAL>(
                digits::two_digits(&z[1..3]),
                digits::two_digits(&z[4..]),
                Some(0),
            )
}

// A time with a zone, both real where REAL says so.
#[tactic(auto, using(crate::proofs::Laws::short), unfolding(crate::specs::Inner::ora_zona_by))]
fn ora_zona_by<const REAL: bool>(t: &[u8]) -> bool
    ensures { result ≡ ora_zona_by REAL t.now }
{
    19 <= t.len() && ora_by::<REAL>(&t[..19]) && zona_by::<REAL>(&t[19..])
}

// A time with a zone.
#[tactic(auto, using(crate::proofs::Laws::zona_real))]
pub fn data_ora_zona(t: &[u8]) -> bool
    ensures { result ≡ data_ora_zona t.now }
{
    ora_zona_by::<true>(t)
}

// A time with a zone, whatever date, time and zone it writes.
#[tactic(auto, unfolding(crate::specs::Inner::ora_zona_by, crate::specs::Inner::ora_by, crate::specs::Dates::data_ora_written, crate::specs::Dates::data_ora_zona_written))]
pub fn data_ora_zona_written(t: &[u8]) -> bool
    ensures { result ≡ data_ora_zona_written t.now }
{
    ora_zona_by::<false>(t)
}
