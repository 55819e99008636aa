// When the record in a slot is valid by itself: its ranges, its eight lines, and their sum; and the cents of its executed lines. All is read where the
// bytes stand.
#![tactic(auto)]

ghost use Rattle.std.specs.Prelude.{◌≡◌, ◌&&◌, cond, ◌+◌, ◌-◌, ◌*◌, ◌≤◌, ◌<◌, length, get_or, drop, eqb};
ghost use Rattle.words.specs.Numbers.{be8};
ghost use Rattle.scan.specs.Bytes.{between};
ghost use Rattle.bounds.specs.Bounds.{max_cents};
ghost use Rattle.calendar.specs.Calendar.{is_date};
ghost use Rattle.record.specs.Slot.{slot_size, waiting_line, replaced_line, states_offset, amounts_offset, date_at, record_at};
ghost use Rattle.valid.specs.Valid.{line_absent, line_ok, all_from, sum, ranges_ok, executed};
ghost use Rattle.valid.specs.Inner.{judged_by, judged_record};

use calendar::Date;

fn top_state(annulled: bool) -> u8
    ensures { result ≡ cond annulled waiting_line replaced_line }
{
    if annulled {
        record::WAITING
    } else {
        record::REPLACED
    }
}

// The state of a line that is there. Its amount needs no bound of its own: it is at most what is left of the total.
fn state_there(annulled: bool, state: u8) -> bool
    ensures { result ≡ between waiting_line (cond annulled waiting_line replaced_line) state }
{
    (record::WAITING..=top_state(annulled)).contains(&state)
}

fn date_ok(t: &[u8], at: usize) -> bool
    requires { at + 4 ≤ length t.now }
    ensures { result ≡ is_date (date_at t.now at) }
{
    calendar::is_date(Date {
        year: words::read2(t, at),
        month: u64::from(t[at + 2]),
        day: u64::from(t[at + 3]),
    })
}

#[tactic(auto, unfolding(crate::specs::Valid::ranges_ok, record::specs::Slot::record_at))]
fn ranges_ok(t: &[u8], at: usize) -> bool
    requires { at + slot_size ≤ length t.now }
    ensures { result ≡ ranges_ok (record_at t.now at) }
{
    let esercizio = words::read2(t, at + 4);
    let number = words::read4(t, at + 8);
    date_ok(t, at + 12)
        && matches!(t[at], record::MANDATO..=record::REVERSALE)
            & matches!(t[at + 1], record::ACQUIRED..=record::ANNULLED)
            & matches!(t[at + 2], 1..=8)
            & (bounds::FIRST_YEAR..=bounds::LAST_YEAR).contains(&esercizio)
            & (1..=bounds::MAX_NUMERO).contains(&number)
            & (words::read8(t, at + 16) <= bounds::MAX_CENTS)
}

// Whether a line holds nothing.
#[tactic(auto, unfolding(crate::specs::Valid::line_absent))]
fn line_absent(t: &[u8], at: usize, k: usize) -> bool
    requires { (at + slot_size ≤ length t.now) × (k < 8) }
    ensures { result ≡ line_absent (get_or t.now (at + states_offset + k) 0) (be8 t.now (at + amounts_offset + 8 * k)) }
{
    (t[at + record::STATES + k] == 0) & (words::read8(t, at + record::AMOUNTS + 8 * k) == 0)
}

// Whether the lines past the record's number of lines all hold nothing. There is no way out of the loop before its end, so that for a number known
// beforehand it is compiled to a few compares.
fn absent_from(t: &[u8], at: usize, lines: usize) -> bool
    requires { (at + slot_size ≤ length t.now) × (lines ≤ 8) × (lines ≡ (record_at t.now at).lines) }
    ensures { result ≡ all_from (line_ok (record_at t.now at)) lines (8 - lines) }
{
    let mut right = true;
    for k in lines..8 {
        right &= line_absent(t, at, k);
    }
    right
}

// The same with each number of lines written out.
fn lines_absent(t: &[u8], at: usize, lines: usize) -> bool
    requires { (at + slot_size ≤ length t.now) × (lines ≤ 8) × (lines ≡ (record_at t.now at).lines) }
    ensures { result ≡ all_from (line_ok (record_at t.now at)) lines (8 - lines) }
{
    match lines {
        1 => absent_from(t, at, 1),
        2 => absent_from(t, at, 2),
        3 => absent_from(t, at, 3),
        4 => absent_from(t, at, 4),
        5 => absent_from(t, at, 5),
        6 => absent_from(t, at, 6),
        7 => absent_from(t, at, 7),
        _ => absent_from(t, at, lines),
    }
}

// What a line adds to its order's executed cents.
pub fn line_cents(executed: bool, amount: u64) -> u64
    ensures { (result ≡ cond executed amount 0) × (result ≤ amount) }
{
    if executed { amount } else { 0 }
}

// Whether the lines that are there are right and sum to the total, with no sum that could wrap, and what is executed; the others hold nothing.
fn lines_there(t: &[u8], at: usize, lines: usize) -> Option<u64>
    requires { (at + slot_size ≤ length t.now) × (lines ≤ 8) × (lines ≡ (record_at t.now at).lines)
        × (sum (drop lines (record_at t.now at).amounts) ≡ 0) × ((record_at t.now at).total ≤ max_cents) }
    ensures { result ≡ judged_by (all_from (line_ok (record_at t.now at)) 0 lines
        && eqb (sum (record_at t.now at).amounts) (record_at t.now at).total) (executed (record_at t.now at)) }
{
    let annulled = t[at + 1] == record::ANNULLED;
    let mut rest = words::read8(t, at + 16);
    let mut cents: u64 = 0;
    for k in 0..lines {
        let amount = words::read8(t, at + record::AMOUNTS + 8 * k);
        let state = t[at + record::STATES + k];
        if !state_there(annulled, state) {
            return None;
        }
        if rest < amount {
            return None;
        }
        rest -= amount;
        cents += line_cents(state == record::EXECUTED, amount);
    }
    (rest == 0).then_some(cents)
}

// Whether the record in the slot at a place is valid, and the cents of its executed lines.
pub fn judge_at(t: &[u8], at: usize) -> Option<u64>
    requires { at + slot_size ≤ length t.now }
    ensures { result ≡ judged_record (record_at t.now at) }
{
    if !ranges_ok(t, at) {
        return None;
    }
    let lines = usize::from(t[at + 2]);
    if !lines_absent(t, at, lines) {
        return None;
    }
    lines_there(t, at, lines)
}
