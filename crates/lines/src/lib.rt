// One order's lines: numbered 1, 2, 3 and so on, and summing to the total. Lent as one list of line structs, read in place.
#![tactic(auto)]

ghost use Rattle.std.specs.Prelude.{◌≡◌, ◌&&◌, ◌+◌, ◌-◌, ◌≤◌, ◌<◌, ◌^◌, take, eqb, leb};
ghost use Rattle.order.specs.Ordinativo.{lines_there};
ghost use Rattle.lines.specs.Lines.{line_code};
ghost use Rattle.lines.specs.Walk.{start_of, step_of, answer_of};

use order::{Line, Lines};

// What is known after some lines: all numbered as they should be, all fit into the total, and what they leave of it.
#[derive(Clone, Copy)]
struct Tally {
    numbered: bool,
    fits: bool,
    left: u64,
}

fn start(total: u64) -> Tally
    ensures { result ≡ start_of total }
{
    Tally {
        numbered: true,
        fits: true,
        left: total,
    }
}

// One line more, at place i.
fn step(t: Tally, i: usize, l: Line) -> Tally
    requires { i + 1 < 2 ^ 64 }
    ensures { result ≡ step_of t i l }
{
    Tally {
        numbered: t.numbered && l.progressivo == i as u64 + 1,
        fits: t.fits && l.amount <= t.left,
        // The total is counted down, so that no sum can wrap.
        left: t.left.saturating_sub(l.amount),
    }
}

// 12 where the lines aren't numbered 1, 2, 3 and so on, 13 where they don't sum to the total, else 0.
// A code stays a number: the step table, the outcome bytes, C and the theorems have it so, and an enum would say each code twice.
fn answer(t: Tally) -> u8
    ensures { result ≡ answer_of t }
{
    if !t.numbered {
        12
    } else if t.fits && t.left == 0 {
        0
    } else {
        13
    }
}

// The thin function over the lent list: it reads each line where it stands and hands it to `step`.
pub fn line_check(lines: &[Line], total: u64) -> u8
    ensures { result ≡ line_code lines.now total }
{
    let mut t = start(total);
    for (i, &line) in lines.iter().enumerate() {
        t = step(t, i, line);
    }
    answer(t)
}

// What an order's lines come to.
pub fn check_lines(ls: Lines, total: u64) -> u8
    ensures { result ≡ line_code (lines_there ls) total }
{
    line_check(&ls.each[..order::count_of(ls)], total)
}
