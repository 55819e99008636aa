// An order as a flow writes it. The reader of flows makes it and the rules judge it; neither knows the other.
#![tactic(auto)]

ghost use Rattle.std.specs.Prelude.{◌≡◌, ◌≤◌, length};
ghost use Rattle.order.specs.Ordinativo.{lines_there};

use calendar::Date;
use codes::Operation;

// The line that a line of a SOSTITUZIONE names, by number, line and esercizio.
#[derive(Clone, Copy)]
pub struct NamedLine {
    pub number: u64,
    pub line: u64,
    pub esercizio: u64,
}

// A line of an order: its progressivo, its cents and the line that it names, zeros where it names none.
#[derive(Clone, Copy)]
pub struct Line {
    pub progressivo: u64,
    pub amount: u64,
    pub named: NamedLine,
}

// An order's lines: how many, and each of them, zeros after them.
// Places and a count, not a Vec: nothing here is on a heap.
#[derive(Clone, Copy)]
pub struct Lines {
    pub count: usize,
    pub each: [Line; 8],
}

// Kind: 1 mandato, 2 reversale.
#[derive(Clone, Copy)]
pub struct Order {
    pub kind: u8,
    pub operation: Operation,
    pub number: u64,
    pub date: Date,
    pub total: u64,
    pub lines: Lines,
}

// How many lines there are: never more than there are places.
pub fn count_of(ls: Lines) -> usize
    ensures { (result ≡ length (lines_there ls)) × (result ≤ 8) }
{
    ls.count.min(8)
}
