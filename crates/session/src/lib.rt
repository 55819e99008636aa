// A run of document 01's program: a table for ABI 01234 with 000471 and 471, four slots each; one flow from standard input; its answer, its
// orders and the bodies' totals on standard output, with a sentence for each refusal where asked. Everything that decides is in the library.
#![tactic(auto)]

use printing::{say_body, say_flow, say_order};
use std::io;
use std::io::{Read, Write};

// The lines of the orders, and why each that is refused is.
fn tell_orders<W: Write>(to: &mut W, out: &[u8], orders: u64, explaining: bool) -> io::Result<()> {
    for order in out.as_chunks::<16>().0.iter().take(orders as usize) {
        say_order(to, order)?;
        if explaining {
            reasons::of_order(to, order[2])?;
        }
    }
    Ok(())
}

fn tell_body<W: Write>(to: &mut W, table: &[u8], code: &[u8]) -> io::Result<()> {
    let t = notices::totals(table, code);
    say_body(to, code, t.used, t.balance)
}

fn tell_reason<W: Write>(
    to: &mut W,
    flow: &[u8],
    code: u64,
    place: u64,
    cause: u64,
    explaining: bool,
) -> io::Result<()> {
    if explaining {
        reasons::of_flow(to, flow, code, place, cause)
    } else {
        Ok(())
    }
}

// Opens the table, takes the flow and prints: whether all was written.
fn run<W: Write>(to: &mut W, flow: &[u8], explaining: bool) -> io::Result<()> {
    let mut table = [0u8; 880];
    let mut outcomes = [0u8; 1024];
    let mut place: u64 = 0;
    let mut orders: u64 = 0;
    let mut accepted: u64 = 0;
    let mut cause: u64 = 0;
    let mut steps: u64 = 0;
    hondivole::hondivole_open(
        b"01234\x06000471\0\0\0\0\0\0\0\0\0\0\0\0\x04\x03471\0\0\0\0\0\0\0\0\0\0\0\0\0\0\0\x04",
        &mut table,
    );
    let code = hondivole::hondivole_flow(
        &mut table,
        1,
        flow,
        &mut outcomes,
        &mut place,
        &mut orders,
        &mut accepted,
        &mut cause,
        &mut steps,
    );
    say_flow(to, code, place, orders, accepted)?;
    tell_reason(to, flow, code, place, cause, explaining)?;
    tell_orders(to, &outcomes, orders, explaining)?;
    tell_body(to, &table, b"000471")?;
    tell_body(to, &table, b"471")
}

// The whole program. One byte more than the longest flow is read, so that a longer one shows; input that cannot be read is no flow.
pub fn serve<S: Read, W: Write, E: Write>(
    from: &mut S,
    to: &mut W,
    errors: &mut E,
    explaining: bool,
) -> io::Result<()> {
    let mut input = [0u8; 32769];
    let got = printing::read_input(from, &mut input);
    if got.failed {
        return printing::complain(errors, b"the input cannot be read\n");
    }
    if run(to, &input[..got.read], explaining).is_err() {
        return printing::complain(errors, b"the output cannot be written\n");
    }
    Ok(())
}
