// The program of document 01.
#![tactic(auto)]

use std::io;

fn main(rt: HostRuntime) -> io::Result<()> {
    session::serve(&mut rt.stdin(), &mut rt.stdout(), &mut rt.stderr(), false)
}
