// The program of document 01, with a sentence for each refusal.
#![tactic(auto)]

use std::io;

fn main(rt: HostRuntime) -> io::Result<()> {
    session::serve(&mut rt.stdin(), &mut rt.stdout(), &mut rt.stderr(), true)
}
