// Cases of cash journals: a script of calls on one table.
#![tactic(auto)]

use std::io;

fn main(rt: HostRuntime) -> io::Result<()> {
    deskbook::run_script(&mut rt.stdin(), &mut rt.stdout())
}
