// The word lister (RULES 10), run on its example.
#![tactic(auto)]

use std::io;

fn main(rt: HostRuntime) -> io::Result<()> {
    let mut input = [0u8; 16385];
    let mut out = [0u8; 110592];
    lister_io::run(&mut rt.stdin(), &mut rt.stdout(), &mut input, &mut out)?;
    Ok(())
}
