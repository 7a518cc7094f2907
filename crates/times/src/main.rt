// Answers the board on standard input with its page on standard output.
#![tactic(auto)]

use std::io::Error;

fn main(rt: HostRuntime) -> Result<(), Error> {
    page::run(&mut rt.stdin(), &mut rt.stdout())?;
    Ok(())
}
