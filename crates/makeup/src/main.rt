// Answers how the time of one task is made up: the board is on standard input, the task's number is the argument, and the page goes to standard output.
#![tactic(auto)]

use std::env::Env;
use std::io::Error;

fn main(rt: HostRuntime) -> Result<(), Error> {
    let mut argument = [0u8; 4096];
    let length = rt.arg(1, &mut argument).unwrap_or(0);
    makeup_page::run(&argument[..length], &mut rt.stdin(), &mut rt.stdout())?;
    Ok(())
}
