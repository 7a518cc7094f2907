// Answers the board in each file that an argument names, with the code of the program `times`.
#![tactic(auto)]

use std::env::Env;
use std::fs::File;
use std::io::{Error, Write};
use std::str;

// Answers one file, and says whether there was an argument.
fn one_case(rt: &HostRuntime, index: usize) -> Result<bool, Error> {
    let mut path = [0u8; 4096];
    match rt.arg(index, &mut path) {
        Ok(length) => named_case(rt, &path[..length]),
        Err(_) => Ok(false),
    }
}

// Answers the file of a name, and says whether it could be opened; a name that is no text names no file.
fn named_case(rt: &HostRuntime, name: &[u8]) -> Result<bool, Error> {
    match str::from_utf8(name) {
        Ok(path) => opened_case(rt, path),
        Err(_) => {
            eprintln!(rt; "an argument is no text, so that no file has its name")?;
            Ok(false)
        }
    }
}

fn opened_case(rt: &HostRuntime, path: &str) -> Result<bool, Error> {
    match File::open(rt, path) {
        Ok(mut file) => {
            let mut out = rt.stdout();
            out.write_all(path.as_bytes())?;
            out.write_all(b": ")?;
            page::run(&mut file, &mut out)?;
            Ok(true)
        }
        Err(e) => {
            eprintln!(rt; "{path}: {e}")?;
            Ok(false)
        }
    }
}

fn main(rt: HostRuntime) -> Result<(), Error> {
    for index in 1..1000 {
        if !one_case(&rt, index)? {
            break;
        }
    }
    Ok(())
}
