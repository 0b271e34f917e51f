//! Floor of the program: reads a script of requests and worker steps, and writes what the daemon answers.
#![tactic(auto)]

mod daemon;
mod lines;
mod making;
mod output;
mod replay;
mod rows;
mod session;
mod texts;
mod tickets;
mod top;
#[cfg(test)]
mod worked;

use mat_io::{StdSink, StdSource};
use std::io::ErrorKind;
use std::process::ExitCode;
use std::{env, io};

/// How the program is called.
const USAGE: &str = "usage: buckd replay 1 < script";

/// The status where the words can't be had: 1 for want of memory, 2 where they aren't text.
fn status_of(error: &io::Error) -> u8 {
    match error.kind() {
        ErrorKind::OutOfMemory => 1,
        _ => 2,
    }
}

/// The words of the command line behind the program's name, or the status where they can't be had.
fn words_of(rt: &HostRuntime) -> Result<Vec<String>, u8> {
    let mut args = match env::args(rt) {
        Ok(args) => args,
        Err(error) => return Err(status_of(&error)),
    };
    let _program = args.next();
    match args.collect(rt.alloc()) {
        Ok(words) => Ok(words),
        Err(_) => Err(1),
    }
}

fn main(rt: HostRuntime) -> ExitCode {
    let mut input = StdSource::new(rt.stdin());
    let mut output = StdSink::new(rt.stdout());
    let status = match words_of(&rt) {
        Ok(words) => top::buckd(rt.alloc(), words.as_slice(), &mut input, &mut output).status,
        Err(status) => status,
    };
    if status == 2 {
        let _ = eprintln!(rt; "{USAGE}");
    }
    ExitCode::from(status)
}
