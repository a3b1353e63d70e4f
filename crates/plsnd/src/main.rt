//! The program `plsnd`: the real streams and the words of the command line, handed to `run`.
#![tactic(auto)]

use pls_io::{StdSink, StdSource};
use pls_top::{ArgWords, Journal, NoGate, Status, run};
use std::process::ExitCode;
use std::rt::Env;
use std::sync::Wait;
use std::thread::Threads;
use std::{env, io};

fn main(rt: HostRuntime) -> ExitCode {
    ExitCode::from(answer(&rt).code())
}

/// Runs on the words of the command line. Where these can't be had, nothing is written.
fn answer<R: Env + Input + Print + AllocGlobal + Threads + Wait + Sync>(rt: &R) -> Status {
    match arg_words(rt) {
        Ok(words) => run(
            rt,
            rt.alloc(),
            &words,
            &mut StdSource::new(rt),
            &mut StdSink::new(rt),
            &NoGate,
            &mut Journal::new(),
        ),
        Err(error) if error.kind() == io::ErrorKind::OutOfMemory => Status::Memory,
        Err(_) => Status::Usage,
    }
}

/// The words of the command line after the program's name.
fn arg_words<R: Env + AllocGlobal>(rt: &R) -> io::Result<ArgWords> {
    let mut words = ArgWords::new(rt.alloc());
    for word in env::args(rt)?.skip(1) {
        words.push(word.as_str())?;
    }
    Ok(words)
}
