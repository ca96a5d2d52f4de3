//! The program `corun`: the machine's arguments, files and standard streams handed to the top call.
#![tactic(auto)]

use co_base::{OpenGate, StdFiles, StdSink};
use corun_top::{Status, corun};
use std::alloc::{AllocError, Global};
use std::process::ExitCode;
use std::{env, io};

fn main(rt: HostRuntime) -> ExitCode {
    let status = match words(&rt) {
        Ok(words) => corun(
            &rt,
            rt.alloc(),
            &words,
            &mut StdFiles::new(&rt),
            &mut StdSink::new(rt.stdout()),
            &mut StdSink::new(rt.stderr()),
            &OpenGate,
        ),
        Err(_) => Status::NoMemory,
    };
    ExitCode::from(status.number())
}

// The command words: the arguments without the program's own name.
fn words(rt: &HostRuntime) -> io::Result<Vec<String>> {
    let mut words = Vec::new(rt.alloc());
    for word in env::args(rt)?.skip(1) {
        words.push(word)?;
    }
    Ok(words)
}
