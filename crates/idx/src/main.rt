// Answers one call of the index library for the text on standard input.
#![tactic(auto)]

mod calls;
mod engine;
mod faults;
mod input;
mod kernels;
mod output;
mod requests;
#[cfg(test)]
mod tests;
mod wide;

use engine::run;
use faults::Fault;
use std::env;
use std::io::ErrorKind;
use std::process::ExitCode;

fn main(rt: HostRuntime) -> ExitCode {
    match start(&rt) {
        Ok(()) => ExitCode::SUCCESS,
        Err(fault) => {
            // If standard error fails too, only the status tells of the fault.
            let _ = rt.eprintln(fault.line());
            ExitCode::from(fault.status())
        }
    }
}

/// Runs the program on its arguments and the standard streams.
fn start(rt: &HostRuntime) -> Result<(), Fault> {
    let arguments = arguments(rt)?;
    let mut words = Vec::new(rt.alloc());
    for argument in &arguments {
        words.push(argument.as_str()).map_err(|_| Fault::NoMemory)?;
    }
    run(rt.alloc(), &words, &mut rt.stdin(), &mut rt.stdout())
}

/// Returns the arguments after the program's name.
fn arguments(rt: &HostRuntime) -> Result<Vec<String>, Fault> {
    match env::args(rt) {
        Ok(all) => all.skip(1).collect(rt.alloc()).map_err(|_| Fault::NoMemory),
        Err(error) if error.kind() == ErrorKind::OutOfMemory => Err(Fault::NoMemory),
        Err(_) => Err(Fault::Usage),
    }
}
