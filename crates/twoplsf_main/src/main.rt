//! The program: it gives its words and the standard streams to the clearing house, and ends with the status of that.
#![tactic(auto)]

use io_ends::{StdSink, StdSource};
use std::process::ExitCode;
use std::{env, io};
use twoplsf::program::run_program;
use twoplsf::words::{BehindName, words_of};
use worker_gate::OpenGate;

fn main(rt: HostRuntime) -> ExitCode {
    ExitCode::from(run_program(
        &rt,
        rt.alloc(),
        words_of(rt.alloc(), env::args(&(BehindName::of(&rt), rt.alloc()))),
        &mut StdSource::new(rt.reader()),
        &mut StdSink::new(io::writer(&rt)),
        &OpenGate,
    ))
}

#[cfg(test)]
mod cells_tests;
#[cfg(test)]
mod ends_tests;
#[cfg(test)]
mod refused_tests;
#[cfg(test)]
mod tests;
#[cfg(test)]
mod thread_tests;
