//! The program `shadow`: runs the experiment that a configuration file describes.
#![tactic(auto)]

use disk_outside::{DiskSink, DiskSource};
use shadow_top::{OpenGate, shadow};
use std::alloc::Global;
use std::env::Env;
use std::io::ErrorKind;
use std::process::ExitCode;
use std::thread::{Threads, available_parallelism};
use std::{env, io};

/// The status where memory ran out.
const NO_MEMORY: u8 = 5;

/// The words of the command line. A command line with a word that is not UTF-8 has none, and is refused.
fn words(rt: &(impl Env + AllocGlobal), alloc: Global) -> Result<Vec<String>, io::Error> {
    match env::args(rt) {
        Ok(words) => Ok(words.collect(alloc)?),
        Err(error) if error.kind() == ErrorKind::OutOfMemory => Err(error),
        Err(_) => Ok(Vec::new(alloc)),
    }
}

/// The number of cores that the machine tells, or 1 where it tells none.
fn cores(rt: &impl Threads) -> u32 {
    match available_parallelism(rt) {
        Ok(cores) => u32::try_from(cores.get()).unwrap_or(u32::MAX),
        Err(_) => 1,
    }
}

fn main(rt: HostRuntime) -> ExitCode {
    let Ok(words) = words(&rt, rt.alloc()) else {
        return ExitCode::from(NO_MEMORY);
    };
    let mut source = DiskSource::new(&rt, rt.stdin());
    let mut sink = DiskSink::new(&rt, rt.stdout(), rt.stderr());
    ExitCode::from(shadow(&rt, &words, cores(&rt), &mut source, &mut sink, &OpenGate))
}
