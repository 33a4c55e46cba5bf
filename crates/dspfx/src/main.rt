//! Runs a script over a sample file.
#![tactic(auto)]

use dsp_blocks::BlockUnit;
use dsp_cli::Words;
use dsp_files::{FilePorts, run_files};
use std::env;
use std::io::ErrorKind;
use std::marker::Brand;
use std::process::ExitCode;
use std::sync::ledger::Blank;

/// The status of words that are no command.
const USAGE: u8 = 1;

/// The status of want of memory. Where it is wanting for the words, nothing is said.
const NO_MEMORY: u8 = 10;

fn main(rt: HostRuntime) -> ExitCode {
    let arguments = match env::args(&rt) {
        Ok(arguments) => arguments,
        Err(error) if error.kind() == ErrorKind::OutOfMemory => return ExitCode::from(NO_MEMORY),
        Err(_) => return ExitCode::from(USAGE),
    };
    let mut words = Words::new(rt.alloc());
    for word in arguments.skip(1) {
        if words.push(&word).is_err() {
            return ExitCode::from(NO_MEMORY);
        }
    }
    let Ok(mut ports) = FilePorts::new(rt.alloc(), &rt, &words) else {
        let _ = println!(rt; "dspfx: want of memory");
        return ExitCode::from(NO_MEMORY);
    };
    let status = run_files::<BlockUnit, HostRuntime, Brand>(
        rt.alloc(),
        &words,
        &mut ports,
        Blank::new(2),
    );
    ExitCode::from(status)
}
