//! The program `office` without an office: the commands `check`, `allot` and `recount`.
#![tactic(auto)]

use std::process::ExitCode;
use std::{env, io};
use tally_office_streams::{perform_streams, report_start};
use tally_office_trouble::MachineFiles;

fn main(rt: HostRuntime) -> ExitCode {
    let status = match run(&rt) {
        Ok(status) => status,
        Err(error) => report_start(&error, &mut rt.stderr()),
    };
    ExitCode::from(status)
}

// Runs the command line of the environment over the standard streams.
fn run(rt: &HostRuntime) -> io::Result<u8> {
    let words: Vec<String> = env::args(rt)?.collect(rt.alloc())?;
    Ok(perform_streams(
        rt,
        &MachineFiles,
        words.as_slice(),
        &mut rt.stdin(),
        &mut rt.stdout(),
        &mut rt.stderr(),
    ))
}
