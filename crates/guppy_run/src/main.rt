//! Answers questions on a graph of packages, which it reads as lines.
//!
//! What it does is `guppy_program`'s `run_process`; here stand the system's files and streams.
#![tactic(auto)]

use guppy_lines::Lines;
use guppy_program::{IoFiles, IoSink, IoSource, arguments, run_process};
use std::process::ExitCode;

fn main(rt: HostRuntime) -> ExitCode {
    let mut reader = IoSource::new(rt.stdin());
    let mut writer = IoSink::new(rt.stdout());
    let mut errors = IoSink::new(rt.stderr());
    let ending = run_process::<Lines, _, _, _, _>(
        rt.alloc(),
        arguments(&rt),
        &IoFiles(&rt),
        &mut reader,
        &mut writer,
        &mut errors,
    );
    ExitCode::from(ending.status)
}
