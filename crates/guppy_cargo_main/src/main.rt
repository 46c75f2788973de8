//! Answers questions on the packages of a Cargo workspace, of which it reads what `cargo metadata` prints.
//!
//! What it does is `guppy_program`'s `run_process`; here stand the standard streams, the files of the system, and help.
#![tactic(auto)]

use guppy_cargo::{CargoFault, Json, help_of};
use guppy_program::{IoFiles, IoSink, IoSource, arguments, run_process};
use std::process::ExitCode;

fn main(rt: HostRuntime) -> ExitCode {
    let args: Result<Vec<String>, CargoFault> = arguments(&rt);
    let help = match &args {
        Ok(words) => help_of(rt.alloc(), words.as_slice()),
        Err(_) => Ok(None),
    };
    if let Ok(Some(text)) = &help {
        return match print!(rt; "{text}") {
            Ok(()) => ExitCode::from(0),
            Err(_) => {
                // Where the fault can't be told, the status still says that there was one.
                let _ = eprintln!(rt; "error: output failed");
                ExitCode::from(2)
            }
        };
    }
    let mut reader = IoSource::new(rt.stdin());
    let mut writer = IoSink::new(rt.stdout());
    let mut errors = IoSink::new(rt.stderr());
    let ending = run_process::<Json, _, _, _, _>(
        rt.alloc(),
        help.map_err(CargoFault::from).and(args),
        &IoFiles(&rt),
        &mut reader,
        &mut writer,
        &mut errors,
    );
    ExitCode::from(ending.status)
}
