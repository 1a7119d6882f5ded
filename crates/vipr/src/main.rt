//! Checks VIPR 1.0 certificates.
#![tactic(auto)]

ghost use Rattle.std.specs.Prelude.{◌≤◌, IfOk};

use std::fs::File;
use std::io::{ErrorKind, Write};
use std::os::fd::AsFd;
use std::process::ExitCode;
use std::{env, io};
use vipr_bytes::{FromRead, FromWrite};
use vipr_command::{SystemFiles, run};

fn main(rt: HostRuntime) -> ExitCode {
    // Kept to the end, so that no file that is opened is one of the closed streams.
    let _fillers = fillers(&rt);
    ExitCode::from(status(&rt))
}

/// Opens a folder for each standard stream that is closed. It gets that stream's number, and a read
/// or a write of it fails as one of the closed stream does.
fn fillers(rt: &HostRuntime) -> [Option<File>; 3] {
    let input = filler(rt, &rt.stdin());
    let output = filler(rt, &rt.stdout());
    let error = filler(rt, &rt.stderr());
    [input, output, error]
}

fn filler<S: AsFd>(rt: &HostRuntime, stream: &S) -> Option<File> {
    match stream.as_fd().try_clone_to_owned() {
        Ok(_) => None,
        Err(_) => File::open(rt, "/").ok(),
    }
}

fn status(rt: &HostRuntime) -> u8
    ensures { result ≤ 3 }
{
    let mut err = rt.stderr();
    match on_arguments(rt) {
        Ok(status) => status,
        Err(error) if error.kind() == ErrorKind::OutOfMemory => {
            let _ = err.write_all(b"fault memory\n");
            3
        }
        Err(_) => {
            let _ = err.write_all(b"error: invalid UTF-8 was detected in one or more arguments\n");
            2
        }
    }
}

fn on_arguments(rt: &HostRuntime) -> io::Result<u8>
    ensures { IfOk result (λ s. s ≤ 3) }
{
    let alloc = rt.alloc();
    let arguments: Vec<String> = env::args(rt)?.collect(alloc)?;
    let words: Vec<&str> = arguments.iter().map(|word| word.as_str()).collect(alloc)?;
    Ok(run(
        alloc,
        &mut SystemFiles { rt },
        words.as_slice(),
        FromRead::new(rt.stdin()),
        &mut FromWrite::new(rt.stdout()),
        &mut FromWrite::new(rt.stderr()),
    ))
}
