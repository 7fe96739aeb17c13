//! The program `mirrord`.
#![tactic(auto)]

use mirrord_programs::{
    Device, DeviceReplies, DeviceRequests, Failure, Fault, LinuxDisks, RECEIVED, Standard, run,
    tell,
};
use std::io::BufReader;
use std::os::unix::fs::FileTypeExt;
use std::process::ExitCode;
use std::{env, fs, io};

/// Ends with one line on standard error.
fn fail(rt: &HostRuntime, fault: Fault) -> ExitCode {
    let failure = Failure::Stopped(fault);
    let _ = tell(&mut rt.stderr(), failure);
    ExitCode::from(failure.status())
}

fn words_of(rt: &HostRuntime) -> io::Result<Vec<String>> {
    let words = env::args(rt)?.collect(rt.alloc())?;
    Ok(words)
}

/// The kernel's device, if a character device is open as standard input.
fn device_of(rt: &HostRuntime) -> Option<Device<DeviceRequests, DeviceReplies>> {
    let standing = fs::metadata(rt, "/proc/self/fd/0").ok()?;
    if !standing.file_type().is_char_device() {
        return None;
    }
    Some(Device {
        requests: DeviceRequests::new(),
        replies: DeviceReplies,
    })
}

fn main(rt: HostRuntime) -> ExitCode {
    let words = match words_of(&rt) {
        Ok(words) => words,
        Err(error) => return fail(&rt, Fault::from(error)),
    };
    let input = match BufReader::with_capacity(rt.alloc(), RECEIVED, rt.stdin()) {
        Ok(input) => input,
        Err(error) => return fail(&rt, Fault::from(error)),
    };
    let standard = Standard {
        input,
        output: io::writer(&rt),
        device: device_of(&rt),
    };
    let mut faults = rt.stderr();
    let disks = LinuxDisks::new(rt.alloc());
    let ended = run(&rt, &rt, &disks, &words, standard, &mut faults);
    ExitCode::from(ended.status)
}
