//! A replicated key-value service over UDP: replicas and their aggregator, a plain server, its router, their client, and the replay of
//! a replica, in one program.
#![tactic(auto)]

use hc_disk::FileDisk;
use hc_tops::{Status, report, run};
use r2_link::{MonoClock, StdErrors, StdSink, StdSource, UdpLink};
use std::io::ErrorKind;
use std::process::ExitCode;
use std::rt::Env;
use std::{env, io};

/// The words after the program's own name. Words that aren't text are no words that the program understands.
fn words(rt: &(impl Env + AllocGlobal)) -> io::Result<Vec<String>> {
    let mut words = Vec::new(rt.alloc());
    for word in env::args(rt)?.skip(1) {
        words.push(word)?;
    }
    Ok(words)
}

fn main(rt: HostRuntime) -> ExitCode {
    let alloc = rt.alloc();
    let mut source = StdSource::new(&rt);
    let mut sink = StdSink::new(&rt);
    let mut errors = StdErrors::new(&rt);
    let mut link = UdpLink::new(&rt);
    let mut disk = FileDisk::new(&rt);
    let mut clock = MonoClock::new(&rt);
    let words = match words(&rt) {
        Ok(words) => words,
        Err(error) if error.kind() == ErrorKind::InvalidData => Vec::new(alloc),
        Err(_) => {
            report(&mut errors, Status::Memory);
            return ExitCode::from(Status::Memory.code());
        }
    };
    let status = run(
        &rt,
        alloc,
        words.as_slice(),
        &mut source,
        &mut sink,
        &mut errors,
        &mut link,
        &mut disk,
        &mut clock,
    );
    ExitCode::from(status.code())
}
