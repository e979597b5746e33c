//! `flr`: File Level Redundancy of plain files, as a program whose behaviour is proved.
#![tactic(auto)]

mod gate;

use crate::gate::MixedGate;
use flr_base::{FromRead, ToWrite};
use flr_top::flr_main;
use std::process::ExitCode;
use std::time::{Clock, SystemTime};
use std::{env, io};

/// What the program ends with where memory runs out before its words are known.
const NO_MEMORY: u8 = 6;

/// The words behind the program's name. Words that aren't text are an error.
fn words(rt: &HostRuntime) -> io::Result<Vec<String>> {
    Ok(env::args(rt)?.skip(1).collect(rt.alloc())?)
}

/// Another number in each run, where the clock can be read.
fn seed(clock: &impl Clock) -> u32 {
    let Ok(now) = SystemTime::now(clock) else {
        return 0;
    };
    match now.duration_since(SystemTime::UNIX_EPOCH) {
        Ok(age) => age.subsec_nanos(),
        Err(_) => 0,
    }
}

fn main(rt: HostRuntime) -> ExitCode {
    let words = match words(&rt) {
        Ok(words) => words,
        Err(error) if error.kind() == io::ErrorKind::OutOfMemory => {
            return ExitCode::from(NO_MEMORY);
        }
        // Words that aren't text are no words that are known.
        Err(_) => Vec::new(rt.alloc()),
    };
    let mut input = FromRead::new(rt.reader());
    let mut out = ToWrite::new(io::writer(&rt));
    ExitCode::from(flr_main(
        &rt,
        rt.alloc(),
        words.as_slice(),
        &mut input,
        &mut out,
        &MixedGate::new(seed(&rt)),
    ))
}
