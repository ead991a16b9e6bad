//! The program: the machine's words, files and output for the commands of `pf_top`.
#![tactic(auto)]

use pf_images::{RealFiles, RealSink};
use pf_top::{pitchfork, tell_want};
use std::io::ErrorKind;
use std::process::ExitCode;
use std::rt::Env;
use std::{env, io};

/// The words behind the program's name, or none where one of them is no text, since no command has
/// such a word.
fn words<R: Env + AllocGlobal>(rt: &R) -> io::Result<Vec<String>> {
    let mut words = Vec::new(rt.alloc());
    match env::args(rt) {
        Ok(all) => {
            for word in all.skip(1) {
                words.push(word)?;
            }
        }
        Err(error) if error.kind() == ErrorKind::InvalidData => {}
        Err(error) => return Err(error),
    }
    Ok(words)
}

fn main(rt: HostRuntime) -> ExitCode {
    let mut out = RealSink::new(&rt);
    let status = match words(&rt) {
        Ok(words) => pitchfork(rt.alloc(), &words, &mut RealFiles::new(&rt), &mut out),
        Err(_) => tell_want(rt.alloc(), &mut out),
    };
    ExitCode::from(status)
}
