//! The program: passes the words of the command line, the files and standard output on to `run`, and ends with the
//! number of the status that `run` answers.
#![tactic(auto)]

use mn_driver::{MEMORY_LINE, Status, run};
use mn_outside::{DiskFiles, StdSink, put_all};
use std::env;
use std::io::{self, ErrorKind};
use std::process::ExitCode;

fn main(rt: HostRuntime) -> ExitCode {
    let mut words = Vec::new(rt.alloc());
    let mut files = DiskFiles::new(rt);
    let mut out = StdSink::new(rt);
    let status = match read_words(rt, &mut words) {
        Err(fault) if fault.kind() == ErrorKind::OutOfMemory => {
            // Where that fails there is nothing left to say.
            let _ = put_all(&mut out, MEMORY_LINE);
            Status::NoMemory
        }
        // Words that are no text name no model, and `run` says so of none at all.
        _ => run(rt.alloc(), &words, &mut files, &mut out).status,
    };
    ExitCode::from(status.code())
}

/// The words after the program's name. One that isn't UTF-8 is an error, and then there are none.
fn read_words(rt: HostRuntime, words: &mut Vec<String>) -> io::Result<()> {
    for word in env::args(&rt)?.skip(1) {
        words.push(word)?;
    }
    Ok(())
}
