//! The command `delta`: standard input and output as the link, standard error as the sink, and files by path.
#![tactic(auto)]

use delta_code::Coded;
use delta_run::delta;
use learned_runner::Learner;
use port::{DirShelf, StdLink, StdSink};
use std::process::ExitCode;
use std::{env, io};

/// The exit status for want of memory.
const NO_MEMORY: u8 = 8;

/// The words after the program's name. A word that isn't UTF-8 belongs to no command line: then there are none.
fn words(rt: &HostRuntime) -> io::Result<Vec<String>> {
    match env::args(rt) {
        Ok(words) => Ok(words.skip(1).collect(rt.alloc())?),
        Err(error) if error.kind() == io::ErrorKind::InvalidData => Ok(Vec::new(rt.alloc())),
        Err(error) => Err(error),
    }
}

fn main(rt: HostRuntime) -> ExitCode {
    let alloc = rt.alloc();
    let Ok(words) = words(&rt) else {
        return ExitCode::from(NO_MEMORY);
    };
    let mut link = StdLink::new(rt.stdin(), rt.stdout());
    let mut notes = StdSink::new(rt.stderr());
    let mut shelf = DirShelf::new(alloc, rt);
    let status = delta::<Learner, Coded, Coded, _, _, _>(
        alloc, &words, &mut shelf, &mut link, &mut notes,
    );
    ExitCode::from(status)
}
