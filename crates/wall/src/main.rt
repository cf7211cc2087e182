// Prints the rows of a wall, each once, by hour and place: all, or some, or a chart of one place.
#![tactic(auto)]

use status::{Failure, is_version_asked, print_version, status};
use std::io::{BufWriter, Write};
use std::process::ExitCode;
use std::{env, io};

const NAME: &str = "wall";

fn main(rt: HostRuntime) -> ExitCode {
    status(&rt, NAME, run(&rt))
}

fn run(rt: &HostRuntime) -> Result<(), Failure> {
    let words: Vec<String> = env::args(rt)
        .map_err(Failure::refused)?
        .skip(1)
        .collect(rt.alloc())?;
    // Where an error ends the program, what was printed is written out as `out` is let go of, before the error is told.
    let mut out = BufWriter::new(rt.alloc(), io::writer(rt)).map_err(Failure::wrong)?;
    if is_version_asked(words.as_slice()) {
        print_version(&mut out, NAME)?;
    } else {
        wall_printer::run(rt, words, &mut rt.stdin(), &mut out)?;
    }
    out.flush().map_err(|error| wall_printer::unwritten(error))
}
