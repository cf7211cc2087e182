// One machine on real files; its wires are standard input and output.
#![tactic(auto)]

use status::{Failure, is_version_asked, print_version, status};
use std::process::ExitCode;
use std::{env, io};

const NAME: &str = "station";

fn main(rt: HostRuntime) -> ExitCode {
    status(&rt, NAME, run(&rt))
}

fn run(rt: &HostRuntime) -> Result<(), Failure> {
    let words: Vec<String> = env::args(rt)
        .map_err(Failure::refused)?
        .skip(1)
        .collect(rt.alloc())?;
    let mut out = io::writer(rt);
    if is_version_asked(words.as_slice()) {
        return print_version(&mut out, NAME);
    }
    keeper::run(rt, words, rt.reader(), &mut out)
}
