// The program `station`: what it is asked, and a machine that works and hears till its wires end.
use crate::options::{Options, Request, UsageError};
use crate::station::Station;
use status::Failure;
use std::alloc::Global;
use std::io::{BufRead, Write};

const USAGE: &str = "usage: station MACHINE --drawers DIR --gauge FILE --wall FILE

One rain-gauge machine, by its number (0 to 7), on real files.

  --drawers DIR   the folder that holds its 256 drawers and what it has released
  --gauge FILE    a river file: the readings of the machine's own gauge are read
  --wall FILE     rows are appended to it, `hour H place P: SUM`
  --help, -h      this text
  --version       the program and the kit that it is built with

Standard input is what comes over the wires, a line each: `from I HEX`, a letter
from machine I, or `poke`. Standard output is what goes out: `to J HEX`.
It works till it rests, then after each line, and ends with its input.
It may be killed at any moment and started again on the same files.";

// An option that there is not is said with its word.
fn refused(heap: Global, words: &[String], error: UsageError) -> Failure {
    let UsageError::UnknownOption(behind) = error else {
        return Failure::refused(error);
    };
    match words.iter().rev().nth(behind) {
        Some(word) => Failure::refused_with(heap, format_args!("`{word}`: {error}")),
        None => Failure::refused(error),
    }
}

// Does what these words ask for; the lines that come are those of the wires, and what goes out is written, a line at once.
pub fn run<B: BufRead + Drop, W: Write>(
    rt: &HostRuntime,
    words: Vec<String>,
    wires: B,
    out: &mut W,
) -> Result<(), Failure> {
    let given = words.clone()?;
    let heap = rt.alloc();
    match Request::read(words).map_err(|error| refused(heap, given.as_slice(), error))? {
        Request::Help => {
            writeln!(out, "{USAGE}")?;
            Ok(())
        }
        Request::Run(options) => serve(rt, &options, wires, out),
    }
}

fn serve<B: BufRead + Drop, W: Write>(
    rt: &HostRuntime,
    options: &Options,
    wires: B,
    out: &mut W,
) -> Result<(), Failure> {
    let mut station = Station::open(rt, options)?;
    station.work(rt, out, u64::MAX)?;
    for line in wires.split(rt.alloc(), b'\n') {
        let line = line.map_err(Failure::refused)?;
        station.hear(rt, out, line.as_slice())?;
        station.work(rt, out, u64::MAX)?;
    }
    Ok(())
}
