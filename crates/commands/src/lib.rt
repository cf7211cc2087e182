// What the player does, by the words of its command line: it plays rivers, and prints what came of them to a writer.
#![tactic(auto)]

ghost use Rattle.std.specs.Prelude.{OnOk, map, string_bytes};
ghost use Rattle.player_args.specs.Asked.{asked};
ghost use Rattle.player_args.specs.Progress.{without_progress};
ghost use Rattle.commands.specs.Done.{Does};

use player_args::{ArgsError, Command};
use report::{Progress, print_sums, read_river};
use status::Failure;
use std::alloc::Global;
use std::io::{Read, Write};

// The word that is refused, where it is one, and why.
fn refused(heap: Global, words: &[String], error: ArgsError) -> Failure {
    match error.word().and_then(|at| words.get(at)) {
        Some(word) => Failure::refused_with(heap, format_args!("`{word}`: {error}")),
        None => Failure::refused(error),
    }
}

// Does what the words ask for, and prints to the writer; a file `-` is the input. How far something long is, is said on standard error where that is a terminal, or where the last word is `--progress`.
pub fn run<R: Read, W: Write>(
    rt: &HostRuntime,
    input: &mut R,
    out: &mut W,
    words: &[String],
) -> Result<(), Failure>
    ensures { OnOk result (Does (asked (without_progress (map string_bytes words.now))) (R.remaining input.old) (W.contents out.old) (W.contents out.new)) }
{
    let (progress, words) = player_args::progress_of(words);
    let mut progress = Progress::new(rt, progress)?;
    let heap = rt.alloc();
    match player_args::command_of(heap, words).map_err(|error| refused(heap, words, error))? {
        Command::Help => {
            let usage = player_args::USAGE;
            writeln!(out, "{usage}")?;
            Ok(())
        }
        Command::Play { file, stats } => {
            playback::play_file(rt, input, out, &mut progress, file.as_str(), stats)
        }
        Command::Random { seed, rivers } => {
            trials::play_all(rt, out, &mut progress, seed, rivers)
        }
        Command::Strike { file, strokes } => {
            let river = read_river(rt, input, file.as_str())?;
            trials::strike_all(rt, out, &mut progress, &river, strokes)
        }
        Command::Sums { file } => print_sums(rt, input, out, file.as_str()),
    }
}
