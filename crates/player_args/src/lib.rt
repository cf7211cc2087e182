// What the player is asked to do, by the words of its command line.
#![tactic(auto)]

ghost use Rattle.std.specs.Prelude.{◌≡◌, ◌≤◌, map, string_bytes};
ghost use Rattle.player_args.specs.Asked.{Answers, asked, play_of, random_of, strike_of, strokes_of, sums_of, word_of};
ghost use Rattle.player_args.specs.Back.{CommandsBack};
ghost use Rattle.player_args.specs.Worked.{WorkedCommands};
ghost use Rattle.player_args.specs.declared.ArgsError.TheVariants.{Memory};

mod progress;

pub use progress::progress_of;
use std::alloc::{AllocError, Global};
use std::error::Error;
use std::fmt;
use std::str::FromStr;
use text::decimal;

pub const USAGE: &str = "usage: player COMMAND

  play FILE [--stats]      play a river: each row as it is told, what is not told, a verdict
  random SEED RIVERS       play so many rivers made at random, the first from SEED
  strike FILE [1|2]        play a river struck after every act, once or twice in a row
  sums FILE                play nothing: the rows that are to be told, added up at once
  FILE [--stats]           the same behind play; with no word at all, as play -
  .. --progress            any of these, and standard error says how far it is, terminal or not
  --help, -h               this text
  --version                the program and the kit that it is built with

FILE may be - for standard input. The status is 2 where the words or the river are refused,
1 where a river is not played right, and 0 otherwise.";

// How often a machine is struck in a row.
#[derive(Clone, Copy, PartialEq, Eq, Debug)]
pub enum Strokes {
    One,
    Two,
}

#[derive(Drop, Debug, PartialEq, Eq)]
pub enum Command {
    Help,
    Play { file: String, stats: bool },
    Random { seed: u64, rivers: u64 },
    Strike { file: String, strokes: Strokes },
    Sums { file: String },
}

#[derive(Clone, Copy, PartialEq, Eq, Debug)]
pub enum ArgsError {
    NoFile,
    NoSeed,
    NoRivers,
    SeedNoNumber,
    RiversNoNumber,
    // The word, counted from 0.
    UnknownOption(usize),
    NotOneOrTwo,
    // The first word too many, counted from 0.
    TooManyWords(usize),
    Memory,
}

// By hand, as all of them end alike.
impl fmt::Display for ArgsError {
    fn fmt<W: fmt::Write>(&self, f: &mut fmt::Formatter<W>) -> fmt::Result {
        let text = match self {
            ArgsError::NoFile => "the file of the river is missing",
            ArgsError::NoSeed => "the seed is missing",
            ArgsError::NoRivers => "the number of rivers is missing",
            ArgsError::SeedNoNumber => "the seed is to be a number: digits alone, below 2^64",
            ArgsError::RiversNoNumber =>
                "how many rivers is to be a number: digits alone, below 2^64",
            ArgsError::UnknownOption(_) => "there is no such option",
            ArgsError::NotOneOrTwo => "a machine is struck 1 or 2 times in a row",
            ArgsError::TooManyWords(_) => "there is a word too many",
            ArgsError::Memory => "there is not enough memory",
        };
        write!(f, "{text}; `player --help` says how it is used")
    }
}

impl Error for ArgsError {}

impl ArgsError {
    // Which word is refused, counted from 0; none where a word is missing.
    pub fn word(self) -> Option<usize>
        ensures { result ≡ word_of self }
    {
        match self {
            ArgsError::SeedNoNumber => Some(1),
            ArgsError::RiversNoNumber | ArgsError::NotOneOrTwo => Some(2),
            ArgsError::UnknownOption(at) | ArgsError::TooManyWords(at) => Some(at),
            ArgsError::NoFile | ArgsError::NoSeed | ArgsError::NoRivers | ArgsError::Memory => None,
        }
    }
}

// By hand, as a clause names the error that `?` makes.
impl From<AllocError> for ArgsError {
    ghost from_gives = { λ _ r. r ≡ Memory };

    fn from(_e: AllocError) -> ArgsError {
        ArgsError::Memory
    }
}

impl FromStr for Strokes {
    type Err = ArgsError;

    ghost from_str_gives = { λ word r. r ≡ strokes_of word };

    fn from_str(word: &str) -> Result<Strokes, ArgsError> {
        match word {
            "1" => Ok(Strokes::One),
            "2" => Ok(Strokes::Two),
            _ => Err(ArgsError::NotOneOrTwo),
        }
    }
}

// The words from the file's name on, of which the first is the word with this number.
fn play_command(words: &[String], at: usize) -> Result<Command, ArgsError>
    requires { at ≤ 1 }
    ensures { Answers (play_of at (map string_bytes words.now)) result }
{
    let (file, rest) = words.split_first().ok_or(ArgsError::NoFile)?;
    let stats = match rest {
        [] => false,
        [option] if option.as_str() == "--stats" => true,
        [_] => return Err(ArgsError::UnknownOption(at + 1)),
        _ => return Err(ArgsError::TooManyWords(at + 2)),
    };
    let file = file.clone()?;
    Ok(Command::Play { file, stats })
}

fn random_command(words: &[String]) -> Result<Command, ArgsError>
    ensures { Answers (random_of (map string_bytes words.now)) result }
{
    let [seed, rivers] = words else {
        return Err(match words.len() {
            0 => ArgsError::NoSeed,
            1 => ArgsError::NoRivers,
            _ => ArgsError::TooManyWords(3),
        });
    };
    let seed = decimal(seed.as_bytes()).ok_or(ArgsError::SeedNoNumber)?;
    let rivers = decimal(rivers.as_bytes()).ok_or(ArgsError::RiversNoNumber)?;
    Ok(Command::Random { seed, rivers })
}

fn strike_command(words: &[String]) -> Result<Command, ArgsError>
    ensures { Answers (strike_of (map string_bytes words.now)) result }
{
    let (file, rest) = words.split_first().ok_or(ArgsError::NoFile)?;
    let strokes = match rest {
        [] => Strokes::One,
        [count] => count.as_str().parse()?,
        _ => return Err(ArgsError::TooManyWords(3)),
    };
    let file = file.clone()?;
    Ok(Command::Strike { file, strokes })
}

fn sums_command(words: &[String]) -> Result<Command, ArgsError>
    ensures { Answers (sums_of (map string_bytes words.now)) result }
{
    match words {
        [] => Err(ArgsError::NoFile),
        [file] => Ok(Command::Sums {
            file: file.clone()?,
        }),
        _ => Err(ArgsError::TooManyWords(2)),
    }
}

// The command that the words behind the program's name give. A first word that is none is a river's file, unless it begins as an option does.
pub fn command_of(heap: Global, words: &[String]) -> Result<Command, ArgsError>
    ensures { Answers (asked (map string_bytes words.now)) result }
{
    let [name, rest @ ..] = words else {
        return Ok(Command::Play {
            file: String::from_str(heap, "-")?,
            stats: false,
        });
    };
    match name.as_str() {
        "play" => play_command(rest, 1),
        "random" => random_command(rest),
        "strike" => strike_command(rest),
        "sums" => sums_command(rest),
        "--help" | "-h" | "help" => Ok(Command::Help),
        word if word.starts_with("--") => Err(ArgsError::UnknownOption(0)),
        _ => play_command(words, 0),
    }
}

// Theorem: every command can be asked for.
pub fn commands_back()
    ensures { CommandsBack }
{}

// Theorem: the command lines that are worked out by hand ask for just that.
pub fn worked_commands()
    ensures { WorkedCommands }
{}
