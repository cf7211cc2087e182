// The words behind `station`.
ghost use Rattle.std.specs.Prelude.{◌≡◌, Some, map, string_bytes};
ghost use Rattle.keeper.specs.Words.{Answers, Finishes, Puts, Takes, as_given, asked, asks_help, finished as ended, name_of, named, with_machine, with_value};

use machine::MACHINES;
use std::fmt;
use text::decimal;
use thiserror::Error;

// An option that takes a value.
#[derive(Clone, Copy, PartialEq, Eq, Debug)]
pub enum Name {
    Drawers,
    Gauge,
    Wall,
}

#[derive(Clone, Copy, PartialEq, Eq, Debug, Error)]
pub enum UsageError {
    // How many words stand behind its own.
    #[error("there is no such option")]
    UnknownOption(usize),
    #[error("{0} wants a value")]
    MissingValue(Name),
    #[error("{0} is missing")]
    Missing(Name),
    #[error("{0} was given before")]
    Twice(Name),
    #[error("the machine's number is missing")]
    MissingMachine,
    #[error("the machine's number was given before")]
    TwoMachines,
    #[error("a machine's number is 0 to 7")]
    NotAMachine,
}

impl fmt::Display for Name {
    ghost output = { λ n. Some (name_of n) };

    fn fmt<W: fmt::Write>(&self, f: &mut fmt::Formatter<W>) -> fmt::Result {
        f.write_str(match self {
            Name::Drawers => "--drawers",
            Name::Gauge => "--gauge",
            Name::Wall => "--wall",
        })
    }
}

// The option of this name, behind which so many words stand.
fn option(word: &str, behind: usize) -> Result<Name, UsageError>
    ensures { result ≡ named word.now behind }
{
    match word {
        "--drawers" => Ok(Name::Drawers),
        "--gauge" => Ok(Name::Gauge),
        "--wall" => Ok(Name::Wall),
        _ => Err(UsageError::UnknownOption(behind)),
    }
}

// Whether a word asks how the program is used.
fn is_help(word: &str) -> bool
    ensures { result ≡ asks_help word.now }
{
    word == "--help" || word == "-h"
}

// Which machine, and where its files are.
#[derive(Drop)]
pub struct Options {
    pub machine: u64,
    pub drawers: String,
    pub gauge: String,
    pub wall: String,
}

#[derive(Drop)]
pub enum Request {
    Help,
    Run(Options),
}

// What was said so far.
#[derive(Drop)]
struct Said {
    machine: Option<u64>,
    drawers: Option<String>,
    gauge: Option<String>,
    wall: Option<String>,
}

// Puts a value where there is none.
fn once(place: &mut Option<String>, name: Name, value: String) -> Result<(), UsageError>
    ensures { Puts name value place.old result place.new }
{
    if place.is_some() {
        return Err(UsageError::Twice(name));
    }
    *place = Some(value);
    Ok(())
}

impl Said {
    fn set(&mut self, name: Name, value: String) -> Result<(), UsageError>
        ensures { Takes (with_value (as_given self.old) name (string_bytes value)) result (as_given self.new) }
    {
        match name {
            Name::Drawers => once(&mut self.drawers, name, value),
            Name::Gauge => once(&mut self.gauge, name, value),
            Name::Wall => once(&mut self.wall, name, value),
        }
    }

    fn set_machine(&mut self, word: &str) -> Result<(), UsageError>
        ensures { Takes (with_machine (as_given self.old) word.now) result (as_given self.new) }
    {
        if self.machine.is_some() {
            return Err(UsageError::TwoMachines);
        }
        let machine = decimal(word.as_bytes()).filter(|machine| *machine < MACHINES);
        self.machine = Some(machine.ok_or(UsageError::NotAMachine)?);
        Ok(())
    }

    fn finished(self) -> Result<Options, UsageError>
        ensures { Finishes (ended (as_given self)) result }
    {
        let Said {
            machine,
            drawers,
            gauge,
            wall,
        } = self;
        Ok(Options {
            machine: machine.ok_or(UsageError::MissingMachine)?,
            drawers: drawers.ok_or(UsageError::Missing(Name::Drawers))?,
            gauge: gauge.ok_or(UsageError::Missing(Name::Gauge))?,
            wall: wall.ok_or(UsageError::Missing(Name::Wall))?,
        })
    }
}

impl Request {
    // What these words ask for.
    pub fn read(words: Vec<String>) -> Result<Request, UsageError>
        ensures { Answers (asked (map string_bytes words.items)) result }
    {
        let mut said = Said {
            machine: None,
            drawers: None,
            gauge: None,
            wall: None,
        };
        let mut words = words.into_iter();
        while let Some(word) = words.next() {
            let word = word.as_str();
            if is_help(word) {
                return Ok(Request::Help);
            }
            if word.starts_with("-") {
                let name = option(word, words.len())?;
                let value = words.next().ok_or(UsageError::MissingValue(name))?;
                said.set(name, value)?;
            } else {
                said.set_machine(word)?;
            }
        }
        Ok(Request::Run(said.finished()?))
    }
}
