// How a program ends: its status, what is said of a failure, and which version it is.
#![tactic(auto)]

ghost use Rattle.std.specs.Prelude.{◌≡◌, IfErr, Some, OnOk, map, string_bytes};
ghost use Rattle.std.specs.Io.KnownBytes.{Appends};
ghost use Rattle.std.specs.Process.{exit_status};
ghost use Rattle.std.specs.IoError.{error_kind};
ghost use Rattle.status.specs.Endings.{CameOf, IsWrong, Refuses, Says, asks_version, said_of, status_of, version_line};

use std::alloc::{AllocError, AllocFailed, Global};
use std::io::{ErrorKind, Write};
use std::process::ExitCode;
use std::{fmt, io};

// The kit that the programs were proved and built with, as `rt version` prints it.
pub const KIT: &str = "rattle-kit-13f logic dac8208d650f15bf";

// Why a program did not do what it was asked.
#[derive(Drop, Debug)]
pub enum Failure {
    // Words or input that are refused: a bad option, a file that is absent, unreadable or malformed. Status 2.
    Refused(anyhow::Error),
    // A wall that is not right, a fault, something untold that should be told, or work that could not be done. Status 1.
    Wrong(anyhow::Error),
    // The same two, said in a text of any length: an error holds a short one.
    RefusedWith(String),
    WrongWith(String),
    // Nobody reads the output any more. Nothing is said, status 0.
    Closed,
}

impl Failure {
    // The words or the input are refused for this reason.
    pub fn refused<E: Into<anyhow::Error>>(error: E) -> Failure
        ensures { Refuses (E.converts error) result }
    {
        Failure::Refused(error.into())
    }

    // What came of the work is wrong, for this reason.
    pub fn wrong<E: Into<anyhow::Error>>(error: E) -> Failure
        ensures { IsWrong (E.converts error) result }
    {
        Failure::Wrong(error.into())
    }

    // Refused, and what is said of it is whole, unless there is no room for a text of it.
    pub fn refused_with<M: fmt::Display + Drop>(heap: Global, said: M) -> Failure
        ensures status { status_of result ≡ 2 }
        ensures text { Says (M.output said) result }
    {
        match said.to_string(heap) {
            Ok(text) => Failure::RefusedWith(text),
            Err(_) => Failure::Refused(anyhow::Error::msg(said)),
        }
    }

    // Wrong, and what is said of it is whole, unless there is no room for a text of it.
    pub fn wrong_with<M: fmt::Display + Drop>(heap: Global, said: M) -> Failure
        ensures status { status_of result ≡ 1 }
        ensures text { Says (M.output said) result }
    {
        match said.to_string(heap) {
            Ok(text) => Failure::WrongWith(text),
            Err(_) => Failure::Wrong(anyhow::Error::msg(said)),
        }
    }

    // The status that it stands for.
    pub fn code(&self) -> u8
        ensures { result ≡ status_of self.now }
    {
        match self {
            Failure::Refused(_) => 2,
            Failure::RefusedWith(_) => 2,
            Failure::Wrong(_) | Failure::WrongWith(_) => 1,
            Failure::Closed => 0,
        }
    }
}

impl fmt::Display for Failure {
    ghost output = { λ failure. Some (said_of failure) };

    fn fmt<W: fmt::Write>(&self, f: &mut fmt::Formatter<W>) -> fmt::Result {
        match self {
            Failure::Refused(error) | Failure::Wrong(error) => write!(f, "{error}"),
            Failure::RefusedWith(text) | Failure::WrongWith(text) => f.write_str(text.as_str()),
            Failure::Closed => f.write_str("nobody reads the output"),
        }
    }
}

// An error of the output: what is read is to be refused by its caller.
impl From<io::Error> for Failure {
    ghost from_gives = { λ error r. CameOf (error_kind error) r };

    fn from(error: io::Error) -> Failure {
        match error.kind() {
            ErrorKind::BrokenPipe => Failure::Closed,
            _ => Failure::wrong(error),
        }
    }
}

impl From<AllocError> for Failure {
    ghost from_gives = { λ _ r. status_of r ≡ 1 };

    fn from(_e: AllocError) -> Failure {
        Failure::Wrong(anyhow::anyhow!("there is not enough memory"))
    }
}

impl<T: Drop> From<AllocFailed<T>> for Failure {
    ghost from_gives = { λ _ r. status_of r ≡ 1 };

    fn from(_e: AllocFailed<T>) -> Failure {
        Failure::from(AllocError)
    }
}

// The status of a program, by what came of its work; what is wrong is said once, on standard error.
pub fn status(rt: &HostRuntime, program: &str, done: Result<(), Failure>) -> ExitCode
    ensures well { OnOk done (exit_status result ≡ 0) }
    ensures failed { IfErr done (λ failure. exit_status result ≡ status_of failure) }
{
    match done {
        Ok(()) | Err(Failure::Closed) => ExitCode::SUCCESS,
        Err(failure) => {
            let _ = eprintln!(rt; "{program}: {failure}");
            ExitCode::from(failure.code())
        }
    }
}

// Whether the words ask which version a program is: the first is `--version`.
pub fn is_version_asked(words: &[String]) -> bool
    ensures { result ≡ asks_version (map string_bytes words.now) }
{
    words
        .first()
        .is_some_and(|word| word.as_str() == "--version")
}

// Prints the program's name and its kit, as a line.
pub fn print_version<W: Write>(out: &mut W, program: &str) -> Result<(), Failure>
    ensures { OnOk result (Appends (W.contents out.old) (W.contents out.new) (version_line program.now)) }
{
    Ok(writeln!(out, "{program} {KIT}")?)
}
