// Rows that cannot be written.
ghost use Rattle.std.specs.IoError.{error_kind};
ghost use Rattle.status.specs.Endings.{CameOf};

use anyhow::anyhow;
use status::Failure;
use std::io;
use std::io::ErrorKind;

// An error of the output: the rows are named in what is said of it.
pub fn unwritten(error: io::Error) -> Failure
    ensures { CameOf (error_kind error) result }
{
    match error.kind() {
        ErrorKind::BrokenPipe => Failure::Closed,
        _ => Failure::Wrong(anyhow!("the rows cannot be written: {error}")),
    }
}
