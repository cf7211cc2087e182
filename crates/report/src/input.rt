// The river that a file has.
ghost use Rattle.std.specs.Prelude.{◌≡◌, IfOk, string_bytes};
ghost use Rattle.river.specs.Fine.{RiverFine};
ghost use Rattle.river.specs.Rivers.{as_told};
ghost use Rattle.status.specs.Endings.{status_of};
ghost use Rattle.report.specs.Printed.{IsFrom, TellsOf, status_by};

use anyhow::anyhow;
use river::{InFile, Mistake, River};
use status::Failure;
use std::alloc::Global;
use std::fs;
use std::io::Read;

// The text of the file that is named, or all that the input has.
fn read<R: Read>(rt: &HostRuntime, input: &mut R, file: &str) -> Result<String, Failure>
    ensures { IfOk result (λ t. IsFrom file.now (R.remaining input.old) (string_bytes t)) }
{
    if file == "-" {
        let mut text = String::new(rt.alloc());
        input.read_to_string(&mut text).map_err(|error| Failure::Refused(anyhow!(
            "standard input cannot be read: {error}"
        )))?;
        return Ok(text);
    }
    fs::read_to_string(rt, file).map_err(|error| Failure::refused_with(
        rt.alloc(),
        format_args!("{file} cannot be read: {error}"),
    ))
}

// How the file is called in what is said.
fn named(file: &str) -> &str {
    match file {
        "-" => "standard input",
        _ => file,
    }
}

// A text that is no river, unless the memory ended.
fn failure_of(heap: Global, file: &str, text: &str, mistake: Mistake) -> Failure
    ensures { status_of result ≡ status_by mistake }
{
    let file = named(file);
    let said = InFile {
        file,
        text,
        mistake,
    };
    match mistake {
        Mistake::Line(..) => Failure::refused_with(heap, said),
        Mistake::Memory => Failure::wrong_with(heap, said),
    }
}

// The river that the file, or the input, has.
pub fn read_river<R: Read>(rt: &HostRuntime, input: &mut R, file: &str) -> Result<River, Failure>
    ensures fine { IfOk result RiverFine }
    ensures told { IfOk result (λ r. TellsOf file.now (R.remaining input.old) (as_told r)) }
{
    let heap = rt.alloc();
    let text = read(rt, input, file)?;
    let text = text.as_str();
    river::parse(heap, text).map_err(|mistake| failure_of(heap, file, text, mistake))
}
