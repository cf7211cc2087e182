// What the words ask for, read, chosen and printed.
ghost use Rattle.std.specs.Prelude.{◌≡◌, IfOk, OnOk, IfSome, string_bytes};
ghost use Rattle.sums.specs.Sums.{each};
ghost use Rattle.wall_reader.specs.Requests.{asked_by};
ghost use Rattle.status.specs.Endings.{status_of};
ghost use Rattle.wall_printer.specs.Printed.{Shows, Does, status_by};

use crate::chart::print_chart;
use crate::output::unwritten;
use anyhow::anyhow;
use rows::Row;
use status::Failure;
use std::alloc::{AllocError, Global};
use std::fs;
use std::io::{Read, Write};
use text::is_torn;
use wall_reader::{Form, Misuse, WallMistake, chosen, csv_text, parse_words, rows_text};

const USAGE: &str = "\
usage: wall [FILE] [--hour H] [--hours A..B] [--place P] [--csv | --chart]

Reads a wall from FILE or from standard input, a row `hour H place P: S` on each line,
and prints each hour and place once, in order.

  --hour H      only this hour
  --hours A..B  only the hours from A up to B, and not B
  --place P     only this place
  --csv         comma-separated values below a header
  --chart       a bar for each hour of one place
  --help, -h    this text
  --version     the program and the kit that it is built with
";

// Said beside the rows: a station may be writing that line.
const TORN: &str = "the last line has no end, so it is no row yet: it is left out";

// Does what these words ask for; without a file the wall is the input.
pub fn run<R: Read, W: Write>(
    rt: &HostRuntime,
    words: Vec<String>,
    input: &mut R,
    out: &mut W,
) -> Result<(), Failure>
    ensures { OnOk result (Does (asked_by (each string_bytes words.items)) (R.remaining input.old) (W.contents out.old) (W.contents out.new)) }
{
    let heap = rt.alloc();
    let request = match parse_words(words.as_slice()) {
        Ok(request) => request,
        Err(Misuse { word, complaint }) => {
            let word = nth(heap, words, word);
            return Err(Failure::refused_with(heap, format_args!("{word}: {complaint}")));
        }
    };
    if request.help {
        return write!(out, "{USAGE}").map_err(unwritten);
    }
    let name = input_name(heap, words, request.file)?;
    let text = match request.file {
        Some(_) => read_file(rt, name.as_str())?,
        None => read_input(heap, input)?,
    };
    let rows = match wall_reader::read(heap, text.as_str()) {
        Ok(rows) => rows,
        Err(mistake) => return Err(failure_of(heap, name.as_str(), mistake)),
    };
    if is_torn(text.as_bytes()) {
        let _ = eprintln!(rt; "wall: {TORN}");
    }
    let some = chosen(heap, rows.as_slice(), &request.filter)?;
    print_rows(rt, out, some.as_slice(), request.form)?;
    Ok(())
}

fn print_rows<W: Write>(
    rt: &HostRuntime,
    out: &mut W,
    rows: &[Row],
    form: Form,
) -> Result<(), Failure>
    ensures { OnOk result (Shows form rows.now (W.contents out.old) (W.contents out.new)) }
{
    let shown = match form {
        Form::Rows => rows_text(rt.alloc(), rows)?,
        Form::Csv => csv_text(rt.alloc(), rows)?,
        Form::Chart => return print_chart(rt, out, rows),
    };
    write!(out, "{shown}").map_err(unwritten)
}

// The word with this number, and nothing where there is none.
fn nth(heap: Global, words: Vec<String>, at: usize) -> String {
    words.into_iter().nth(at).unwrap_or(String::new(heap))
}

// What is read: the file that this word names, or standard input.
fn input_name(heap: Global, words: Vec<String>, file: Option<usize>) -> Result<String, AllocError> {
    match file {
        Some(word) => Ok(nth(heap, words, word)),
        None => String::from_str(heap, "standard input"),
    }
}

// A line that is no row is refused; two sums of one hour and place are a wall that is wrong.
fn failure_of(heap: Global, name: &str, mistake: WallMistake) -> Failure
    ensures { status_of result ≡ status_by mistake }
{
    let said = format_args!("{name}, {mistake}");
    match mistake {
        WallMistake::Line(..) => Failure::refused_with(heap, said),
        WallMistake::Contradiction { .. } | WallMistake::Memory => Failure::wrong_with(heap, said),
    }
}

fn read_file(rt: &HostRuntime, path: &str) -> Result<String, Failure> {
    fs::read_to_string(rt, path).map_err(|error| Failure::refused_with(
        rt.alloc(),
        format_args!("{path} cannot be read: {error}"),
    ))
}

fn read_input<R: Read>(heap: Global, input: &mut R) -> Result<String, Failure>
    ensures { IfOk result (λ t. IfSome (R.remaining input.old) (λ bs. string_bytes t ≡ bs)) }
{
    let mut text = String::new(heap);
    match input.read_to_string(&mut text) {
        Ok(_) => Ok(text),
        Err(error) => Err(Failure::Refused(anyhow!("standard input cannot be read: {error}"))),
    }
}
