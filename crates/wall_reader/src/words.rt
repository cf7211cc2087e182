// What the words behind the program's name ask for.
ghost use Rattle.std.specs.Prelude.{◌≡◌, string_bytes, ◌==◌, slice_index};
ghost use Rattle.sums.specs.Sums.{each};
ghost use Rattle.text.specs.Text.{decimal as decimal_of};
ghost use Rattle.wall_reader.specs.Requests.{is_given, kind_of, hours_of, number_of, valued, plain_taken, word_taken, asked_by};
ghost use Rattle.wall_reader.specs.Worked.{WorkedRequests};

use crate::asked::{Filter, Hours};
use text::{decimal, until_dot};
use thiserror::Error;

// How rows are shown.
#[derive(Clone, Copy, PartialEq, Eq, Debug)]
pub enum Form {
    Rows,
    Csv,
    Chart,
}

#[derive(Clone, Copy, PartialEq, Eq, Debug)]
pub struct Request {
    // Which word names the file, counted from 0: a borrowed word has an address too, of which no clause speaks.
    pub file: Option<usize>,
    pub filter: Filter,
    pub form: Form,
    pub help: bool,
}

// What is wrong with a word.
#[derive(Clone, Copy, PartialEq, Eq, Debug, Error)]
pub enum Complaint {
    #[error("there is no such option")]
    NoSuchOption,
    #[error("its value is missing")]
    NoValue,
    #[error("this is not a number below 2^64")]
    NotANumber,
    #[error("hours are two numbers below 2^64, as 3..12")]
    NotHours,
    // The first hour is not below the second.
    #[error("no hours are from the first up to the second")]
    NoHours,
    #[error("this option is given already")]
    SecondOption,
    #[error("--csv or --chart is given already")]
    SecondForm,
    #[error("a file is named already")]
    SecondFile,
}

// The word, counted from 0, and what is wrong with it.
#[derive(Clone, Copy, PartialEq, Eq, Debug)]
pub struct Misuse {
    pub word: usize,
    pub complaint: Complaint,
}

// An option with a value.
#[derive(Clone, Copy)]
enum Valued {
    Hour,
    Hours,
    Place,
}

#[derive(Clone, Copy)]
enum Kind {
    Valued(Valued),
    Csv,
    Chart,
    Help,
    File,
    Unknown,
}

impl Kind {
    fn of(word: &str) -> Kind
        ensures { result ≡ kind_of word.now }
    {
        match word {
            "--hour" => Kind::Valued(Valued::Hour),
            "--hours" => Kind::Valued(Valued::Hours),
            "--place" => Kind::Valued(Valued::Place),
            "--csv" => Kind::Csv,
            "--chart" => Kind::Chart,
            "--help" | "-h" => Kind::Help,
            _ if word.starts_with('-') => Kind::Unknown,
            _ => Kind::File,
        }
    }
}

// The hours that two numbers with two dots between them write.
fn hours_of(word: &[u8]) -> Result<Hours, Complaint>
    ensures { result ≡ hours_of word.now }
{
    let (front, back) = until_dot(word);
    let [_, b'.', end @ ..] = back else {
        return Err(Complaint::NotHours);
    };
    let (Some(from), Some(to)) = (decimal(front), decimal(end)) else {
        return Err(Complaint::NotHours);
    };
    if from >= to {
        return Err(Complaint::NoHours);
    }
    Ok(Hours { from, to })
}

fn number_of(word: &[u8]) -> Result<u64, Complaint>
    ensures { result ≡ number_of (decimal_of word.now) }
{
    decimal(word).ok_or(Complaint::NotANumber)
}

impl Valued {
    // Whether the filter has its value.
    fn is_given(self, filter: &Filter) -> bool
        ensures { result ≡ is_given self filter.now }
    {
        match self {
            Valued::Hour => filter.hour.is_some(),
            Valued::Hours => filter.hours.is_some(),
            Valued::Place => filter.place.is_some(),
        }
    }

    // The filter with this option's value.
    fn put(self, filter: Filter, word: &[u8]) -> Result<Filter, Complaint>
        ensures { result ≡ valued self filter word.now }
    {
        Ok(match self {
            Valued::Hour => Filter {
                hour: Some(number_of(word)?),
                ..filter
            },
            Valued::Hours => Filter {
                hours: Some(hours_of(word)?),
                ..filter
            },
            Valued::Place => Filter {
                place: Some(number_of(word)?),
                ..filter
            },
        })
    }
}

// What the words so far ask for, and the option whose value is to follow.
#[derive(Clone, Copy)]
struct Draft {
    request: Request,
    waits: Option<Valued>,
}

impl Draft {
    // A word more that is no value.
    fn plain(mut self, at: usize, word: &str) -> Result<Draft, Complaint>
        ensures { result ≡ plain_taken self at (kind_of word.now) }
    {
        let request = &mut self.request;
        match Kind::of(word) {
            Kind::Valued(option) if option.is_given(&request.filter) => {
                return Err(Complaint::SecondOption);
            }
            Kind::Valued(option) => self.waits = Some(option),
            Kind::Csv | Kind::Chart if request.form != Form::Rows => {
                return Err(Complaint::SecondForm);
            }
            Kind::Csv => request.form = Form::Csv,
            Kind::Chart => request.form = Form::Chart,
            Kind::Help => request.help = true,
            Kind::File if request.file.is_none() => request.file = Some(at),
            Kind::File => return Err(Complaint::SecondFile),
            Kind::Unknown => return Err(Complaint::NoSuchOption),
        }
        Ok(self)
    }

    // A word more.
    fn take(self, at: usize, word: &str) -> Result<Draft, Complaint>
        ensures { result ≡ word_taken self at word.now }
    {
        let Some(option) = self.waits else {
            return self.plain(at, word);
        };
        let filter = option.put(self.request.filter, word.as_bytes())?;
        let request = Request {
            filter,
            ..self.request
        };
        Ok(Draft {
            request,
            waits: None,
        })
    }
}

// What the words ask for, or the first word that is wrong.
pub fn parse_words(words: &[String]) -> Result<Request, Misuse>
    ensures { result ≡ asked_by (each string_bytes words.now) }
{
    let mut draft = Draft {
        request: Request {
            file: None,
            filter: Filter::ALL,
            form: Form::Rows,
            help: false,
        },
        waits: None,
    };
    for (at, word) in words.iter().enumerate() {
        draft = draft.take(at, word.as_str()).map_err(|complaint| Misuse {
            word: at,
            complaint,
        })?;
    }
    match draft.waits {
        None => Ok(draft.request),
        Some(_) => Err(Misuse {
            word: words.len().saturating_sub(1),
            complaint: Complaint::NoValue,
        }),
    }
}

// Theorem: what a few lists of words ask for, worked out by hand.
pub fn worked_requests()
    ensures { WorkedRequests }
{}
