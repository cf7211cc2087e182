// The first byte of a letter: what kind it is, and so which numbers it has. Other bytes are left for kinds to come.
ghost use Rattle.std.specs.Prelude.{◌≡◌};
ghost use Rattle.exchange.specs.Kinds.{kind_of, kind_number, kind_in};

use crate::error::LetterError;
use crate::statement::Statement;

#[derive(Clone, Copy, PartialEq, Eq, Debug)]
pub(crate) enum Kind {
    Begun,
    // An hour is whole, and the next one is known.
    Whole,
    // An hour is whole, and it is the last.
    Last,
    Ended,
}

impl Kind {
    pub(crate) fn of(statement: Statement) -> Kind
        ensures { result ≡ kind_of statement }
    {
        match statement {
            Statement::Begun { .. } => Kind::Begun,
            Statement::Whole { next: Some(_), .. } => Kind::Whole,
            Statement::Whole { next: None, .. } => Kind::Last,
            Statement::Ended => Kind::Ended,
        }
    }
}

impl From<Kind> for u8 {
    ghost from_gives = { λ kind byte. byte ≡ kind_number kind };

    fn from(kind: Kind) -> u8 {
        match kind {
            Kind::Begun => 1,
            Kind::Whole => 2,
            Kind::Last => 3,
            Kind::Ended => 4,
        }
    }
}

impl TryFrom<u8> for Kind {
    type Error = LetterError;

    ghost try_from_gives = { λ byte tried. tried ≡ kind_in byte };

    fn try_from(byte: u8) -> Result<Kind, LetterError> {
        match byte {
            1 => Ok(Kind::Begun),
            2 => Ok(Kind::Whole),
            3 => Ok(Kind::Last),
            4 => Ok(Kind::Ended),
            _ => Err(LetterError::UnknownKind),
        }
    }
}
