// What is said of a text that is refused.
use crate::line::refused_word;
use crate::mistake::Mistake;
use std::fmt;
use text::Lines;

// How much of a word is said, in characters.
const SHOWN: usize = 24;

// A mistake in the text of a file: it is said with the file's name, the line's number, the word and the reason.
#[derive(Clone, Copy)]
pub struct InFile<'a> {
    pub file: &'a str,
    pub text: &'a str,
    pub mistake: Mistake,
}

impl<'a> InFile<'a> {
    // The word for which the text is refused, if it is one.
    fn word(&self) -> Option<&'a str> {
        let Mistake::Line(line, why) = self.mistake else {
            return None;
        };
        let at = usize::try_from(line).ok()?.checked_sub(1)?;
        let line = Lines::new(self.text.as_bytes()).nth(at)?;
        str::from_utf8(refused_word(line, why)?).ok()
    }
}

// The start of a word that is long.
fn shown(word: &str) -> &str {
    word.char_indices()
        .nth(SHOWN)
        .and_then(|(at, _)| word.get(..at))
        .unwrap_or(word)
}

impl fmt::Display for InFile<'_> {
    fn fmt<W: fmt::Write>(&self, f: &mut fmt::Formatter<W>) -> fmt::Result {
        let file = self.file;
        let mistake = self.mistake;
        match self.word().map(shown) {
            Some(word) => write!(f, "{file}, {mistake}: `{word}`"),
            None => write!(f, "{file}, {mistake}"),
        }
    }
}
