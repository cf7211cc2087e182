// Readers of bytes: lines, words and numbers. A reader answers what it read and what is left.
ghost use Rattle.std.specs.Prelude.{◌≡◌, ℕ, Bool, ◌<◌, ◌≤◌, [], ◌∷◌, length, take, drop, MatchOption, nat_eq, slice_index};
ghost use Rattle.std.specs.Iterator.{YieldsFirstRef, at_most};
ghost use Rattle.std.specs.Str.{bytes_eq};
ghost use Rattle.text.specs.Text.{Computes, before, digit, from, lines, lines_left, whole_lines, words, words_left};
ghost use Rattle.text.specs.Text as spec;

fn is_blank(byte: u8) -> bool
    ensures { result ≡ spec.blank byte }
{
    byte == b' ' || byte == b'\t' || byte == b'\r'
}

// What stands before the first byte at which to stop, and what stands from it on.
fn cut<F: Fn(u8) -> bool>(bytes: &[u8], stop: F) -> (&[u8], &[u8])
    requires { F.IsAlwaysCallable stop }
    ensures { (p : ℕ → Bool) → Computes (F.post stop) p → (result.0.now ≡ before p bytes.now) × (result.1.now ≡ from p bytes.now) }
{
    let end = bytes.iter().position(|byte| stop(*byte));
    bytes.split_at(end.unwrap_or(bytes.len()))
}

// The first line and what follows it, or none where nothing is left.
pub fn first_line(bytes: &[u8]) -> Option<(&[u8], &[u8])>
    ensures parts { MatchOption result (lines bytes.now ≡ []) (λ p. lines bytes.now ≡ p.0.now ∷ lines p.1.now) }
    ensures shorter { MatchOption result (length bytes.now ≡ 0) (λ p. length p.1.now < length bytes.now) }
{
    if bytes.is_empty() {
        return None;
    }
    let (line, end) = cut(bytes, |byte| byte == b'\n');
    Some((line, end.get(1..).unwrap_or(end)))
}

// The lines of a text, one after the other.
#[derive(Drop)]
pub struct Lines<'a> {
    rest: &'a [u8],
}

impl<'a> Lines<'a> {
    pub fn new(text: &'a [u8]) -> Lines<'a>
        ensures { lines_left result ≡ lines text.now }
    {
        Lines { rest: text }
    }
}

impl<'a> Iterator for Lines<'a> {
    type Item = &'a [u8];

    ghost next_gives = { YieldsFirstRef lines_left };

    ghost remaining = { λ s. at_most (length s.rest.now) };

    fn next(&mut self) -> Option<&'a [u8]> {
        let (line, rest) = first_line(self.rest)?;
        self.rest = rest;
        Some(line)
    }
}

// How many bytes of a text are whole lines: a last line without its end is none.
#[tactic(auto, using(crate::proofs::Wholes::none_behind, crate::proofs::Wholes::wholes))]
pub fn whole(text: &[u8]) -> usize
    ensures within { result ≤ length text.now }
    ensures lines { lines (take result text.now) ≡ whole_lines text.now }
    ensures rest { whole_lines (drop result text.now) ≡ [] }
{
    text.iter()
        .rposition(|byte| *byte == b'\n')
        .map_or(0, |at| at + 1)
}

// Whether the last line has no end.
pub fn is_torn(text: &[u8]) -> bool
    ensures { result ≡ spec.is_torn text.now }
{
    text.last().is_some_and(|byte| *byte != b'\n')
}

// What stands before a comment.
pub fn uncommented(line: &[u8]) -> &[u8]
    ensures { result.now ≡ before (λ b. nat_eq b 35) line.now }
{
    cut(line, |byte| byte == b'#').0
}

// What stands before the first dot, and what stands from it on.
pub fn until_dot(word: &[u8]) -> (&[u8], &[u8])
    ensures front { result.0.now ≡ before (λ b. nat_eq b 46) word.now }
    ensures back { result.1.now ≡ from (λ b. nat_eq b 46) word.now }
{
    cut(word, |byte| byte == b'.')
}

// The first word and what follows it, or none where only blanks are left.
pub fn first_word(bytes: &[u8]) -> Option<(&[u8], &[u8])>
    ensures { MatchOption result (words bytes.now ≡ []) (λ p. words bytes.now ≡ p.0.now ∷ words p.1.now) }
{
    let (_, solid) = cut(bytes, |byte| !is_blank(byte));
    if solid.is_empty() {
        return None;
    }
    Some(cut(solid, is_blank))
}

// The words of a line, one after the other.
#[derive(Drop)]
pub struct Words<'a> {
    rest: &'a [u8],
}

impl<'a> Words<'a> {
    pub fn new(line: &'a [u8]) -> Words<'a>
        ensures { words_left result ≡ words line.now }
    {
        Words { rest: line }
    }
}

impl<'a> Iterator for Words<'a> {
    type Item = &'a [u8];

    ghost next_gives = { YieldsFirstRef words_left };

    ghost remaining = { λ s. at_most (length (words s.rest.now)) };

    fn next(&mut self) -> Option<&'a [u8]> {
        let (word, rest) = first_word(self.rest)?;
        self.rest = rest;
        Some(word)
    }
}

// Whether a word is this name: `==` wants `.as_slice()` at each.
pub fn same(word: &[u8], name: &[u8]) -> bool
    ensures { result ≡ bytes_eq word.now name.now }
{
    word == name
}

pub fn starts_with_digit(word: &[u8]) -> bool
    ensures { result ≡ digit (slice_index word.now 0) }
{
    word.first().is_some_and(|byte| byte.is_ascii_digit())
}

// The number that the digits of a word write, where it is below 2^64; a sign, which `parse` would take, is no digit.
pub fn decimal(word: &[u8]) -> Option<u64>
    ensures { result ≡ spec.decimal word.now }
{
    if word.is_empty() {
        return None;
    }
    let mut value: u64 = 0;
    for byte in word {
        if !byte.is_ascii_digit() {
            return None;
        }
        value = value.checked_mul(10)?.checked_add(u64::from(*byte - b'0'))?;
    }
    Some(value)
}
