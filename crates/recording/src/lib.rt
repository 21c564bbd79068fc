// A supplier's log, as document 01's program would print it, read back: an event's recording at a time, with a cursor by value.
#![tactic(auto)]

ghost use Rattle.std.specs.Prelude.{◌≡◌, ◌≤◌, length};
ghost use Rattle.recording.specs.Log.{is_answer as is_answer_at, found_behind};
ghost use Rattle.recording.specs.Promises.{found_number, ReadsDigit, ReadsHex, ReadsWord, ReadsWords, ReadsRecording};

use text::input::byte;

// The value of a capital hex digit.
fn hex_value(b: u8) -> Option<u32>
    ensures { ReadsDigit b result }
{
    match b {
        b'0'..=b'9' => Some(u32::from(b - b'0')),
        b'A'..=b'F' => Some(u32::from(b - b'A' + 10)),
        _ => None,
    }
}

// The word that eight bytes from a place on spell.
fn read_hex(bytes: &[u8], at: usize) -> Option<u32>
    requires { at ≤ length bytes.now }
    ensures { ReadsHex bytes.now at result }
{
    let mut value = 0;
    for k in 0..8 {
        let digit = hex_value(byte(bytes, at + k))?;
        value = value * 16 + digit;
    }
    Some(value)
}

// The word whose line stands at a place.
fn read_word(bytes: &[u8], at: usize) -> Option<u32>
    requires { at ≤ length bytes.now }
    ensures { ReadsWord bytes.now at result }
{
    if byte(bytes, at + 8) != b'\n' {
        return None;
    }
    read_hex(bytes, at)
}

// Whether an answer's line stands at a place.
fn is_answer(bytes: &[u8], at: usize) -> bool
    requires { at ≤ length bytes.now }
    ensures { result ≡ is_answer_at bytes.now at }
{
    byte(bytes, at).is_ascii_digit() && byte(bytes, at + 1) == b'\n'
}

// Reads the words whose lines stand one behind the other from a place on into the front of `words`, as many as it has room for.
fn read_words(bytes: &[u8], at: usize, words: &mut [u32]) -> usize
    requires { at ≤ length bytes.now }
    ensures { ReadsWords bytes.now at words.old result words.new }
{
    for (n, word) in words.iter_mut().enumerate() {
        let Some(read) = read_word(bytes, at + 9 * n) else {
            return n;
        };
        *word = read;
    }
    words.len()
}

// What stands behind a recording's words: another recording, so that this one is whole; nothing, so that it is the log's last; a line that is
// neither an answer nor a word; or a word that has no room.
#[derive(Clone, Copy, Debug, PartialEq, Eq)]
pub enum Found {
    Whole,
    Last,
    Misspelt,
    TooMany,
}

// Where a recording has to stand: no line any more, or one that is no answer.
#[derive(Clone, Copy, Debug, PartialEq, Eq)]
pub enum NotFound {
    Missing,
    NoAnswer,
}

// A recording: what stands behind it, the answer, how many words stand in the front of those lent, and the place behind them.
#[derive(Clone, Copy, Debug, PartialEq, Eq)]
pub struct Recording {
    pub found: Found,
    pub answer: u32,
    pub count: usize,
    pub next: usize,
}

// What stands behind the words of a recording.
fn found_behind(bytes: &[u8], next: usize) -> Found
    requires { next ≤ length bytes.now }
    ensures { found_number result ≡ found_behind bytes.now next }
{
    if bytes.len() <= next {
        return Found::Last;
    }
    if is_answer(bytes, next) {
        return Found::Whole;
    }
    match read_word(bytes, next) {
        Some(_) => Found::TooMany,
        None => Found::Misspelt,
    }
}

// Reads the recording at a place, its words into the front of `words`.
pub fn read_recording(bytes: &[u8], at: usize, words: &mut [u32]) -> Result<Recording, NotFound>
    ensures { ReadsRecording bytes.now at words.old result words.new }
{
    if bytes.len() <= at {
        return Err(NotFound::Missing);
    }
    if !is_answer(bytes, at) {
        return Err(NotFound::NoAnswer);
    }
    let answer = u32::from(byte(bytes, at) - b'0');
    let count = read_words(bytes, at + 2, words);
    let next = at + 2 + 9 * count;
    let found = found_behind(bytes, next);
    Ok(Recording {
        found,
        answer,
        count,
        next,
    })
}
