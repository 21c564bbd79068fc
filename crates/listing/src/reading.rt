// A listing read back into lent words: refused with the number of the first line at which no listing can go on, then where the words are too few,
// and then nothing is written. Each reader is told a place and says, by value, what stands there and where it ends.
ghost use Rattle.std.specs.Prelude.{◌≡◌, ◌≤◌, ◌<◌, length};
ghost use Rattle.listing.specs.Forms.{form_number};
ghost use Rattle.listing.specs.Inside.{ReadsDigit, Spelling, ReadsNumber, ReadsFields, ReadsLine, KindAt, least, Opens, Opened, Scans, Told};
ghost use Rattle.listing.specs.Promises.{read_number, words_of, line_in, ReadsWords, Reads};

use crate::forms::{Form, ending, form_at, name, of_kind, sizes};
use tables::sound_header;
use text::input::byte;
use words::table::Table;

// The value of the decimal digit at a place.
fn digit(text: &[u8], at: usize) -> Option<u32>
    ensures { ReadsDigit text.now at result }
{
    char::from(byte(text, at)).to_digit(10)
}

// The number at a place, below `size` and with `end` behind it, and the place behind that byte.
fn read_number(text: &[u8], at: usize, size: u32, end: u8) -> Option<(u32, usize)>
    requires { Spelling text.now at size end }
    ensures { ReadsNumber size end text.now at result }
{
    if byte(text, at) == b'0' {
        // no number but 0 begins with a zero
        if byte(text, at + 1) == end {
            return Some((0, at + 2));
        }
        return None;
    }
    let mut value: u32 = 0;
    let mut p = at;
    // p is read again behind the digits, so a `for` over the text would carry it too
    while let Some(d) = digit(text, p) {
        value = value * 10 + d;
        if size <= value {
            return None;
        }
        p += 1;
    }
    if value == 0 {
        return None;
    }
    if byte(text, p) != end {
        return None;
    }
    Some((value, p + 1))
}

// The word that the fields of a form at a place make, and the place behind the end of the line.
fn read_fields(text: &[u8], at: usize, f: Form) -> Option<(u32, usize)>
    requires { at ≤ length text.now }
    ensures { ReadsFields (form_number f) text.now at result }
{
    let row = sizes(f);
    let mut next = at;
    let mut w: u64 = 0;
    for (k, size) in row.iter().enumerate() {
        let (v, behind) = read_number(text, next, *size, ending(k, row.len()))?;
        w = w * u64::from(*size) + u64::from(v);
        next = behind;
    }
    Some((w as u32, next))
}

// The form of the fields at a place, by the form that has to stand there: an expression's goes by its kind.
fn form_of(text: &[u8], at: usize, f: Form) -> Form
    requires { at ≤ length text.now }
    ensures { KindAt text.now at (form_number f) (form_number result) }
{
    let Form::Condition = f else {
        return f;
    };
    let Some((kind, _)) = read_number(text, at, 16, b' ') else {
        return f;
    };
    of_kind(f, kind)
}

// The word of the line at a place where a line of form f has to stand, and the place behind the line; None where no such line stands there.
pub fn read_line(text: &[u8], at: usize, f: Form) -> Option<(u32, usize)>
    requires { at ≤ length text.now }
    ensures { ReadsLine (form_number f) text.now at result }
{
    let name = name(f);
    if !text[at..].starts_with(name) {
        return None;
    }
    let behind = at + name.len();
    read_fields(text, behind, form_of(text, behind, f))
}

// Reads the header's lines, and answers with the place behind them or with the number of the first bad one. What is not read yet is the least that
// may stand there, so each line is judged as it comes.
fn read_header(text: &[u8], header: &mut [u32]) -> Result<usize, usize>
    requires { header.old ≡ least }
    ensures { Opens text.now header.new result }
{
    let mut at = 0;
    for i in 0..3 {
        let (w, next) = read_line(text, at, Form::from(i)).ok_or(i + 1)?;
        header[i] = w;
        if !sound_header(header) {
            return Err(i + 1);
        }
        at = next;
    }
    Ok(at)
}

// Scans the lines behind the header's, which end at a place: how many words the listing has, or the number of its first bad line.
fn scan_lines(text: &[u8], from: usize, header: &[u32]) -> Result<usize, usize>
    requires { Opened text.now header.now from }
    ensures { Scans text.now header.now result }
{
    let t = Table::read(header);
    let n = t.length();
    let mut at = from;
    for i in 3..n {
        let (_, next) = read_line(text, at, form_at(&t, i)).ok_or(i + 1)?;
        at = next;
    }
    if at < text.len() {
        return Err(n + 1);
    }
    Ok(n)
}

// Reads the n words of a text that is known to be a listing.
fn read_words(text: &[u8], header: &[u32], n: usize, words: &mut [u32])
    requires { Told text.now header.now words.old n }
    ensures { ReadsWords text.now words.old n words.new }
{
    let t = Table::read(header);
    let mut at = 0;
    for i in 0..n {
        let line = read_line(text, at, form_at(&t, i));
        let (w, next) = line.unwrap();
        words[i] = w;
        at = next;
    }
}

// Why a text is not read: its first bad line, counted from 1, or that the lent words are too few.
#[derive(Clone, Copy, Debug, PartialEq, Eq)]
pub enum Unread {
    Line(usize),
    NoRoom,
}

// An answer's number.
pub fn number(reading: Result<usize, Unread>) -> u32
    ensures { result ≡ read_number reading }
{
    match reading {
        Ok(_) => 0,
        Err(Unread::Line(_)) => 12,
        Err(Unread::NoRoom) => 11,
    }
}

// How many words were read; 0 in a refusal.
pub fn words(reading: Result<usize, Unread>) -> usize
    ensures { result ≡ words_of reading }
{
    reading.unwrap_or(0)
}

// The number of the first bad line, counted from 1; 0 where no line is bad.
pub fn bad_line(reading: Result<usize, Unread>) -> usize
    ensures { result ≡ line_in reading }
{
    match reading {
        Err(Unread::Line(k)) => k,
        _ => 0,
    }
}

// Reads a listing into the front of the lent words and answers how many they are, or refuses and changes none of them.
pub fn read(text: &[u8], words: &mut [u32]) -> Result<usize, Unread>
    ensures { Reads text.now words.old result words.new }
{
    let mut header = [16842752, 65537, 0];
    let opening = read_header(text, &mut header).map_err(Unread::Line);
    let Ok(from) = opening else {
        return opening;
    };
    let scanned = scan_lines(text, from, &header).map_err(Unread::Line);
    let Ok(n) = scanned else {
        return scanned;
    };
    if words.len() < n {
        return Err(Unread::NoRoom);
    }
    read_words(text, &header, n, words);
    Ok(n)
}
