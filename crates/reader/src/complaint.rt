// What is said of a listing that cannot be read: the first bad line, what stands there, and what was expected.
ghost use Rattle.std.specs.Prelude.{◌+◌, ◌≤◌, ◌≡◌, length};

use crate::space;
use files::faults::say_bytes;
use listing::forms;
use listing::forms::Form;
use listing::reading::read_line;
use text::output::{put_decimal, put_label};
use words::table::Table;

// The most bytes of a line that are shown.
const MOST: usize = 80;

// Where a line begins: behind as many newlines as there are lines before it, and at the end of a text that has fewer. Lines count from 1.
fn line_start(text: &[u8], line: usize) -> usize
    ensures { result ≤ length text.now }
{
    let mut left = line.saturating_sub(1);
    for (i, b) in text.iter().enumerate() {
        if left == 0 {
            return i;
        }
        if *b == b'\n' {
            left -= 1;
        }
    }
    text.len()
}

// How many bytes stand from a place on before a newline, or before the end of a text that has none.
fn line_length(text: &[u8], from: usize) -> usize
    requires { from ≤ length text.now }
    ensures { from + result ≤ length text.now }
{
    let rest = &text[from..];
    rest.iter().position(|b| *b == b'\n').unwrap_or(rest.len())
}

// A byte as it is shown: a question mark where it is no printable one.
fn shown(b: u8) -> u8 {
    match b {
        b' '..=b'~' => b,
        _ => b'?',
    }
}

// Lays bytes, and a number with a byte that ends it. What is laid stays inside the room.

fn put(out: &mut [u8], at: usize, bytes: &[u8]) -> usize
    requires { at ≤ length out.old }
    ensures { result ≤ length out.new }
{
    put_label(out, at, bytes)
}

fn put_number(out: &mut [u8], at: usize, n: u64, end: u8) -> usize
    requires { at ≤ length out.old }
    ensures { result ≤ length out.new }
{
    put_decimal(out, at, n, end)
}

// Lays the n bytes from a place of the text on, as they are shown.
fn put_shown(out: &mut [u8], at: usize, text: &[u8], from: usize, n: usize) -> usize
    requires { (at ≤ length out.old) × (from + n ≤ length text.now) }
    ensures { result ≤ length out.new }
{
    let n = n.min(out.len() - at);
    for (room, b) in out[at..].iter_mut().zip(&text[from..from + n]) {
        *room = shown(*b);
    }
    at + n
}

// Lays what stands in the line that begins at a place. Where the file is longer than the window, the window may cut its last line short; no bad line
// is cut so but one that has far more bytes than are shown, for no bad line begins behind byte 149,695.
fn put_line(out: &mut [u8], at: usize, text: &[u8], from: usize) -> usize
    requires { (at ≤ length out.old) × (from ≤ length text.now) }
    ensures { result ≤ length out.new }
{
    if from == text.len() {
        return put(out, at, b"the listing ends");
    }
    let n = line_length(text, from);
    let next = put_shown(out, at, text, from, n.min(MOST));
    if MOST < n {
        return put(out, next, b" ..");
    }
    if from + n == text.len() {
        return put(out, next, b" (no newline)");
    }
    next
}

// The least that the first fields of a form may be; 0 for the others. Only a header's counts and an operator's kind have limits of their own.
fn lows(f: Form) -> &'static [u32] {
    match f {
        Form::FirstHeader | Form::SecondHeader => &[1, 1],
        Form::Operator => &[4],
        _ => &[],
    }
}

// One more than the most that each field of a form may be.
fn ends(f: Form) -> &'static [u32] {
    match f {
        Form::FirstHeader => &[3, 65, 9, 33],
        Form::SecondHeader => &[513, 257],
        Form::ThirdHeader => &[256, 2048],
        Form::Operator => &[9, 16384, 16384],
        _ => forms::sizes(f),
    }
}

// Lays the least and the most of a field, of which one more is told, and a byte that ends them.
fn put_limits(out: &mut [u8], at: usize, low: u32, past_high: u32, end: u8) -> usize
    requires { at ≤ length out.old }
    ensures { result ≤ length out.new }
{
    let next = put_number(out, at, low as u64, b'.');
    let next = put(out, next, b".");
    put_number(out, next, past_high.saturating_sub(1) as u64, end)
}

// Lays a form: the section's name and the limits of each field, and a byte that ends them.
fn put_form(out: &mut [u8], at: usize, f: Form, end: u8) -> usize
    requires { at ≤ length out.old }
    ensures { result ≤ length out.new }
{
    let past_highs = ends(f);
    let mut next = put(out, at, forms::name(f));
    for (k, past_high) in past_highs.iter().enumerate() {
        let low = lows(f).get(k).copied().unwrap_or(0);
        let behind = if k + 1 < past_highs.len() { b' ' } else { end };
        next = put_limits(out, next, low, *past_high, behind);
    }
    next
}

// The words of the header's lines, as far as they can be read.
fn read_header(text: &[u8]) -> [u32; 3]
    ensures { 3 ≡ length result }
{
    let mut header = [0; 3];
    let mut at = 0;
    for i in 0..3 {
        let Some((w, next)) = read_line(text, at, Form::from(i)) else {
            return header;
        };
        header[i] = w;
        at = next;
    }
    header
}

// The form that a line has to have, by the good lines before it; none behind the last one.
fn form_at_line(text: &[u8], line: usize) -> Option<Form> {
    let i = line.saturating_sub(1);
    if i < 3 {
        return Some(Form::from(i));
    }
    let header = read_header(text);
    let table = Table::read(&header);
    if i < table.length() {
        return Some(forms::form_at(&table, i));
    }
    None
}

// Lays what was expected in a line of that form. An expression's kind decides which of two forms its line has.
fn put_expected(out: &mut [u8], at: usize, expected: Option<Form>) -> usize
    requires { at ≤ length out.old }
    ensures { result ≤ length out.new }
{
    match expected {
        None => put(out, at, b"the end of the listing\n"),
        Some(Form::Condition) => {
            let next = put_form(out, at, Form::Condition, b';');
            let next = put(out, next, b" kinds 4 to 8: ");
            put_form(out, next, Form::Operator, b'\n')
        }
        Some(f) => put_form(out, at, f, b'\n'),
    }
}

// Lays the two lines that tell of a bad one.
fn put_complaint(out: &mut [u8], text: &[u8], line: usize) -> usize
    ensures { result ≤ length out.new }
{
    let next = put(out, 0, b"herringcart: line ");
    let next = put_number(out, next, line as u64, b':');
    let next = put(out, next, b" ");
    let next = put_line(out, next, text, line_start(text, line));
    let next = put(out, next, b"\nherringcart: expected: ");
    put_expected(out, next, form_at_line(text, line))
}

// Tells of the first bad line of a text on standard error.
pub fn complain(rt: HostRuntime, text: &[u8], line: usize) {
    let mut out = space::message();
    let n = put_complaint(&mut out, text, line);
    say_bytes(rt, &out[..n]);
}
