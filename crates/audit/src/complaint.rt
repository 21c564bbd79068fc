// What is said on standard error of a table that is refused, and of a log whose recording cannot be read.
use crate::space;
use files::faults::say_bytes;
use recording::{Found, NotFound};

// Says something, and a number behind it that a byte ends.
fn say(rt: HostRuntime, what: &[u8], n: u64, end: u8) {
    let mut out = space::number();
    let bytes = text::output::put_decimal(&mut out, 0, n, end);
    say_bytes(rt, what);
    say_bytes(rt, &out[..bytes]);
}

// Tells of the log: `herringcart: line L of the log: ` and what.
pub fn complain(rt: HostRuntime, line: u64, what: &[u8]) {
    say(rt, b"herringcart: line ", line, b' ');
    say_bytes(rt, b"of the log: ");
    say_bytes(rt, what);
}

// The same, with the event's number behind.
fn complain_of(rt: HostRuntime, line: u64, what: &[u8], event: u64) {
    say(rt, b"herringcart: line ", line, b' ');
    say_bytes(rt, b"of the log: ");
    say(rt, what, event, b'\n');
}

// Tells of a line where no recording stands.
pub fn tell_not_found(rt: HostRuntime, why: NotFound, line: u64, event: u64) {
    match why {
        NotFound::Missing => complain_of(rt, line, b"it ends before event ", event),
        NotFound::NoAnswer => complain(rt, line, b"no answer, and no word\n"),
    }
}

// Tells of the line behind a recording that cannot be held against ours.
pub fn tell_found(rt: HostRuntime, found: Found, line: u64, event: u64) {
    match found {
        Found::Whole => {}
        Found::Last => complain_of(rt, line, b"it ends in event ", event),
        Found::Misspelt => complain(rt, line, b"no answer, and no word\n"),
        Found::TooMany => complain(rt, line, b"more than 8192 words behind an answer\n"),
    }
}

// Says why nothing is printed; the front tells by the first words that it was a refusal.
pub fn refuse_table(rt: HostRuntime, reason: u32, place: u32) {
    say(
        rt,
        b"herringcart: refused: the table has reason ",
        u64::from(reason),
        b' ',
    );
    say(rt, b"at word ", u64::from(place), b'\n');
}
