// What goes wrong, told on standard error: what failed, a colon and the system's text.
ghost use Rattle.std.specs.Prelude.{◌≡◌, ◌≤◌, length};
ghost use Rattle.std.specs.Result.{result_ok};

use std::fmt::Write;
use std::io::Print;
use std::{fmt, io};

// What the system says of a name that is too long, and of bytes that are no text.
pub const TOO_LONG: i32 = 36;

pub const NOT_TEXT: i32 = 84;

// Writes to standard error. Where it cannot, nobody hears of that.
pub fn say_bytes(rt: HostRuntime, what: &[u8]) {
    let _ = Print::write_all(&rt.stderr(), what);
}

// Room for the text of an error, of its own since there is no heap, and how much of it is laid. What has no room is left out.
#[derive(Drop)]
struct Text {
    bytes: [u8; 320],
    length: usize,
    ghost inside: { length ≤ 320 },
}

impl Write for Text {
    fn write_str(&mut self, s: &str) -> fmt::Result {
        let n = s.len().min(320 - self.length);
        self.bytes[self.length..self.length + n].copy_from_slice(&s.as_bytes()[..n]);
        self.length += n;
        Ok(())
    }
}

// How many of the bytes stand before the last " (", behind which the number of a system's error stands.
fn before_number(text: &[u8]) -> usize
    ensures { result ≤ length text.now }
{
    match text.iter().rposition(|b| *b == b'(') {
        Some(i) => i.saturating_sub(1),
        None => text.len(),
    }
}

// Tells what failed, and why.
pub fn fail(rt: HostRuntime, what: &[u8], error: io::Error) {
    let mut text = Text {
        bytes: [0; 320],
        length: 0,
    };
    let _ = write!(text, "{error}");
    let laid = &text.bytes[..text.length];
    let n = if error.raw_os_error().is_some() {
        before_number(laid)
    } else {
        laid.len()
    };
    say_bytes(rt, what);
    say_bytes(rt, b": ");
    say_bytes(rt, &laid[..n]);
    say_bytes(rt, b"\n");
}

// What was done, or nothing where it failed, which is told.
pub(crate) fn told<T>(rt: HostRuntime, what: &[u8], done: io::Result<T>) -> Option<T>
    ensures { result ≡ result_ok done }
{
    match done {
        Ok(it) => Some(it),
        Err(error) => {
            fail(rt, what, error);
            None
        }
    }
}
