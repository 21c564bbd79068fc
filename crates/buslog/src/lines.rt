// A line of a log that is spelt right, and what it says.
ghost use Rattle.std.specs.Prelude.{◌≡◌, ◌≤◌, ◌&&◌, length, eqb};
ghost use Rattle.rulebook.specs.BusLog.{has_bit, error_bit, bus_off_bit};
ghost use Rattle.buslog.specs.Inside.{ReadsStamp, ReadsFrame, ReadsLine};

use crate::pieces::{Piece, read_number, read_piece};

// The front of a line: its time in microseconds, and where its name begins.
#[derive(Clone, Copy)]
struct Stamp {
    time: u64,
    next: usize,
}

fn read_stamp(text: &[u8], at: usize) -> Option<Stamp>
    requires { at ≤ length text.now }
    ensures { ReadsStamp text.now at result }
{
    let bracket = read_piece(text, at, Piece::Opening).ok()?;
    let point = read_piece(text, bracket + 1, Piece::Seconds).ok()?;
    let closing = read_piece(text, point + 1, Piece::Micros).ok()?;
    let gap = read_piece(text, closing + 1, Piece::Gap).ok()?;
    let whole = read_number(&text[bracket + 1..point], 10, 0);
    let time = read_number(&text[point + 1..closing], 10, whole);
    Some(Stamp {
        time,
        next: gap + 1,
    })
}

// The end of a line, from its identifier on: whether it tells of a bus-off, and where the next line begins.
#[derive(Clone, Copy)]
struct Frame {
    bus_off: bool,
    next: usize,
}

// Whether an identifier of so many digits is a bus-off's: eight of them, with the error bit and the bus-off bit.
#[tactic(auto, unfolding(rulebook::specs::BusLog::has_bit))]
fn tells_bus_off(digits: usize, number: u64) -> bool
    ensures { result ≡ eqb digits 8 && has_bit error_bit number && has_bit bus_off_bit number }
{
    (digits == 8) & (number / 536870912 % 2 == 1) & (number / 64 % 2 == 1)
}

fn read_frame(text: &[u8], at: usize) -> Option<Frame>
    requires { at ≤ length text.now }
    ensures { ReadsFrame text.now at result }
{
    let hash = read_piece(text, at, Piece::Identifier).ok()?;
    let newline = read_piece(text, hash + 1, Piece::Pairs).ok()?;
    let number = read_number(&text[at..hash], 16, 0);
    Some(Frame {
        bus_off: tells_bus_off(hash - at, number),
        next: newline + 1,
    })
}

// A line: its time, its interface's name, whether it tells of a bus-off, and where the next line begins.
#[derive(Clone, Copy)]
pub struct Line<'a> {
    pub time: u64,
    pub name: &'a [u8],
    pub bus_off: bool,
    pub next: usize,
}

// The line at a place; None where it is not spelt right.
pub fn read_line(text: &[u8], at: usize) -> Option<Line<'_>>
    requires { at ≤ length text.now }
    ensures { ReadsLine text.now at result }
{
    let stamp = read_stamp(text, at)?;
    let space = read_piece(text, stamp.next, Piece::Name).ok()?;
    let frame = read_frame(text, space + 1)?;
    Some(Line {
        time: stamp.time,
        name: &text[stamp.next..space],
        bus_off: frame.bus_off,
        next: frame.next,
    })
}
