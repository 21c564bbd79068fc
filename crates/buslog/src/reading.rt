// A log's lines read one after the other from a cursor on, in one pass: what each gives is written, and the first that is refused ends it.
ghost use Rattle.std.specs.Prelude.{◌≡◌, ◌^◌, ◌<◌, ◌≤◌, length};
ghost use Rattle.rulebook.specs.BusLog.{zero_time, ticks_due, goes_back, line_read, bus_off_word, read_line, read_lines, unread};
ghost use Rattle.rulebook.specs.BusLog.{next_line as line_behind};
ghost use Rattle.buslog.specs.Promises.{cursor_as, end_number, line_of, ReadsLog};
ghost use Rattle.buslog.specs.Inside.{GivesTicks, Stops, NoRoomAt, Gives, ReadsTo, reading};

use crate::interfaces;
use crate::lines::{Line, read_line};
use words::table::Table;

// Where reading stands: lines read, the times of the first and of the last of them, and ticks given. Before a log's first line all are 0.
#[derive(Clone, Copy, Debug, PartialEq, Eq)]
pub struct Cursor {
    pub lines: u64,
    pub first: u64,
    pub last: u64,
    pub given: u64,
}

// What refused the table, the list or the line behind those read.
#[derive(Clone, Copy, Debug, PartialEq, Eq)]
pub enum Halt {
    BadTable,
    BadNames,
    Misspelt,
    GoesBack,
    Unlisted,
    NoRoom,
}

// An answer's number.
pub fn number(end: Result<(), Halt>) -> u32
    ensures { result ≡ end_number end }
{
    match end {
        Ok(()) => 0,
        Err(Halt::BadTable) => 1,
        Err(Halt::BadNames) => 13,
        Err(Halt::Misspelt) => 12,
        Err(Halt::GoesBack) => 14,
        Err(Halt::Unlisted) => 15,
        Err(Halt::NoRoom) => 11,
    }
}

// What reading came to: whether every line is read or what refused one, the cursor, how many events are written, and how many bytes of the log are read.
#[derive(Clone, Copy, Debug, PartialEq, Eq)]
pub struct Step {
    pub end: Result<(), Halt>,
    pub cursor: Cursor,
    pub events: usize,
    pub bytes: usize,
}

// The number of the line behind so many, held at the most that 64 bits have.
fn next_line(lines: u64) -> u64
    ensures { result ≡ line_behind lines }
{
    lines.saturating_add(1)
}

// The line that an answer refuses; 0 where it refuses none.
#[tactic(auto, unfolding(rulebook::specs::BusLog::refused_line))]
pub fn refused_line(step: Step) -> u64
    ensures { result ≡ line_of step }
{
    match step.end {
        Ok(()) | Err(Halt::BadTable | Halt::BadNames) => 0,
        Err(_) => next_line(step.cursor.lines),
    }
}

// The time from which ticks are counted: the first line's.
#[tactic(auto, unfolding(rulebook::specs::BusLog::zero_time))]
fn zero_time(c: Cursor, time: u64) -> u64
    ensures { result ≡ zero_time (cursor_as c) time }
{
    if c.lines == 0 { time } else { c.first }
}

// How many ticks come before a line of that time: the whole 10 milliseconds passed, but for those given. That the time is one of 64 bits is said for a
// caller that has it in a struct.
#[tactic(auto, unfolding(rulebook::specs::BusLog::ticks_due))]
fn ticks_due(c: Cursor, time: u64) -> u64
    ensures { (result ≡ ticks_due (cursor_as c) time) × (time < 2 ^ 64) }
{
    let passed = time.saturating_sub(zero_time(c, time)) / 10000;
    passed.saturating_sub(c.given)
}

// Whether a time is before that of the line before.
#[tactic(auto, unfolding(rulebook::specs::BusLog::goes_back))]
fn goes_back(c: Cursor, time: u64) -> bool
    ensures { result ≡ goes_back (cursor_as c) time }
{
    !(c.lines == 0) & (time < c.last)
}

// The cursor behind a line of that time.
#[tactic(auto, unfolding(rulebook::specs::BusLog::line_read))]
fn line_read(c: Cursor, time: u64) -> Cursor
    ensures { cursor_as result ≡ line_read (cursor_as c) time }
{
    Cursor {
        lines: next_line(c.lines),
        first: zero_time(c, time),
        last: time,
        given: c.given + ticks_due(c, time),
    }
}

// Lays ticks from a place on, as many as fit, and returns the place behind them.
fn give_ticks(out: &mut [u32], at: usize, ticks: u64) -> usize
    requires { at ≤ length out.old }
    ensures { GivesTicks out.old at ticks result out.new }
{
    let end = at + (ticks as usize).min(out.len() - at);
    out[at..end].fill(0);
    end
}

// The event word of a network's bus-off, under its owner.
fn bus_off_word(t: &Table, n: usize) -> u32
    requires { n < 256 }
    ensures { result ≡ bus_off_word t.now.words n }
{
    let network = t.network(n as u32);
    5 * 268435456 + network.owner * 16777216 + n as u32 * 65536
}

// A step that ends at a line without room, behind the ticks that fitted: so many are given with those of the lines before.
fn no_room(c: Cursor, given: u64, events: usize, bytes: usize) -> Step
    ensures { NoRoomAt c given events bytes result }
{
    Step {
        end: Err(Halt::NoRoom),
        cursor: Cursor { given, ..c },
        events,
        bytes,
    }
}

// Gives what a line at a place gives, behind n events: the ticks, then a bus-off of the network where it tells of one.
fn give(
    t: &Table,
    network: usize,
    at: usize,
    line: Line<'_>,
    c: Cursor,
    out: &mut [u32],
    n: usize,
) -> Step
    requires { (network < 256) × (n ≤ length out.old) }
    ensures { Gives t.now.words network at line.entry (cursor_as c) out.old n result out.new }
{
    let due = ticks_due(c, line.time);
    let events = give_ticks(out, n, due);
    let given = c.given + (events - n) as u64;
    if ((events - n) as u64) < due {
        return no_room(c, given, events, at);
    }
    let cursor = line_read(c, line.time);
    if !line.bus_off {
        return Step {
            end: Ok(()),
            cursor,
            events,
            bytes: line.next,
        };
    }
    if events == out.len() {
        return no_room(c, given, events, at);
    }
    out[events] = bus_off_word(t, network);
    Step {
        end: Ok(()),
        cursor,
        events: events + 1,
        bytes: line.next,
    }
}

// A step that ends at a place with the events and the cursor that the line before left.
fn stopped(end: Result<(), Halt>, cursor: Cursor, events: usize, bytes: usize) -> Step
    ensures { Stops end cursor events bytes result }
{
    Step {
        end,
        cursor,
        events,
        bytes,
    }
}

// Reads the line at a place, behind n events: what refuses it, in the document's order, or what it gives.
fn take_line(
    t: &Table,
    names: &[u8],
    log: &[u8],
    at: usize,
    c: Cursor,
    out: &mut [u32],
    n: usize,
) -> Step
    requires { (at ≤ length log.now) × (n ≤ length out.old) }
    ensures { ReadsTo (read_line t.now.words names.now (length out.old)
        (reading 0 (cursor_as c) out.old n log.now at)) log.now out.old n result out.new }
{
    let Some(line) = read_line(log, at) else {
        return stopped(Err(Halt::Misspelt), c, n, at);
    };
    if goes_back(c, line.time) {
        return stopped(Err(Halt::GoesBack), c, n, at);
    }
    let Some(network) = interfaces::number_of(names, t.networks() as usize, line.name) else {
        return stopped(Err(Halt::Unlisted), c, n, at);
    };
    give(t, network, at, line, c, out, n)
}

// Reads the lines of a log from a cursor on, to its end or to the first that is refused.
fn read_lines(t: &Table, names: &[u8], log: &[u8], from: Cursor, out: &mut [u32]) -> Step
    ensures { ReadsTo (read_lines (length log.now) t.now.words names.now (length out.old)
        (unread (cursor_as from) log.now)) log.now out.old 0 result out.new }
{
    let mut at = 0;
    let mut n = 0;
    let mut c = from;
    // no range goes over the log: where a line ends is known once it is read
    while at < log.len() {
        let step = take_line(t, names, log, at, c, out, n);
        if step.end.is_err() {
            return step;
        }
        at = step.bytes;
        n = step.events;
        c = step.cursor;
    }
    stopped(Ok(()), c, n, at)
}

// Reads a log, or a part of one that ends behind a line, from a cursor on: gives its events at the front of the lent words. A refusal keeps the events
// written before it. Reading can go on behind the bytes read, with the cursor, in another output.
pub fn read_log(words: &[u32], names: &[u8], log: &[u8], from: Cursor, out: &mut [u32]) -> Step
    ensures { ReadsLog words.now names.now log.now from out.old result out.new }
{
    let Ok(_) = tables::check(words) else {
        return stopped(Err(Halt::BadTable), from, 0, 0);
    };
    let t = Table::accepted(words);
    if !interfaces::stand(names, t.networks() as usize) {
        return stopped(Err(Halt::BadNames), from, 0, 0);
    }
    read_lines(&t, names, log, from, out)
}
