// A session: what the program prints for a table and for events, laid into lent bytes. Files and their blocks are the program's.
#![tactic(auto)]

ghost use Rattle.std.specs.Prelude.{◌≡◌, ◌+◌, ◌*◌, ◌≤◌, ◌<◌, length, take, eqb};
ghost use Rattle.rulebook.specs.Reasons.{verdict};
ghost use Rattle.rulebook.specs.Step.{refused_call};
ghost use Rattle.text.specs.Puts.{PutAt};
ghost use Rattle.events.specs.Answers.{Reports};
ghost use Rattle.session.specs.Printed.{taken, lines, reason_lines, most};
ghost use Rattle.session.specs.Promises.{Opens, PutLines, Ready, TookOne, offered, TookEvents};

use events::Answer;
use states::admit;
use text::input::{read_word, word_count};
use text::output::{put_decimal_line, put_words};
use words::table::Table;

// The most bytes that one event prints: its answer, 360 state words and 4,096 trace words.
pub const MOST: usize = 40106;

// What a session with a table asks for: state words and trace words.
#[derive(Clone, Copy, Debug, PartialEq, Eq)]
pub struct Opening {
    pub state: usize,
    pub trace: usize,
}

// A table with a reason, as document 01's program prints it.
#[derive(Clone, Copy, Debug, PartialEq, Eq)]
pub struct Refused {
    pub reason: u32,
    pub place: u32,
}

// Checks a table, to open a session with it.
pub fn open(t: &[u32]) -> Result<Opening, Refused>
    ensures { Opens t.now result }
{
    let checked = tables::check(t);
    let Ok(b) = checked else {
        let fault = tables::numbers(checked);
        return Err(Refused {
            reason: fault.reason,
            place: fault.place as u32,
        });
    };
    Ok(Opening {
        state: manager::state_words(t),
        trace: b as usize,
    })
}

// Lays the two lines of a reason at the front, or nothing where fewer than 22 bytes are lent, and returns how many bytes they are.
pub fn lay_reason(out: &mut [u8], reason: u32, place: u32) -> usize
    ensures { PutLines 22 (reason_lines (verdict reason place)) out.old result out.new }
{
    if out.len() < 22 {
        return 0;
    }
    let next = put_decimal_line(out, 0, reason);
    put_decimal_line(out, next, place)
}

// Lays an answer, the state and the first trace words at a place, and returns the place after them.
fn lay_lines(
    out: &mut [u8],
    at: usize,
    answer: u32,
    s: &[u32],
    trace: &[u32],
    count: usize,
) -> usize
    requires { (answer < 10) × (count ≤ length trace.now) × (at + (2 + 9 * (length s.now + count)) ≤ length out.old) }
    ensures { PutAt (lines answer s.now (take count trace.now)) out.old at result out.new }
{
    let first = put_decimal_line(out, at, answer);
    let state = put_words(out, first, s, 0, s.len());
    let next = state.next;
    let words = put_words(out, next, trace, 0, count);
    words.next
}

// Takes one event, all calls good.
pub fn take(t: &Table, e: u32, s: &mut [u32], trace: &mut [u32]) -> Answer
    requires { Ready t.now.words s.old trace.old }
    ensures { Reports (taken t.now.words s.old e) trace.old result s.new trace.new }
{
    events::handle(t, e, s, trace, &[])
}

// Takes one event and lays its lines.
fn take_one(t: &Table, e: u32, s: &mut [u32], trace: &mut [u32], out: &mut [u8], at: usize) -> usize
    requires { Ready t.now.words s.old trace.old × (at + most ≤ length out.old) }
    ensures { TookOne t.now.words e s.old trace.old out.old at result s.new trace.new out.new }
{
    let answer = take(t, e, s, trace);
    let number = events::number(answer);
    let count = events::count(answer);
    lay_lines(out, at, number, s, trace, count)
}

// Whether table, state and room are refused by none of answers 1 to 3.
pub fn ready(t: &[u32], s: &[u32], room: usize) -> bool
    ensures { result ≡ eqb (refused_call t.now s.now room) 0 }
{
    match admit(t, s) {
        Ok(b) => b as usize <= room,
        Err(_) => false,
    }
}

// How many events were taken, and how many bytes their lines are.
#[derive(Clone, Copy)]
pub struct Taken {
    pub events: usize,
    pub bytes: usize,
}

// Takes events from the `from`-th word of `bytes` on, each with its lines laid behind the last one's, as long as the most that an
// event can print is free. Where answers 1 to 3 would refuse table, state or trace it takes none. Table and state are checked once
// a call, not once an event.
pub fn take_events(
    t: &[u32],
    s: &mut [u32],
    trace: &mut [u32],
    bytes: &[u8],
    from: usize,
    out: &mut [u8],
) -> Taken
    ensures { TookEvents t.now s.old trace.old (offered t.now s.old (length trace.old) bytes.now from) out.old result s.new trace.new out.new }
{
    if !ready(t, s, trace.len()) {
        return Taken {
            events: 0,
            bytes: 0,
        };
    }
    let table = Table::accepted(t);
    let total = word_count(bytes).saturating_sub(from);
    let mut at = 0;
    for i in 0..total {
        if out.len().saturating_sub(at) < MOST {
            return Taken {
                events: i,
                bytes: at,
            };
        }
        let e = read_word(bytes, from + i);
        at = take_one(&table, e, s, trace, out, at);
    }
    Taken {
        events: total,
        bytes: at,
    }
}
