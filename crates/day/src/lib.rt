// A day: what `play TABLE EVENTS` prints, laid into lent bytes: a line for each trace word as the day goes, a line for each word of the
// state after it, then how many events were taken and what answered the next. Files and their blocks are the program's.
#![tactic(auto)]

ghost use Rattle.std.specs.Prelude.{◌+◌, ◌*◌, ◌≤◌, ◌<◌, length, take, ◌++◌};
ghost use Rattle.rulebook.specs.State.{thing, state_length};
ghost use Rattle.text.specs.Lines.{decimal};
ghost use Rattle.text.specs.Puts.{PutAt};
ghost use Rattle.words.specs.State.{thing_of};
ghost use Rattle.day.specs.Printed.{trace_line, trace_lines, number as number_of, named, thing_line, space};
ghost use Rattle.day.specs.Promises.{PlaysPart, LaysState, LaysEnd};

use text::output::{put_decimal, put_hex_line, put_label};
use words::state::Thing;
use words::table::Table;

// The most words that the state of an accepted table has: 64 ports, 256 rules, 8 networks and 32 sources.
const MOST_WORDS: usize = 360;

// The most bytes that a state prints: for each word `network `, three digits and a space, eight hex digits and a newline.
pub const MOST_STATE: usize = 7560;

// The most bytes that the end prints: `taken `, 20 digits and a newline, `visits `, 20 digits and a newline, `answer `, ten digits and a
// newline.
pub const MOST_END: usize = 73;

// Lays the line of a trace word.
fn lay_trace_word(out: &mut [u8], at: usize, w: u32) -> usize
    requires { at + 15 ≤ length out.old }
    ensures { PutAt (trace_line w) out.old at result out.new }
{
    let next = put_label(out, at, b"trace ");
    put_hex_line(out, next, w)
}

// Lays the lines of the first `count` trace words at the front, and returns how many bytes they are.
fn lay_trace(out: &mut [u8], trace: &[u32], count: usize) -> usize
    requires { (count ≤ length trace.now) × (15 * count ≤ length out.old) }
    ensures { PutAt (trace_lines (take count trace.now)) out.old 0 result out.new }
{
    let mut at = 0;
    for i in 0..count {
        at = lay_trace_word(out, at, trace[i]);
    }
    at
}

// How many events were taken, how many expression words they visited, in 64 bits, how many bytes their trace lines are, and the number of
// what ended the part.
#[derive(Clone, Copy)]
pub struct Part {
    pub taken: usize,
    pub visits: u64,
    pub bytes: usize,
    pub number: u32,
}

// Plays events in as many of the lent trace words as have lines that fit `out`, 15 bytes each, and lays a line for each word written
// at the front of `out`. A part that ends with number 3, trace full, is resumed at the event behind those it took.
pub fn play_part(
    t: &[u32],
    s: &mut [u32],
    trace: &mut [u32],
    events: &[u32],
    out: &mut [u8],
) -> Part
    ensures { PlaysPart t.now s.old trace.old events.now out.old result
        s.new trace.new out.new }
{
    let room = trace.len().min(out.len() / 15);
    let played = manager::play(t, s, &mut trace[..room], events);
    let taken = played.taken;
    let visits = played.visits;
    let number = manager::end_number(played.end);
    let bytes = lay_trace(out, trace, played.count);
    Part {
        taken,
        visits,
        bytes,
        number,
    }
}

// Lays a label, a number and a space.
fn lay_numbered(out: &mut [u8], at: usize, label: &[u8], n: u32) -> usize
    requires { (n < 1000) × (at + (length label.now + 4) ≤ length out.old) }
    ensures { PutAt (label.now ++ decimal n ++ space) out.old at result out.new }
{
    let next = put_label(out, at, label);
    put_decimal(out, next, n as u64, b' ')
}

// Lays what a thing is called: what it is, and its number within its section.
fn lay_name(out: &mut [u8], at: usize, thing: Thing) -> usize
    requires { (number_of (thing_of thing) < 1000) × (at + 12 ≤ length out.old) }
    ensures { PutAt (named (thing_of thing)) out.old at result out.new }
{
    match thing {
        Thing::Port(p) => lay_numbered(out, at, b"port ", p),
        Thing::Rule(r) => lay_numbered(out, at, b"rule ", r),
        Thing::Network(n) => lay_numbered(out, at, b"network ", n),
        Thing::Source(k) => lay_numbered(out, at, b"source ", k),
    }
}

// Lays the line of the i-th word of a state, which is w.
fn lay_state_word(t: &Table, i: usize, w: u32, out: &mut [u8], at: usize) -> usize
    requires { (i < state_length t.now.words) × (i < 1000) × (at + 21 ≤ length out.old) }
    ensures { PutAt (thing_line (thing t.now.words i) w) out.old at result out.new }
{
    let next = lay_name(out, at, t.thing(i));
    put_hex_line(out, next, w)
}

// Lays a line for each word of the state at the front of `out`, or nothing where fewer than MOST_STATE bytes are lent, or the state has
// not the table's length, or more words than any accepted table's; and returns how many bytes they are.
pub fn lay_state(t: &[u32], s: &[u32], out: &mut [u8]) -> usize
    ensures { LaysState t.now s.now out.old result out.new }
{
    let table = Table::read(t);
    let words = table.state_length();
    if out.len() < MOST_STATE {
        return 0;
    }
    if s.len() != words {
        return 0;
    }
    if MOST_WORDS < words {
        return 0;
    }
    let mut at = 0;
    for i in 0..words {
        at = lay_state_word(&table, i, s[i], out, at);
    }
    at
}

// Lays `taken N`, `visits V` and `answer K` at the front, or nothing where fewer than MOST_END bytes are lent, and returns how many bytes
// they are.
pub fn lay_end(out: &mut [u8], taken: u64, visits: u64, number: u32) -> usize
    ensures { LaysEnd taken visits number out.old result out.new }
{
    if out.len() < MOST_END {
        return 0;
    }
    let count = put_label(out, 0, b"taken ");
    let second = put_decimal(out, count, taken, b'\n');
    let sum = put_label(out, second, b"visits ");
    let third = put_decimal(out, sum, visits, b'\n');
    let answer = put_label(out, third, b"answer ");
    put_decimal(out, answer, number as u64, b'\n')
}
