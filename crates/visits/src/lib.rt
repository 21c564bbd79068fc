// What events cost: what `cost TABLE EVENTS` prints, laid into lent bytes: a line for each event with its trace words and its visits,
// and at the end the largest counts beside what they are never above. Files and their blocks are the program's.
#![tactic(auto)]

ghost use Rattle.std.specs.Prelude.{◌≡◌, ◌+◌, ◌≤◌, ◌<◌, length};
ghost use Rattle.session.specs.Promises.{Ready, offered};
ghost use Rattle.visits.specs.Printed.{labelled, cost_line, which, largest_line, nothing as nothing_yet, larger as larger_of, counted as counted_of};
ghost use Rattle.visits.specs.Promises.{most_number, most_line, most_behind, PutFew, TookOne, Countable, TookEvents, LaysMost};

use text::input::{read_word, word_count};
use text::output::{put_decimal, put_label};
use words::table::Table;

// The most bytes that an event's line has: four labels, each with a number of at most 20 digits and the byte behind it.
pub const MOST_LINE: usize = 110;

// The most bytes that the two lines of the end have.
pub const MOST_END: usize = 173;

// Lays a label, a number and the byte behind it.
fn lay_labelled(out: &mut [u8], at: usize, label: &[u8], n: u64, end: u8) -> usize
    requires { at + (length label.now + most_number) ≤ length out.old }
    ensures { PutFew (length label.now + most_number) (labelled label.now n end) out.old at result out.new }
{
    let next = put_label(out, at, label);
    put_decimal(out, next, n, end)
}

// Lays an event's line: its number, its answer, its trace words and its visits.
fn lay_event(out: &mut [u8], at: usize, number: u64, answer: u32, trace: u64, visits: u64) -> usize
    requires { at + most_line ≤ length out.old }
    ensures { PutFew most_line (cost_line number answer trace visits) out.old at result out.new }
{
    let second = lay_labelled(out, at, b"event ", number, b' ');
    let third = lay_labelled(out, second, b"answer ", answer as u64, b' ');
    let fourth = lay_labelled(out, third, b"trace ", trace, b' ');
    lay_labelled(out, fourth, b"visits ", visits, b'\n')
}

// A largest count, and the number of the first event that has it.
#[derive(Clone, Copy)]
pub struct Largest {
    pub count: u64,
    pub event: u64,
}

// How many events there were, and the largest counts of trace words and of visits among them.
#[derive(Clone, Copy)]
pub struct Most {
    pub events: u64,
    pub trace: Largest,
    pub visits: Largest,
}

// Before any event.
pub fn nothing() -> Most
    ensures { result ≡ nothing_yet }
{
    let none = Largest { count: 0, event: 0 };
    Most {
        events: 0,
        trace: none,
        visits: none,
    }
}

// An event with this count: it is named only where it has more than every event before it.
fn larger(l: Largest, event: u64, count: u64) -> Largest
    ensures { result ≡ larger_of l event count }
{
    if l.count < count {
        Largest { count, event }
    } else {
        l
    }
}

// One event more.
fn counted(most: Most, trace: u64, visits: u64) -> Most
    requires { most.events + 1 < 18446744073709551616 }
    ensures { result ≡ counted_of most trace visits }
{
    let number = most.events;
    let traced = most.trace;
    let visited = most.visits;
    let longest = larger(traced, number, trace);
    let dearest = larger(visited, number, visits);
    Most {
        events: number + 1,
        trace: longest,
        visits: dearest,
    }
}

// What one event cost, and the place behind its line.
#[derive(Clone, Copy)]
struct Cost {
    trace: u64,
    visits: u64,
    next: usize,
}

// Takes one event, all calls good, and lays its line.
fn take_one(
    t: &Table,
    e: u32,
    number: u64,
    s: &mut [u32],
    trace: &mut [u32],
    out: &mut [u8],
    at: usize,
) -> Cost
    requires { Ready t.now.words s.old trace.old × (at + most_line ≤ length out.old) }
    ensures { TookOne t.now.words e number s.old trace.old out.old at result
        s.new trace.new out.new }
{
    let answer = session::take(t, e, s, trace);
    let words = events::count(answer) as u64;
    let visits = events::visits(answer) as u64;
    let next = lay_event(out, at, number, events::number(answer), words, visits);
    Cost {
        trace: words,
        visits,
        next,
    }
}

// How many events were taken, how many bytes their lines are, and the largest counts with them.
#[derive(Clone, Copy)]
pub struct Taken {
    pub events: usize,
    pub bytes: usize,
    pub most: Most,
}

// Takes events from the `from`-th word of `bytes` on, as `session::take_events` does, each with its line laid behind the last one's, as
// long as the most that a line has is free. `most` is what the events before them gave.
pub fn take_events(
    t: &[u32],
    s: &mut [u32],
    trace: &mut [u32],
    bytes: &[u8],
    from: usize,
    most: Most,
    out: &mut [u8],
) -> Taken
    requires { Countable most bytes.now from }
    ensures { TookEvents t.now s.old trace.old
        (offered t.now s.old (length trace.old) bytes.now from)
        most out.old result s.new trace.new out.new }
{
    if !session::ready(t, s, trace.len()) {
        return Taken {
            events: 0,
            bytes: 0,
            most,
        };
    }
    let table = Table::accepted(t);
    let total = word_count(bytes).saturating_sub(from);
    let mut so_far = most;
    let mut at = 0;
    for i in 0..total {
        if out.len().saturating_sub(at) < MOST_LINE {
            return Taken {
                events: i,
                bytes: at,
                most: so_far,
            };
        }
        let e = read_word(bytes, from + i);
        let cost = take_one(&table, e, so_far.events, s, trace, out, at);
        so_far = counted(so_far, cost.trace, cost.visits);
        at = cost.next;
    }
    Taken {
        events: total,
        bytes: at,
        most: so_far,
    }
}

// Lays which event has the largest count; `none` where there was no event.
fn lay_which(out: &mut [u8], at: usize, events: u64, event: u64) -> usize
    requires { at + (6 + most_number) ≤ length out.old }
    ensures { PutFew (6 + most_number) (which events event) out.old at result out.new }
{
    if events == 0 {
        return put_label(out, at, b"event none ");
    }
    lay_labelled(out, at, b"event ", event, b' ')
}

// Lays a line of the end: a largest count, its event, and what the count is never above.
fn lay_largest(
    out: &mut [u8],
    at: usize,
    label: &[u8],
    events: u64,
    l: Largest,
    bound: u64,
) -> usize
    requires { at + (length label.now + most_behind) ≤ length out.old }
    ensures { PutFew (length label.now + most_behind) (largest_line label.now events l bound)
        out.old at result out.new }
{
    let second = lay_labelled(out, at, label, l.count, b' ');
    let third = lay_which(out, second, events, l.event);
    lay_labelled(out, third, b"bound ", bound, b'\n')
}

// Lays the two lines of the end at the front, or nothing where fewer than MOST_END bytes are lent or the table has a reason, and returns
// how many bytes they are.
pub fn lay_most(out: &mut [u8], t: &[u32], most: Most) -> usize
    ensures { LaysMost t.now most out.old result out.new }
{
    if out.len() < MOST_END {
        return 0;
    }
    let Ok(opening) = session::open(t) else {
        return 0;
    };
    let b = opening.trace as u64;
    let rules = Table::accepted(t).rules();
    let most_visits = 127 * (rules as u64 + b);
    let traced = most.trace;
    let visited = most.visits;
    let second = lay_largest(out, 0, b"most trace ", most.events, traced, b);
    lay_largest(
        out,
        second,
        b"most visits ",
        most.events,
        visited,
        most_visits,
    )
}
