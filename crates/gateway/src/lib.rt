// `manager`'s entries and those beside it, their answers in document 01's numbers, for code that calls them by number. The crate `gateway_c` exports each of
// them to C under the same name.
#![tactic(auto)]

ghost use Rattle.std.specs.Prelude.{◌≡◌};
ghost use Rattle.states.specs.Made.{number_of as made_number};
ghost use Rattle.manager.specs.Answers.{state_number};
ghost use Rattle.manager.specs.Promises.{ChecksTableIn, CountsWords, MakesFreshIn, ChecksStateIn, TakesEventIn, PlaysIn};
ghost use Rattle.panel.specs.Promises.{ShowsIn};
ghost use Rattle.hold.specs.Promises.{HoldsForC};
ghost use Rattle.listing.specs.Promises.{ListsIn, ReadsIn};
ghost use Rattle.buslog.specs.Promises.{ReadsLogIn};
ghost use Rattle.gateway.specs.Version.{version};

use buslog::reading as logs;
use buslog::reading::Cursor;
use listing::{reading, writing};
use states::{NotAdmitted, NotMade};

fn made_number(made: Result<(), NotMade>) -> u32
    ensures { result ≡ made_number made }
{
    match made {
        Ok(()) => 0,
        Err(NotMade::BadTable) => 1,
        Err(NotMade::WrongLength) => 2,
    }
}

fn fit_number(fit: Result<(), NotAdmitted>) -> u32
    ensures { result ≡ state_number fit }
{
    match fit {
        Ok(()) => 0,
        Err(NotAdmitted::BadTable) => 1,
        Err(NotAdmitted::UnfitState) => 2,
    }
}

// The version of the archive, its first number times 65,536 plus its second: a caller holds it against its header's.
pub fn herringcart_version() -> u32
    ensures { result ≡ version }
{
    5 * 65536 + 6
}

// Checks a table: gives its reason, 0 if it is accepted, and writes the place and B.
pub fn herringcart_check_table(table: &[u32], place: &mut usize, bound: &mut u32) -> u32
    ensures { ChecksTableIn table.now result place.new bound.new }
{
    let said = tables::numbers(manager::check_table(table));
    *place = said.place;
    *bound = said.bound;
    said.reason
}

// How many words a state of this table has, by its header alone.
pub fn herringcart_state_words(table: &[u32]) -> usize
    ensures { CountsWords table.now result }
{
    manager::state_words(table)
}

// Makes a fresh state in the lent words, 0; or refuses, 1 or 2, and writes nothing.
pub fn herringcart_make_fresh(table: &[u32], state: &mut [u32]) -> u32
    ensures { MakesFreshIn table.now state.old result state.new }
{
    made_number(manager::make_fresh(table, state))
}

// Checks a state: 0 if it fits, 1 if the table has a reason, 2 if it does not fit.
pub fn herringcart_check_state(table: &[u32], state: &[u32]) -> u32
    ensures { ChecksStateIn table.now state.now result }
{
    fit_number(manager::check_state(table, state))
}

// Takes one event, with the outcomes of its outside calls: gives the answer, writes state and trace in place, the count of trace words
// written and that of expression words visited.
pub fn herringcart_take_event(
    table: &[u32],
    state: &mut [u32],
    trace: &mut [u32],
    outcomes: &[u32],
    event: u32,
    count: &mut usize,
    visits: &mut u32,
) -> u32
    ensures { TakesEventIn table.now state.old trace.old outcomes.now event result
        count.new visits.new state.new trace.new }
{
    let answer = manager::take_event(table, state, trace, outcomes, event);
    *count = events::count(answer);
    *visits = events::visits(answer);
    events::number(answer)
}

// Plays event words one after the other: gives the number of what ended it, 0 after the last event, writes state and trace in place, how
// many events were taken, how many trace words written and how many expression words visited, this in 64 bits.
pub fn herringcart_play(
    table: &[u32],
    state: &mut [u32],
    trace: &mut [u32],
    events: &[u32],
    taken: &mut usize,
    count: &mut usize,
    visits: &mut u64,
) -> u32
    ensures { PlaysIn table.now state.old trace.old events.now result
        taken.new count.new visits.new state.new trace.new }
{
    let played = manager::play(table, state, trace, events);
    *taken = played.taken;
    *count = played.count;
    *visits = played.visits;
    manager::end_number(played.end)
}

// Shows an operator its panel: gives the answer, lays the lines at the front of the lent bytes and writes how many bytes they are, 0 in a
// refusal.
pub fn herringcart_panel(
    operator: u32,
    table: &[u32],
    state: &[u32],
    words: &[u32],
    lines: &mut [u8],
    bytes: &mut usize,
) -> u32
    ensures { ShowsIn operator table.now state.now words.now lines.old result
        bytes.new lines.new }
{
    let shown = panel::show(operator, table, state, words, lines);
    *bytes = panel::bytes(shown);
    panel::number(shown)
}

// Holds a supplier's trace and state after one event against our step, with the outcomes given: gives the verdict, writes the number beside it,
// how many words the part has, and our step's count and visits; writes state and trace in place, as an event call does.
pub fn herringcart_hold(
    table: &[u32],
    state: &mut [u32],
    trace: &mut [u32],
    outcomes: &[u32],
    event: u32,
    theirs: &[u32],
    their_state: &[u32],
    number: &mut usize,
    rest: &mut usize,
    count: &mut usize,
    visits: &mut u32,
) -> u32
    ensures { HoldsForC table.now state.old trace.old outcomes.now event
        theirs.now their_state.now result number.new rest.new count.new
        visits.new state.new trace.new }
{
    let held = hold::hold(table, state, trace, outcomes, event, theirs, their_state);
    *number = hold::given(held.verdict);
    *rest = hold::part(held, trace, theirs).len();
    *count = held.count;
    *visits = held.visits;
    hold::number(held.verdict)
}

// Lists a table as text: gives the answer, lays the lines at the front of the lent bytes and writes how many bytes they are, 0 in a refusal.
pub fn herringcart_list(table: &[u32], lines: &mut [u8], bytes: &mut usize) -> u32
    ensures { ListsIn table.now lines.old result bytes.new lines.new }
{
    let listed = writing::list(table, lines);
    *bytes = writing::bytes(listed);
    writing::number(listed)
}

// Reads a listing back: gives the answer, lays the table's words at the front of those lent, and writes how many there are, 0 in a refusal, and the
// number of the first bad line, 0 where none is bad.
pub fn herringcart_read(text: &[u8], words: &mut [u32], count: &mut usize, line: &mut usize) -> u32
    ensures { ReadsIn text.now words.old result count.new line.new words.new }
{
    let read = reading::read(text, words);
    *count = reading::words(read);
    *line = reading::bad_line(read);
    reading::number(read)
}

// Reads a bus log, or a part of one, from the cursor in the four lent numbers on: gives the answer, lays the events at the front of the lent words, moves
// the cursor, and writes the number of the line that is refused, 0 where none is, how many events there are and how many bytes are read.
pub fn herringcart_read_log(
    table: &[u32],
    interfaces: &[u8],
    log: &[u8],
    lines: &mut u64,
    first: &mut u64,
    last: &mut u64,
    given: &mut u64,
    out: &mut [u32],
    line: &mut u64,
    events: &mut usize,
    bytes: &mut usize,
) -> u32
    ensures { ReadsLogIn table.now interfaces.now log.now
        (record { lines = lines.old; first = first.old; last = last.old; given = given.old })
        out.old result line.new events.new bytes.new
        (record { lines = lines.new; first = first.new; last = last.new; given = given.new })
        out.new }
{
    let from = Cursor {
        lines: *lines,
        first: *first,
        last: *last,
        given: *given,
    };
    let step = logs::read_log(table, interfaces, log, from, out);
    let cursor = step.cursor;
    *lines = cursor.lines;
    *first = cursor.first;
    *last = cursor.last;
    *given = cursor.given;
    *line = logs::refused_line(step);
    *events = step.events;
    *bytes = step.bytes;
    logs::number(step.end)
}
