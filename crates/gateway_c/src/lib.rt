// What a gateway's C or Rust code links: the calls of `gateway` under C's calling convention, each with the promises that it has there.
// library/herringcart.h says what each call needs of its pointers.
#![tactic(auto)]

ghost use Rattle.std.specs.Prelude.{◌≡◌};
ghost use Rattle.manager.specs.Promises.{ChecksTableIn, CountsWords, MakesFreshIn, ChecksStateIn, TakesEventIn, PlaysIn};
ghost use Rattle.panel.specs.Promises.{ShowsIn};
ghost use Rattle.hold.specs.Promises.{HoldsForC};
ghost use Rattle.listing.specs.Promises.{ListsIn, ReadsIn};
ghost use Rattle.buslog.specs.Promises.{ReadsLogIn};
ghost use Rattle.gateway.specs.Version.{version};

// The version of the archive, its first number times 65,536 plus its second: a caller holds it against its header's.
#[unsafe(no_mangle)]
pub extern "C" fn herringcart_version() -> u32
    ensures { result ≡ version }
{
    gateway::herringcart_version()
}

// Checks a table: gives its reason, 0 if it is accepted, and writes the place and B.
#[unsafe(no_mangle)]
pub extern "C" fn herringcart_check_table(table: &[u32], place: &mut usize, bound: &mut u32) -> u32
    ensures { ChecksTableIn table.now result place.new bound.new }
{
    gateway::herringcart_check_table(table, place, bound)
}

// How many words a state of this table has, by its header alone.
#[unsafe(no_mangle)]
pub extern "C" fn herringcart_state_words(table: &[u32]) -> usize
    ensures { CountsWords table.now result }
{
    gateway::herringcart_state_words(table)
}

// Makes a fresh state in the lent words, 0; or refuses, 1 or 2, and writes nothing.
#[unsafe(no_mangle)]
pub extern "C" fn herringcart_make_fresh(table: &[u32], state: &mut [u32]) -> u32
    ensures { MakesFreshIn table.now state.old result state.new }
{
    gateway::herringcart_make_fresh(table, state)
}

// Checks a state: 0 if it fits, 1 if the table has a reason, 2 if it does not fit.
#[unsafe(no_mangle)]
pub extern "C" fn herringcart_check_state(table: &[u32], state: &[u32]) -> u32
    ensures { ChecksStateIn table.now state.now result }
{
    gateway::herringcart_check_state(table, state)
}

// Takes one event, with the outcomes of its outside calls: gives the answer, writes state and trace in place, the count of trace words
// written and that of expression words visited.
#[unsafe(no_mangle)]
pub extern "C" fn herringcart_take_event(
    table: &[u32],
    state: &mut [u32],
    trace: &mut [u32],
    outcomes: &[u32],
    event: u32,
    count: &mut usize,
    visits: &mut u32,
) -> u32
    ensures { TakesEventIn table.now state.old trace.old outcomes.now event result
        count.new visits.new state.new trace.new }
{
    gateway::herringcart_take_event(table, state, trace, outcomes, event, count, visits)
}

// Plays event words one after the other: gives the number of what ended it, 0 after the last event, writes state and trace in place, how
// many events were taken, how many trace words written and how many expression words visited, this in 64 bits.
#[unsafe(no_mangle)]
pub extern "C" fn herringcart_play(
    table: &[u32],
    state: &mut [u32],
    trace: &mut [u32],
    events: &[u32],
    taken: &mut usize,
    count: &mut usize,
    visits: &mut u64,
) -> u32
    ensures { PlaysIn table.now state.old trace.old events.now result
        taken.new count.new visits.new state.new trace.new }
{
    gateway::herringcart_play(table, state, trace, events, taken, count, visits)
}

// Shows an operator its panel: gives the answer, lays the lines at the front of the lent bytes and writes how many bytes they are, 0 in a
// refusal.
#[unsafe(no_mangle)]
pub extern "C" fn herringcart_panel(
    operator: u32,
    table: &[u32],
    state: &[u32],
    words: &[u32],
    lines: &mut [u8],
    bytes: &mut usize,
) -> u32
    ensures { ShowsIn operator table.now state.now words.now lines.old result
        bytes.new lines.new }
{
    gateway::herringcart_panel(operator, table, state, words, lines, bytes)
}

// Holds a supplier's trace and state after one event against our step, with the outcomes given: gives the verdict, writes the number beside it,
// how many words the part has, and our step's count and visits; writes state and trace in place, as an event call does.
#[unsafe(no_mangle)]
pub extern "C" fn herringcart_hold(
    table: &[u32],
    state: &mut [u32],
    trace: &mut [u32],
    outcomes: &[u32],
    event: u32,
    theirs: &[u32],
    their_state: &[u32],
    number: &mut usize,
    rest: &mut usize,
    count: &mut usize,
    visits: &mut u32,
) -> u32
    ensures { HoldsForC table.now state.old trace.old outcomes.now event
        theirs.now their_state.now result number.new rest.new count.new
        visits.new state.new trace.new }
{
    gateway::herringcart_hold(
        table,
        state,
        trace,
        outcomes,
        event,
        theirs,
        their_state,
        number,
        rest,
        count,
        visits,
    )
}

// Lists a table as text: gives the answer, lays the lines at the front of the lent bytes and writes how many bytes they are, 0 in a refusal.
#[unsafe(no_mangle)]
pub extern "C" fn herringcart_list(table: &[u32], lines: &mut [u8], bytes: &mut usize) -> u32
    ensures { ListsIn table.now lines.old result bytes.new lines.new }
{
    gateway::herringcart_list(table, lines, bytes)
}

// Reads a listing back: gives the answer, lays the table's words at the front of those lent, and writes how many there are, 0 in a refusal, and the
// number of the first bad line, 0 where none is bad.
#[unsafe(no_mangle)]
pub extern "C" fn herringcart_read(
    text: &[u8],
    words: &mut [u32],
    count: &mut usize,
    line: &mut usize,
) -> u32
    ensures { ReadsIn text.now words.old result count.new line.new words.new }
{
    gateway::herringcart_read(text, words, count, line)
}

// Reads a bus log, or a part of one, from the cursor in the four lent numbers on: gives the answer, lays the events at the front of the lent words, moves
// the cursor, and writes the number of the line that is refused, 0 where none is, how many events there are and how many bytes are read.
#[unsafe(no_mangle)]
pub extern "C" fn herringcart_read_log(
    table: &[u32],
    interfaces: &[u8],
    log: &[u8],
    lines: &mut u64,
    first: &mut u64,
    last: &mut u64,
    given: &mut u64,
    out: &mut [u32],
    line: &mut u64,
    events: &mut usize,
    bytes: &mut usize,
) -> u32
    ensures { ReadsLogIn table.now interfaces.now log.now
        (record { lines = lines.old; first = first.old; last = last.old; given = given.old })
        out.old result line.new events.new bytes.new
        (record { lines = lines.new; first = first.new; last = last.new; given = given.new })
        out.new }
{
    gateway::herringcart_read_log(
        table, interfaces, log, lines, first, last, given, out, line, events, bytes,
    )
}
