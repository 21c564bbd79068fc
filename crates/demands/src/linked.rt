// The same entries as a gateway links them, in numbers.
ghost use Rattle.std.specs.Prelude.{◌≡◌, length};
ghost use Rattle.hold.specs.Promises.{part_of};
ghost use Rattle.demands.specs.Conclusions.{OfTable, OfFresh, OfState, OfEvent, OfPlay, OfPanel, OfHold, OfListing, OfReading, OfLog};

pub fn check_table(t: &[u32], place: &mut usize, bound: &mut u32) -> u32
    ensures { OfTable t.now result place.new bound.new }
{
    gateway::herringcart_check_table(t, place, bound)
}

pub fn make_fresh(t: &[u32], s: &mut [u32]) -> u32
    ensures { OfFresh t.now s.old result s.new }
{
    gateway::herringcart_make_fresh(t, s)
}

pub fn check_state(t: &[u32], s: &[u32]) -> u32
    ensures { OfState t.now s.now result }
{
    gateway::herringcart_check_state(t, s)
}

pub fn take_event(
    t: &[u32],
    s: &mut [u32],
    trace: &mut [u32],
    outcomes: &[u32],
    e: u32,
    count: &mut usize,
    visits: &mut u32,
) -> u32
    ensures { OfEvent t.now s.old trace.old outcomes.now e result count.new
        visits.new s.new trace.new }
{
    gateway::herringcart_take_event(t, s, trace, outcomes, e, count, visits)
}

pub fn play(
    t: &[u32],
    s: &mut [u32],
    trace: &mut [u32],
    es: &[u32],
    taken: &mut usize,
    count: &mut usize,
    visits: &mut u64,
) -> u32
    ensures { OfPlay t.now s.old trace.old es.now result taken.new count.new
        visits.new s.new trace.new }
{
    gateway::herringcart_play(t, s, trace, es, taken, count, visits)
}

pub fn show(o: u32, t: &[u32], s: &[u32], ws: &[u32], out: &mut [u8], bytes: &mut usize) -> u32
    ensures { OfPanel o t.now s.now ws.now out.old result bytes.new out.new }
{
    gateway::herringcart_panel(o, t, s, ws, out, bytes)
}

pub fn hold(
    t: &[u32],
    s: &mut [u32],
    trace: &mut [u32],
    outcomes: &[u32],
    e: u32,
    theirs: &[u32],
    their_state: &[u32],
    number: &mut usize,
    rest: &mut usize,
    count: &mut usize,
    visits: &mut u32,
) -> u32
    ensures of_hold { OfHold t.now s.old trace.old outcomes.now e theirs.now
        their_state.now result number.new count.new visits.new s.new trace.new }
    ensures rest_after { rest.new ≡ length (part_of result number.new count.new trace.new theirs.now) }
{
    gateway::herringcart_hold(
        t,
        s,
        trace,
        outcomes,
        e,
        theirs,
        their_state,
        number,
        rest,
        count,
        visits,
    )
}

pub fn list(t: &[u32], out: &mut [u8], bytes: &mut usize) -> u32
    ensures { OfListing t.now out.old result bytes.new out.new }
{
    gateway::herringcart_list(t, out, bytes)
}

pub fn read(text: &[u8], words: &mut [u32], count: &mut usize, line: &mut usize) -> u32
    ensures { OfReading text.now words.old result count.new line.new words.new }
{
    gateway::herringcart_read(text, words, count, line)
}

pub fn read_log(
    t: &[u32],
    names: &[u8],
    log: &[u8],
    lines: &mut u64,
    first: &mut u64,
    last: &mut u64,
    given: &mut u64,
    out: &mut [u32],
    line: &mut u64,
    events: &mut usize,
    bytes: &mut usize,
) -> u32
    ensures { OfLog t.now names.now log.now
        (record { lines = lines.old; first = first.old; last = last.old; given = given.old })
        out.old result line.new events.new bytes.new
        (record { lines = lines.new; first = first.new; last = last.new; given = given.new }) out.new }
{
    gateway::herringcart_read_log(
        t, names, log, lines, first, last, given, out, line, events, bytes,
    )
}
