// The entries of `manager`, and what stands beside and above it: the panel, a supplier's recording held against ours, a table listed and read back, a bus log read.
ghost use Rattle.tables.specs.Finding.{finding};
ghost use Rattle.states.specs.Made.{number_of as made_number};
ghost use Rattle.events.specs.Answers.{number_of, count_of, visits_of};
ghost use Rattle.manager.specs.Answers.{state_number, end_number};
ghost use Rattle.demands.specs.Conclusions.{OfTable, OfFresh, OfState, OfEvent, OfPlay, OfPanel, OfHold, OfListing, OfReading, OfLog};
ghost use Rattle.panel.specs.Promises.{number_of as panel_number, bytes_of};
ghost use Rattle.hold.specs.Promises.{number_of as verdict_number, given_by, HandsBack};
ghost use Rattle.buslog.specs.Promises.{cursor_as, end_number as log_number, line_of};
ghost use Rattle.listing.specs.Promises.{listed_number, bytes_of as bytes_listed, read_number, words_of, line_in};

use buslog::reading::{Cursor, Step};
use events::Answer;
use hold::Held;
use listing::reading::Unread;
use listing::writing::NotListed;
use manager::Played;
use panel::NotShown;
use states::{NotAdmitted, NotMade};
use tables::Fault;

pub fn check_table(t: &[u32]) -> Result<u32, Fault>
    ensures { OfTable t.now (finding result).reason (finding result).place (finding result).bound }
{
    manager::check_table(t)
}

pub fn make_fresh(t: &[u32], s: &mut [u32]) -> Result<(), NotMade>
    ensures { OfFresh t.now s.old (made_number result) s.new }
{
    manager::make_fresh(t, s)
}

pub fn check_state(t: &[u32], s: &[u32]) -> Result<(), NotAdmitted>
    ensures { OfState t.now s.now (state_number result) }
{
    manager::check_state(t, s)
}

pub fn take_event(t: &[u32], s: &mut [u32], trace: &mut [u32], outcomes: &[u32], e: u32) -> Answer
    ensures { OfEvent t.now s.old trace.old outcomes.now e (number_of result) (count_of result) (visits_of result)
        s.new trace.new }
{
    manager::take_event(t, s, trace, outcomes, e)
}

pub fn play(t: &[u32], s: &mut [u32], trace: &mut [u32], es: &[u32]) -> Played
    ensures { OfPlay t.now s.old trace.old es.now (end_number result.end) result.taken result.count
        result.visits s.new trace.new }
{
    manager::play(t, s, trace, es)
}

pub fn show(o: u32, t: &[u32], s: &[u32], ws: &[u32], out: &mut [u8]) -> Result<usize, NotShown>
    ensures { OfPanel o t.now s.now ws.now out.old (panel_number result) (bytes_of result) out.new }
{
    panel::show(o, t, s, ws, out)
}

pub fn hold(
    t: &[u32],
    s: &mut [u32],
    trace: &mut [u32],
    outcomes: &[u32],
    e: u32,
    theirs: &[u32],
    their_state: &[u32],
) -> Held
    ensures { OfHold t.now s.old trace.old outcomes.now e theirs.now
        their_state.now (verdict_number result.verdict) (given_by result.verdict) result.count result.visits s.new trace.new }
{
    hold::hold(t, s, trace, outcomes, e, theirs, their_state)
}

pub fn part<'a>(held: Held, trace: &'a [u32], theirs: &'a [u32]) -> &'a [u32]
    ensures { HandsBack held trace.now theirs.now result.now }
{
    hold::part(held, trace, theirs)
}

pub fn list(t: &[u32], out: &mut [u8]) -> Result<usize, NotListed>
    ensures { OfListing t.now out.old (listed_number result) (bytes_listed result) out.new }
{
    listing::writing::list(t, out)
}

pub fn read(text: &[u8], words: &mut [u32]) -> Result<usize, Unread>
    ensures { OfReading text.now words.old (read_number result) (words_of result) (line_in result) words.new }
{
    listing::reading::read(text, words)
}

pub fn read_log(t: &[u32], names: &[u8], log: &[u8], from: Cursor, out: &mut [u32]) -> Step
    ensures { OfLog t.now names.now log.now (cursor_as from) out.old (log_number result.end) (line_of result)
        result.events result.bytes (cursor_as result.cursor) out.new }
{
    buslog::reading::read_log(t, names, log, from, out)
}
