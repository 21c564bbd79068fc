// The public entries. Each takes anything and checks for itself.
#![tactic(auto)]

ghost use Rattle.std.specs.Prelude.{◌≡◌, ◌≢◌, Err};
ghost use Rattle.states.specs.Admission.{number_of as admission_number};
ghost use Rattle.events.specs.Answers.{refusal_number, number_of, count_of, visits_of};
ghost use Rattle.manager.specs.Answers.{end_number};
ghost use Rattle.manager.specs.Promises.{ChecksTable, CountsWords, MakesFresh, ChecksState, Admitted, TakesEvent, Plays};

use events::{Answer, Report};
use states::{NotMade, admit};
use tables::Fault;
use words::table::Table;

// For callers that know of this crate alone.
pub use events::Refusal;
pub use states::NotAdmitted;

// Checks a table: accepted, with B, or the first reason that holds and its place.
pub fn check_table(t: &[u32]) -> Result<u32, Fault>
    ensures { ChecksTable t.now result }
{
    tables::check(t)
}

// How many words a state of this table has, for whoever lends them. It reads the header alone, so it says nothing of the table.
pub fn state_words(t: &[u32]) -> usize
    ensures { CountsWords t.now result }
{
    Table::read(t).state_length()
}

// Makes a fresh state in the lent words, or refuses and writes nothing.
pub fn make_fresh(t: &[u32], s: &mut [u32]) -> Result<(), NotMade>
    ensures { MakesFresh t.now s.old result s.new }
{
    states::fresh(t, s)
}

// Checks a state against a table.
pub fn check_state(t: &[u32], s: &[u32]) -> Result<(), NotAdmitted>
    ensures { ChecksState t.now s.now result }
{
    admit(t, s)?;
    Ok(())
}

// The answer where table or state does not stand.
fn not_admitted(admission: Result<u32, NotAdmitted>) -> Answer
    ensures { (number_of result ≡ admission_number admission) × (count_of result ≡ 0) × (visits_of result ≡ 0) }
{
    match admission {
        Ok(_) => Ok(Report {
            count: 0,
            visits: 0,
        }),
        Err(NotAdmitted::BadTable) => Err(Refusal::BadTable),
        Err(NotAdmitted::UnfitState) => Err(Refusal::UnfitState),
    }
}

// One event behind the check of table and state, which gave B.
fn take_next(
    t: &Table,
    b: u32,
    e: u32,
    s: &mut [u32],
    trace: &mut [u32],
    outcomes: &[u32],
) -> Answer
    requires { Admitted t.now.words s.old b }
    ensures { TakesEvent t.now.words s.old trace.old outcomes.now e result s.new trace.new }
{
    let Some(_) = trace.len().checked_sub(b as usize) else {
        return Err(Refusal::ShortTrace);
    };
    events::handle(t, e, s, trace, outcomes)
}

// Takes one event, with the outcomes of the outside calls that it runs: 0 for good, 1 for failed, and past their end good. The state and
// the trace are written in place; a refusal changes no word of either.
pub fn take_event(t: &[u32], s: &mut [u32], trace: &mut [u32], outcomes: &[u32], e: u32) -> Answer
    ensures { TakesEvent t.now s.old trace.old outcomes.now e result s.new trace.new }
{
    let admission = admit(t, s);
    let Ok(b) = admission else {
        return not_admitted(admission);
    };
    let table = Table::accepted(t);
    take_next(&table, b, e, s, trace, outcomes)
}

// Which answer stood before the next event of a play. A trace that is full is answer 3's; a play lends no outcomes, so answer 8 does not come.
#[derive(Clone, Copy, Debug, PartialEq, Eq)]
pub enum End {
    BadTable,
    UnfitState,
    TraceFull,
    Malformed,
    NoSuchThing,
    NotItsOwner,
}

// How many events were taken, how many trace words they wrote, how many expression words they visited, and what ended the play: all its
// events are taken, or which answer stood before the next. The visits are the lowest 64 bits of their sum, which is the sum itself in any
// play of up to 33 million million events.
#[derive(Clone, Copy, Debug, PartialEq, Eq)]
pub struct Played {
    pub taken: usize,
    pub count: usize,
    pub visits: u64,
    pub end: Result<(), End>,
}

// An end's number.
pub fn end_number(end: Result<(), End>) -> u32
    ensures { result ≡ end_number end }
{
    match end {
        Ok(()) => 0,
        Err(End::BadTable) => 1,
        Err(End::UnfitState) => 2,
        Err(End::TraceFull) => 3,
        Err(End::Malformed) => 4,
        Err(End::NoSuchThing) => 5,
        Err(End::NotItsOwner) => 6,
    }
}

// The end that a single call's refusal makes.
fn end_by(refusal: Refusal) -> End
    requires { refusal_number refusal ≢ 8 }
    ensures { end_number (Err result) ≡ refusal_number refusal }
{
    match refusal {
        Refusal::BadTable => End::BadTable,
        Refusal::UnfitState => End::UnfitState,
        Refusal::ShortTrace => End::TraceFull,
        Refusal::Malformed => End::Malformed,
        Refusal::NoSuchThing => End::NoSuchThing,
        Refusal::NotItsOwner => End::NotItsOwner,
        Refusal::BadOutcome => End::BadTable,
    }
}

// The end that a single call's answer makes.
fn end_of(answer: Answer) -> Result<(), End>
    requires { number_of answer ≢ 8 }
    ensures { end_number result ≡ number_of answer }
{
    match answer {
        Ok(_) => Ok(()),
        Err(refusal) => Err(end_by(refusal)),
    }
}

// The events of a play, each in the trace words that those before it left free. All calls are good: the outcomes lent are none.
fn play_on(t: &Table, b: u32, s: &mut [u32], trace: &mut [u32], es: &[u32]) -> Played
    requires { Admitted t.now.words s.old b }
    ensures { Plays t.now.words s.old trace.old es.now result s.new trace.new }
{
    let mut count = 0;
    let mut visits = 0u64;
    for (taken, e) in es.iter().enumerate() {
        let answer = take_next(t, b, *e, s, &mut trace[count..], &[]);
        let Ok(report) = answer else {
            return Played {
                taken,
                count,
                visits,
                end: end_of(answer),
            };
        };
        count += report.count;
        visits = visits.wrapping_add(u64::from(report.visits));
    }
    Played {
        taken: es.len(),
        count,
        visits,
        end: Ok(()),
    }
}

// Plays event words one after the other, table and state checked once. Before an event it stops if fewer than B trace words are
// free, or if the event is refused; the state and the trace are then those of the events taken.
pub fn play(t: &[u32], s: &mut [u32], trace: &mut [u32], es: &[u32]) -> Played
    ensures { Plays t.now s.old trace.old es.now result s.new trace.new }
{
    let admission = admit(t, s);
    let Ok(b) = admission else {
        return Played {
            taken: 0,
            count: 0,
            visits: 0,
            end: end_of(not_admitted(admission)),
        };
    };
    let table = Table::accepted(t);
    play_on(&table, b, s, trace, es)
}
