// One event on a lent state and trace, for a table and a state that have been checked: refused, or done with the count of words
// written and of expression words visited. A run of many events may check table and state once and call `handle` for each.
#![tactic(auto)]

ghost use Rattle.std.specs.Prelude.{◌≡◌};
ghost use Rattle.rulebook.specs.Events.{request as request_of, tick as tick_of, happen as happen_of};
ghost use Rattle.rulebook.specs.Step.{heeded, handle as handle_of};
ghost use Rattle.lists.specs.Runs.{Ran};
ghost use Rattle.arbitration.specs.Asked.{MayArbitrate, MayArbitratePort};
ghost use Rattle.refusals.specs.Answers.{answer_of};
ghost use Rattle.events.specs.Answers.{refusal_of, unadmitted, refusal_number, number_of, count_of, visits_of, Reports};

use arbitration::{arbitrate_marked, arbitrate_one};
use lists::Written;
use refusals::event::Event;
use refusals::{Unheeded, check_event};
use states::NotAdmitted;
use things::ports::request_port;
use things::{change, tick_things};
use words::numbers::{EVENT_MODE, EVENT_REQUEST, EVENT_TICK};
use words::table::Table;

// A request: the port is written, and arbitrated now if it is immediate.
fn request(
    t: &Table,
    p: u32,
    value: u32,
    s: &mut [u32],
    trace: &mut [u32],
    outcomes: &[u32],
) -> Written
    requires { MayArbitratePort t.now.words p (request_of t.now.words p value outcomes.now s.old) trace.old }
    ensures { Ran outcomes.now (request_of t.now.words p value outcomes.now s.old)
        s.new trace.old trace.new result }
{
    if request_port(t, s, p, value) {
        return arbitrate_one(t, p, s, trace, outcomes);
    }
    Written::nothing()
}

// A tick: networks, sources and timers count, then all marked ports are arbitrated.
fn tick(t: &Table, s: &mut [u32], trace: &mut [u32], outcomes: &[u32]) -> Written
    requires { MayArbitrate t.now.words (tick_of t.now.words outcomes.now s.old) trace.old }
    ensures { Ran outcomes.now (tick_of t.now.words outcomes.now s.old)
        s.new trace.old trace.new result }
{
    tick_things(t, s);
    arbitrate_marked(t, s, trace, outcomes)
}

// What an event that is not refused does.
fn happen(t: &Table, e: Event, s: &mut [u32], trace: &mut [u32], outcomes: &[u32]) -> Written
    requires { MayArbitrate t.now.words (happen_of t.now.words e.word outcomes.now s.old) trace.old }
    ensures { Ran outcomes.now (happen_of t.now.words e.word outcomes.now s.old)
        s.new trace.old trace.new result }
{
    match e.kind {
        EVENT_TICK => tick(t, s, trace, outcomes),
        EVENT_MODE => request(t, e.index, e.value, s, trace, outcomes),
        EVENT_REQUEST => request(t, e.index, 1, s, trace, outcomes),
        _ => {
            change(t, s, e.kind, e.index);
            Written::nothing()
        }
    }
}

// What a call that is done reports: how many trace words it has written, and how many expression words its evaluations have visited.
#[derive(Clone, Copy, Debug, PartialEq, Eq)]
pub struct Report {
    pub count: usize,
    pub visits: u32,
}

// Why a call is refused, with a case for each answer of an event call.
#[derive(Clone, Copy, Debug, PartialEq, Eq)]
pub enum Refusal {
    BadTable,
    UnfitState,
    ShortTrace,
    Malformed,
    NoSuchThing,
    NotItsOwner,
    BadOutcome,
}

pub type Answer = Result<Report, Refusal>;

impl From<Unheeded> for Refusal {
    ghost from_gives = { λ why refusal. refusal ≡ refusal_of why };

    fn from(why: Unheeded) -> Refusal {
        match why {
            Unheeded::Malformed => Refusal::Malformed,
            Unheeded::BadOutcome => Refusal::BadOutcome,
            Unheeded::NoSuchThing => Refusal::NoSuchThing,
            Unheeded::NotItsOwner => Refusal::NotItsOwner,
        }
    }
}

// For a caller that has an admission alone. `manager`, which has a whole answer to give, makes it in `not_admitted`.
impl From<NotAdmitted> for Refusal {
    ghost from_gives = { λ why refusal. refusal ≡ unadmitted why };

    fn from(why: NotAdmitted) -> Refusal {
        match why {
            NotAdmitted::BadTable => Refusal::BadTable,
            NotAdmitted::UnfitState => Refusal::UnfitState,
        }
    }
}

// A refusal's number.
pub fn refusal_number(refusal: Refusal) -> u32
    ensures { result ≡ refusal_number refusal }
{
    match refusal {
        Refusal::BadTable => 1,
        Refusal::UnfitState => 2,
        Refusal::ShortTrace => 3,
        Refusal::Malformed => 4,
        Refusal::NoSuchThing => 5,
        Refusal::NotItsOwner => 6,
        Refusal::BadOutcome => 8,
    }
}

// An answer's number.
pub fn number(answer: Answer) -> u32
    ensures { result ≡ number_of answer }
{
    match answer {
        Ok(_) => 0,
        Err(refusal) => refusal_number(refusal),
    }
}

// The count of trace words that an answer reports.
pub fn count(answer: Answer) -> usize
    ensures { result ≡ count_of answer }
{
    match answer {
        Ok(report) => report.count,
        Err(_) => 0,
    }
}

// The visits that an answer reports.
pub fn visits(answer: Answer) -> u32
    ensures { result ≡ visits_of answer }
{
    match answer {
        Ok(report) => report.visits,
        Err(_) => 0,
    }
}

// The lent outcome words that are heeded: none in edition 1, where every call is good.
#[tactic(auto, unfolding(rulebook::specs::Step::heeded))]
fn heeded<'a>(t: &Table, outcomes: &'a [u32]) -> &'a [u32]
    ensures { result.now ≡ heeded t.now.words outcomes.now }
{
    if t.is_second_edition() {
        outcomes
    } else {
        &outcomes[..0]
    }
}

// The answer of an event that its check refuses.
fn refused(checked: Result<(), Unheeded>) -> Answer
    ensures { (number_of result ≡ answer_of checked) × (count_of result ≡ 0) × (visits_of result ≡ 0) }
{
    match checked {
        Ok(()) => Ok(Report {
            count: 0,
            visits: 0,
        }),
        Err(why) => Err(Refusal::from(why)),
    }
}

// What comes after the checks of table, state and room.
pub fn handle(t: &Table, e: u32, s: &mut [u32], trace: &mut [u32], outcomes: &[u32]) -> Answer
    requires { MayArbitrate t.now.words (happen_of t.now.words e (heeded t.now.words outcomes.now) s.old) trace.old }
    ensures { Reports (handle_of t.now.words s.old outcomes.now e) trace.old result
        s.new trace.new }
{
    let event = Event::from(e);
    let checked = check_event(t, outcomes, event);
    let Ok(()) = checked else {
        return refused(checked);
    };
    let written = happen(t, event, s, trace, heeded(t, outcomes));
    Ok(Report {
        count: written.count,
        visits: written.visits,
    })
}

#[cfg(test)]
mod tests {
    use super::*;

    // Document 01's numbers. No program takes a refusal from an admission alone.
    #[test]
    fn a_refused_admission_has_its_number(rt: HostRuntime) {
        assert_eq!(rt; refusal_number(Refusal::from(NotAdmitted::BadTable)), 1);
        assert_eq!(rt; refusal_number(Refusal::from(NotAdmitted::UnfitState)), 2);
    }
}
