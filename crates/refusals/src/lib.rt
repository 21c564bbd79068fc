// Answers 4, 8, 5 and 6, in this order: an event that is refused, by its word, the outcome words lent with it and the table alone.
#![tactic(auto)]

ghost use Rattle.std.specs.Prelude.{◌≡◌};
ghost use Rattle.rulebook.specs.State.{owner_of};
ghost use Rattle.rulebook.specs.Step.{well_formed, named as named_of, present as present_of, suited as suited_of};
ghost use Rattle.rulebook.specs.Step.{outcomes_known, known as known_of, sent_by_owner};
ghost use Rattle.words.specs.State.{thing_of};
ghost use Rattle.refusals.specs.Answers.{event_checked};

use event::Event;
use names::held;
use words::numbers::{
    EVENT_BUS_OFF, EVENT_HEARD, EVENT_MODE, EVENT_REQUEST, EVENT_TICK, PORT_EVENT, PORT_MODE,
};
use words::state::Thing;
use words::table::Table;

pub mod event;

// The thing that an event other than a tick names. No event names a rule.
#[tactic(auto, unfolding(rulebook::specs::Step::named))]
fn named(e: Event) -> Thing
    ensures { thing_of result ≡ named_of e.word }
{
    match e.kind {
        EVENT_MODE | EVENT_REQUEST => Thing::Port(e.index),
        EVENT_BUS_OFF | EVENT_HEARD => Thing::Network(e.index),
        _ => Thing::Source(e.index),
    }
}

#[tactic(auto, unfolding(rulebook::specs::Step::present))]
fn present(t: &Table, thing: Thing) -> bool
    ensures { result ≡ present_of t.now.words (thing_of thing) }
{
    match thing {
        Thing::Port(p) => p < t.ports(),
        Thing::Rule(r) => r < t.rules(),
        Thing::Network(n) => n < t.networks(),
        Thing::Source(k) => k < t.sources(),
    }
}

#[tactic(auto, unfolding(rulebook::specs::State::owner_of))]
fn owner(t: &Table, thing: Thing) -> u32
    ensures { result ≡ owner_of t.now.words (thing_of thing) }
{
    match thing {
        Thing::Port(p) => t.port(p).owner,
        Thing::Rule(r) => t.rule(r).owner,
        Thing::Network(n) => t.network(n).owner,
        Thing::Source(k) => t.source(k).owner,
    }
}

// Kind 1 wants a mode port that no network or source has, kind 2 an event port.
#[tactic(auto, unfolding(rulebook::specs::Step::suited))]
fn suited(t: &Table, e: Event) -> bool
    ensures { result ≡ suited_of t.now.words e.word }
{
    let port = t.port(e.index);
    match e.kind {
        EVENT_MODE => {
            let taken = held(t, e.index, t.networks(), t.sources());
            (port.kind == PORT_MODE) & !taken
        }
        EVENT_REQUEST => port.kind == PORT_EVENT,
        _ => true,
    }
}

#[tactic(auto, unfolding(rulebook::specs::Step::well_formed))]
fn well_formed(e: Event) -> bool
    ensures { result ≡ well_formed e.word }
{
    (e.kind <= EVENT_HEARD)
        & (e.zero == 0)
        & (!(e.kind == EVENT_TICK) | (e.owner == 0) & (e.index == 0))
        & ((e.kind == EVENT_MODE) | (e.value == 0))
}

// Whether every outcome word that is lent is 0 for good or 1 for failed.
#[tactic(auto, unfolding(rulebook::specs::Step::outcomes_known, rulebook::specs::Step::good_or_failed))]
fn outcomes_known(outcomes: &[u32]) -> bool
    ensures { result ≡ outcomes_known outcomes.now }
{
    outcomes.iter().all(|outcome| *outcome <= 1)
}

#[tactic(auto, unfolding(rulebook::specs::Step::known))]
fn known(t: &Table, e: Event) -> bool
    ensures { result ≡ known_of t.now.words e.word }
{
    (e.kind == EVENT_TICK) | present(t, named(e)) & suited(t, e)
}

#[tactic(auto, unfolding(rulebook::specs::Step::sent_by_owner))]
fn sent_by_owner(t: &Table, e: Event) -> bool
    ensures { result ≡ sent_by_owner t.now.words e.word }
{
    (e.kind == EVENT_TICK) | (e.owner == owner(t, named(e)))
}

// Why an event is not taken, with a case for each answer.
#[derive(Clone, Copy, Debug, PartialEq, Eq)]
pub enum Unheeded {
    Malformed,
    BadOutcome,
    NoSuchThing,
    NotItsOwner,
}

// The first check that fails ends the call with its answer.
#[tactic(auto, unfolding(crate::specs::Answers::event_checked))]
pub fn check_event(t: &Table, outcomes: &[u32], e: Event) -> Result<(), Unheeded>
    ensures { result ≡ event_checked t.now.words outcomes.now e.word }
{
    let true = well_formed(e) else {
        return Err(Unheeded::Malformed);
    };
    let true = outcomes_known(outcomes) else {
        return Err(Unheeded::BadOutcome);
    };
    let true = known(t, e) else {
        return Err(Unheeded::NoSuchThing);
    };
    let true = sent_by_owner(t, e) else {
        return Err(Unheeded::NotItsOwner);
    };
    Ok(())
}
