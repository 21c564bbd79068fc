// Q-7: a supplier's recording of one event held against ours. `hold` takes the event by the manager's own call and gives the verdict; `part`
// hands back the words for it, a tail of one of two lent traces and never a copy. They are two functions, for a `&'a mut` trace whose words are
// handed back is spent, and its owner could be told nothing of them any more (docs/DECISIONS.md).
#![tactic(auto)]

ghost use Rattle.std.specs.Prelude.{◌≡◌, ◌≤◌, length, take, drop};
ghost use Rattle.rulebook.specs.Hold.{parting as parting_of, beside};
ghost use Rattle.hold.specs.Promises.{number_of, given_by, TellsVerdict, TellsStates, Holds, HandsBack};

// What is said of a supplier's recording: a refused event has our answer's number, the others the number of a word.
#[derive(Clone, Copy, Debug, PartialEq, Eq)]
pub enum Verdict {
    AsOrdered,
    Refused(u32),
    TracesPart(usize),
    TheirsStops(usize),
    OursStops(usize),
    StatesPart(usize),
}

// A verdict's number.
pub fn number(verdict: Verdict) -> u32
    ensures { result ≡ number_of verdict }
{
    match verdict {
        Verdict::AsOrdered => 0,
        Verdict::Refused(_) => 1,
        Verdict::TracesPart(_) => 2,
        Verdict::TheirsStops(_) => 3,
        Verdict::OursStops(_) => 4,
        Verdict::StatesPart(_) => 5,
    }
}

// The number that a verdict gives: of our answer or of a word, 0 beside yes.
pub fn given(verdict: Verdict) -> usize
    ensures { result ≡ given_by verdict }
{
    match verdict {
        Verdict::AsOrdered => 0,
        Verdict::Refused(answer) => answer as usize,
        Verdict::TracesPart(k)
        | Verdict::TheirsStops(k)
        | Verdict::OursStops(k)
        | Verdict::StatesPart(k) => k,
    }
}

// The number of the first word in which two recordings differ; where one merely stops early the shorter length.
fn parting(ours: &[u32], theirs: &[u32]) -> usize
    ensures { result ≡ parting_of ours.now theirs.now }
{
    for (k, word) in ours.iter().enumerate() {
        if theirs.get(k) != Some(word) {
            return k;
        }
    }
    ours.len()
}

// The states, where the traces are the same.
fn compare_states(ours: &[u32], theirs: &[u32]) -> Verdict
    ensures { TellsStates ours.now theirs.now result }
{
    let k = parting(ours, theirs);
    if k < ours.len().max(theirs.len()) {
        return Verdict::StatesPart(k);
    }
    Verdict::AsOrdered
}

// Our words and our state against the supplier's, the traces first.
pub fn compare(ours: &[u32], state: &[u32], theirs: &[u32], their_state: &[u32]) -> Verdict
    ensures { TellsVerdict (beside ours.now state.now theirs.now their_state.now) result }
{
    let at = parting(ours, theirs);
    match (at < ours.len(), at < theirs.len()) {
        (true, true) => Verdict::TracesPart(at),
        (true, false) => Verdict::TheirsStops(at),
        (false, true) => Verdict::OursStops(at),
        (false, false) => compare_states(state, their_state),
    }
}

// The verdict on a supplier's recording, and what our own step reports: its count, which says how much of the trace is ours, and its visits.
#[derive(Clone, Copy, Debug, PartialEq, Eq)]
pub struct Held {
    pub verdict: Verdict,
    pub count: usize,
    pub visits: u32,
}

// Holds the supplier's trace and state after one event against our step, with the outcomes given. Our state and trace end as after an event
// call.
pub fn hold(
    t: &[u32],
    s: &mut [u32],
    trace: &mut [u32],
    outcomes: &[u32],
    e: u32,
    theirs: &[u32],
    their_state: &[u32],
) -> Held
    ensures { Holds t.now s.old trace.old outcomes.now e theirs.now
        their_state.now result s.new trace.new }
{
    let answer = manager::take_event(t, s, trace, outcomes, e);
    let count = events::count(answer);
    let visits = events::visits(answer);
    let Ok(_) = answer else {
        return Held {
            verdict: Verdict::Refused(events::number(answer)),
            count,
            visits,
        };
    };
    let verdict = compare(&trace[..count], s, theirs, their_state);
    Held {
        verdict,
        count,
        visits,
    }
}

// The first words of a recording, all of them where it has no more.
fn front(words: &[u32], to: usize) -> &[u32]
    ensures { result.now ≡ take to words.now }
{
    &words[..to.min(words.len())]
}

// The tail of a recording from a word on, empty where it has no such word.
fn tail(words: &[u32], from: usize) -> &[u32]
    ensures { result.now ≡ drop from words.now }
{
    &words[from.min(words.len())..]
}

// The part that goes with a verdict: the supplier's words from where the traces part, or the rest of whichever recording is longer, the
// supplier's or ours; else nothing.
pub fn part<'a>(held: Held, trace: &'a [u32], theirs: &'a [u32]) -> &'a [u32]
    ensures { HandsBack held trace.now theirs.now result.now }
{
    match held.verdict {
        Verdict::TracesPart(k) => tail(theirs, k),
        Verdict::TheirsStops(k) => tail(front(trace, held.count), k),
        Verdict::OursStops(k) => tail(theirs, k),
        Verdict::AsOrdered | Verdict::Refused(_) | Verdict::StatesPart(_) => front(theirs, 0),
    }
}
