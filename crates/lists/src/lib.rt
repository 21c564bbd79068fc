// Lists: what each item does, the trace words, and a list run with the lists and rules that it names.
#![tactic(auto)]

ghost use Rattle.std.specs.Prelude.{◌≡◌, ◌+◌, ◌<◌, ◌^◌, true, []};
ghost use Rattle.rulebook.specs.Lists.{start, trace_word, effect as effect_of, network_in, asking, set_network, choice_in, act as act_of, judge as judge_of};
ghost use Rattle.rulebook.specs.Lists.{run_list, run_item, run_rule};
ghost use Rattle.rulebook.specs.Reasons.{rule_nests, item_nests, list_within};
ghost use Rattle.lists.specs.Runs.{Safe, Ran, Addable, Stops, ReadOn, nothing as nothing_written, one_word, plus as plus_of, read_behind as read_behind_of};

use evaluation;
use words::numbers::{
    ITEM_ASK, ITEM_CALL, ITEM_CLEAR, ITEM_LIST, ITEM_RULE, ITEM_START, ITEM_STOP, NO_LIST,
    TIMER_STARTED, TIMER_STOPPED, TRACE_LIST_START, UNDEFINED_RESULT,
};
use words::state::{Network, set_port};
use words::table::Table;
use words::{put, state, word};

// What a run has written and read, counted from nothing, by one word, and by what one run does after another: the trace words, the lent
// outcome words, and the expression words that its evaluations have visited.
#[derive(Clone, Copy)]
pub struct Written {
    pub count: usize,
    pub read: usize,
    pub visits: u32,
}

impl Written {
    pub fn nothing() -> Written
        ensures { result ≡ nothing_written }
    {
        Written {
            count: 0,
            read: 0,
            visits: 0,
        }
    }

    fn one_word(read: usize, visits: u32) -> Written
        ensures { result ≡ one_word read visits }
    {
        Written {
            count: 1,
            read,
            visits,
        }
    }

    // Both, one after the other: what is read is counted by the later one, from where the first one began.
    pub fn plus(self, more: Written) -> Written
        requires { Addable self more }
        ensures { result ≡ plus_of self more }
    {
        Written {
            count: self.count + more.count,
            read: more.read,
            visits: self.visits + more.visits,
        }
    }

    // The same with what is read counted from so many outcome words before those that it was lent.
    pub fn read_behind(self, before: usize) -> Written
        requires { before + self.read < 2 ^ 64 }
        ensures { result ≡ read_behind_of before self }
    {
        Written {
            read: before + self.read,
            ..self
        }
    }
}

// A trace word, each field cut to its width.
#[tactic(auto, unfolding(rulebook::specs::Lists::trace_word))]
pub fn trace_word(kind: u32, owner: u32, a: u32, b: u32) -> u32
    ensures { result ≡ trace_word kind owner a b }
{
    kind % 16 * 268435456 + owner % 16 * 16777216 + a % 256 * 65536 + b % 65536
}

// Asks network n for a mode; all else of it stays.
fn ask(t: &Table, s: &mut [u32], n: u32, mode: u32)
    ensures { s.new ≡ set_network t.now.words n (asking mode (network_in t.now.words n s.old)) s.old }
{
    let c = state::network_in(t, s, n);
    state::set_network(t, s, n, Network { asked: mode, ..c });
}

// What item i, of kind 0 to 4, does to the state.
#[tactic(auto, unfolding(rulebook::specs::Lists::effect))]
fn effect(t: &Table, i: u32, s: &mut [u32])
    ensures { s.new ≡ effect_of t.now.words i s.old }
{
    let item = t.item(i);
    match item.kind {
        ITEM_CLEAR => set_port(s, item.a, 1, 0, 0),
        ITEM_START => set_port(s, item.a, 1, TIMER_STARTED, t.port(item.a).reload),
        ITEM_STOP => set_port(s, item.a, 1, TIMER_STOPPED, 0),
        ITEM_ASK => ask(t, s, item.a, item.b),
        _ => {}
    }
}

// How many of the outcome words that are left an item of this kind reads: a call the next one, where there is one.
fn read_by(kind: u32, outcomes: &[u32]) -> usize
    ensures { ReadOn kind outcomes.now result }
{
    if kind == ITEM_CALL {
        outcomes.len().min(1)
    } else {
        0
    }
}

// Item i, of kind 0 to 4, in a list of owner o: its effect and its word.
fn act(t: &Table, o: u32, i: u32, s: &mut [u32], trace: &mut [u32], outcomes: &[u32]) -> Written
    requires { Safe (act_of t.now.words o i (start outcomes.now s.old)) trace.old }
    ensures { Ran outcomes.now (act_of t.now.words o i (start outcomes.now s.old))
        s.new trace.old trace.new result }
{
    effect(t, i, s);
    let item = t.item(i);
    put(trace, 0, trace_word(item.kind, o, item.a, item.b));
    Written::one_word(read_by(item.kind, outcomes), 0)
}

// Whether item i stops the list that holds it: it is a call with abort, and the outcome that it is about to read says failed. Where no
// outcome is left every call is good; no item is looked at but for a failed outcome.
fn stops(t: &Table, i: u32, outcomes: &[u32]) -> bool
    ensures { Stops t.now.words i outcomes.now result }
{
    if word(outcomes, 0) != 1 {
        return false;
    }
    let item = t.item(i);
    (item.kind == ITEM_CALL) & (item.abort == 1)
}

// What comes of judging a rule: the list that it starts, 255 for none, as the rulebook has it, and the visits of its evaluation.
#[derive(Clone, Copy)]
struct Judged {
    list: u32,
    visits: u32,
}

// Rule r, which is ready, as an item of a list of owner o: its result is stored and its word written. It reads no outcome, so it is
// told of none.
fn judge(t: &Table, o: u32, r: u32, s: &mut [u32], trace: &mut [u32]) -> Judged
    requires { Safe (judge_of t.now.words o r (start [] s.old)) trace.old }
    ensures list_value { result.list ≡ choice_in t.now.words s.old r }
    ensures ran { Ran [] (judge_of t.now.words o r (start [] s.old)) s.new trace.old trace.new
        (one_word 0 result.visits) }
{
    let found = evaluation::result(t, s, r);
    let before = state::result_in(t, s, r);
    let list = evaluation::choice(t, r, before, found.result);
    state::set_result(t, s, r, found.result);
    put(trace, 0, trace_word(ITEM_RULE, o, r, found.result));
    Judged {
        list,
        visits: found.visits,
    }
}

// List l, which nests within the levels left: a word for its start, then its items, up to and with the one that stops it. Like each of the
// cycle it fills the front of the trace that it is lent, goes by the outcome words that it is lent, and returns what it has written and
// read. A list has fewer levels left than the one that starts it. State, trace and outcomes are lent one by one: each has a clause of its own,
// and a struct of them would be taken apart at each call on the rest of a trace.
#[cycle(run_item_run_list_run_rule)]
pub fn run_list(
    t: &Table,
    l: u32,
    levels: u32,
    s: &mut [u32],
    trace: &mut [u32],
    outcomes: &[u32],
) -> Written
    requires l_value { list_within levels t.now.words l ≡ true }
    requires safe { Safe (run_list levels t.now.words l (start outcomes.now s.old)) trace.old }
    ensures { Ran outcomes.now (run_list levels t.now.words l (start outcomes.now s.old))
        s.new trace.old trace.new result }
{
    let list = t.list(l);
    put(trace, 0, trace_word(TRACE_LIST_START, list.owner, l, 0));
    let below = levels - 1;
    let mut written = Written::one_word(0, 0);
    for i in list.first_item..list.first_item + list.item_count {
        let free = &mut trace[written.count..];
        let unread = &outcomes[written.read..];
        let last = stops(t, i, unread);
        let more = run_item(t, list.owner, i, below, s, free, unread);
        written = written.plus(more.read_behind(written.read));
        if last {
            return written;
        }
    }
    written
}

// Item i of a list of owner o.
#[cycle(run_item_run_list_run_rule)]
fn run_item(
    t: &Table,
    o: u32,
    i: u32,
    below: u32,
    s: &mut [u32],
    trace: &mut [u32],
    outcomes: &[u32],
) -> Written
    requires i_value { item_nests t.now.words (list_within below t.now.words) i ≡ true }
    requires safe { Safe (run_item (run_list below t.now.words) t.now.words o i (start outcomes.now s.old)) trace.old }
    ensures { Ran outcomes.now (run_item (run_list below t.now.words) t.now.words o i
        (start outcomes.now s.old))
        s.new trace.old trace.new result }
{
    let item = t.item(i);
    if item.kind == ITEM_LIST {
        return run_list(t, item.a, below, s, trace, outcomes);
    }
    if item.kind == ITEM_RULE {
        return run_rule(t, o, item.a, below, s, trace, outcomes);
    }
    act(t, o, i, s, trace, outcomes)
}

// Rule item r of a list of owner o.
#[cycle(run_item_run_list_run_rule)]
fn run_rule(
    t: &Table,
    o: u32,
    r: u32,
    below: u32,
    s: &mut [u32],
    trace: &mut [u32],
    outcomes: &[u32],
) -> Written
    requires r_value { rule_nests t.now.words (list_within below t.now.words) r ≡ true }
    requires safe { Safe (run_rule (run_list below t.now.words) t.now.words o r (start outcomes.now s.old)) trace.old }
    ensures { Ran outcomes.now (run_rule (run_list below t.now.words) t.now.words o r
        (start outcomes.now s.old))
        s.new trace.old trace.new result }
{
    if evaluation::unready(t, s, r) {
        put(trace, 0, trace_word(ITEM_RULE, o, r, UNDEFINED_RESULT));
        return Written::one_word(0, 0);
    }
    let judged = judge(t, o, r, s, trace);
    let first = Written::one_word(0, judged.visits);
    if judged.list == NO_LIST {
        return first;
    }
    let more = run_list(t, judged.list, below, s, &mut trace[1..], outcomes);
    first.plus(more)
}
