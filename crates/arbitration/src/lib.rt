// Arbitration: the marks of the arbitrated ports are cleared, every rule that is to be evaluated is evaluated before any list runs,
// and the chosen lists run once each, larger priority first, then lower number.
#![tactic(auto)]

ghost use Rattle.std.specs.Prelude.{◌≡◌, ◌<◌, replicate, MatchOption};
ghost use Rattle.rulebook.specs.Words.{any, each};
ghost use Rattle.rulebook.specs.Table.{ports as ports_of, rules as rules_of, lists as lists_of};
ghost use Rattle.rulebook.specs.Lists.{start, visit};
ghost use Rattle.rulebook.specs.Arbitration.{unmark_port, unmark_ports, rule_visits, order, run_chosen, arbitrate as arbitrate_of};
ghost use Rattle.rulebook.specs.Events.{only, marked_in, arbitrate_marked};
ghost use Rattle.words.specs.Flags.{flagged};
ghost use Rattle.lists.specs.Runs.{Ran};
ghost use Rattle.arbitration.specs.Results.{FoundBy, Results, store_by, pick_by, Chosen, Marked};
ghost use Rattle.arbitration.specs.Asked.{ResultsLent, MayArbitrate, MayArbitratePort};
ghost use Rattle.arbitration.specs.Picking.{better as better_of, Best};

use evaluation;
use evaluation::Found;
use expression::mentions;
use lists;
use lists::Written;
use words::numbers::UNDEFINED_RESULT;
use words::state::Port;
use words::table::Table;
use words::{flag, put, state, word};

// Clears port p's mark, if its flag is up.
#[tactic(auto, unfolding(rulebook::specs::Arbitration::unmark_port))]
fn unmark_port(flags: &[u32], s: &mut [u32], p: u32)
    ensures { s.new ≡ unmark_port (flagged flags.now) p s.old }
{
    if flag(flags, p) {
        let c = state::port_in(s, p);
        state::put_port(s, p, Port { marked: 0, ..c });
    }
}

// Clears the marks of the ports whose flags are up, and no others.
fn unmark(t: &Table, flags: &[u32], s: &mut [u32])
    ensures { s.new ≡ unmark_ports t.now.words (flagged flags.now) s.old }
{
    for p in 0..t.ports() {
        unmark_port(flags, s, p);
    }
}

// Rule r's result with its visits, if it is to be evaluated: it is not nested-only, mentions a port whose flag is up, and no undefined
// one. Else 2, and no visits.
#[tactic(auto, unfolding(rulebook::specs::Arbitration::evaluated, crate::specs::Results::rule_result, rulebook::specs::Arbitration::visits_by))]
fn rule_result(t: &Table, flags: &[u32], s: &[u32], r: u32) -> Found
    ensures { FoundBy t.now.words (flagged flags.now) s.now r result }
{
    let rule = t.rule(r);
    if rule.nested_only == 0
        && mentions(t, flags, rule.expression, 7)
        && !evaluation::unready(t, s, r)
    {
        evaluation::result(t, s, r)
    } else {
        Found {
            result: UNDEFINED_RESULT,
            visits: 0,
        }
    }
}

// The results of all rules, all from the one state, into lent words. Returns the visits that finding them makes.
fn find_results(t: &Table, flags: &[u32], s: &[u32], results: &mut [u32]) -> u32
    requires { ResultsLent t.now.words results.old }
    ensures results { Results t.now.words (flagged flags.now) s.now results.new }
    ensures value { result ≡ rule_visits t.now.words (flagged flags.now) s.now }
{
    let mut visits = 0;
    for r in 0..t.rules() {
        let found = rule_result(t, flags, s, r);
        put(results, r as usize, found.result);
        visits += found.visits;
    }
    visits
}

// The list that rule r starts by its result; 256 where it has no result. A number and no Option, for `Chosen` says of every number, of
// 255 too, whether a rule chooses it.
#[tactic(auto, unfolding(crate::specs::Results::pick_by))]
fn pick(t: &Table, results: &[u32], s: &[u32], r: u32) -> u32
    ensures { result ≡ pick_by t.now.words results.now s.now r }
{
    let result = word(results, r as usize);
    if result == UNDEFINED_RESULT {
        return 256;
    }
    evaluation::choice(t, r, state::result_in(t, s, r), result)
}

// Puts up the flags of the lists that the rules choose, from the state before the results are stored. Flag 255 means nothing: no
// list has that number.
fn choose(t: &Table, results: &[u32], s: &[u32], flags: &mut [u32])
    requires { flags.old ≡ replicate 256 0 }
    ensures { Chosen t.now.words results.now s.now flags.new }
{
    for r in 0..t.rules() {
        put(flags, pick(t, results, s, r) as usize, 1);
    }
}

// Stores rule r's result, if it has one.
#[tactic(auto, unfolding(crate::specs::Results::store_by))]
fn store_result(t: &Table, results: &[u32], s: &mut [u32], r: u32)
    ensures { s.new ≡ store_by t.now.words results.now r s.old }
{
    let result = word(results, r as usize);
    if result != UNDEFINED_RESULT {
        state::set_result(t, s, r, result);
    }
}

// Stores the results.
fn store(t: &Table, results: &[u32], s: &mut [u32])
    ensures { s.new ≡ each 0 (rules_of t.now.words) (store_by t.now.words results.now) s.old }
{
    for r in 0..t.rules() {
        store_result(t, results, s, r);
    }
}

// List k or the best so far, whichever runs before the other.
#[tactic(auto, unfolding(crate::specs::Picking::better))]
fn better(t: &Table, flags: &[u32], k: u32, best: u32) -> u32
    ensures { result ≡ better_of t.now.words flags.now k best }
{
    // most lists are passed over here, before a word of either is read
    if !flag(flags, k) {
        return best;
    }
    let takes = (t.lists() <= best) | (t.list(best).priority < t.list(k).priority);
    if takes { k } else { best }
}

// The list that runs before all others whose flags are up.
fn best(t: &Table, flags: &[u32]) -> Option<u32>
    ensures { MatchOption result (Best t.now.words flags.now (lists_of t.now.words) (lists_of t.now.words))
        (λ l. (l < lists_of t.now.words) × Best t.now.words flags.now (lists_of t.now.words) l) }
{
    let lists = t.lists();
    let mut best = lists;
    for k in 0..lists {
        best = better(t, flags, k, best);
    }
    if best < lists { Some(best) } else { None }
}

// Runs the lists whose flags are up, once each; each gets the trace from the first free word on, and the outcomes that are not read. So
// many visits are made by then.
fn run_chosen(
    t: &Table,
    flags: &mut [u32],
    s: &mut [u32],
    trace: &mut [u32],
    outcomes: &[u32],
    visits: u32,
) -> Written
    requires { MayArbitrate t.now.words (run_chosen t.now.words (flagged flags.old) (order t.now.words) (visit visits (start outcomes.now s.old)))
        trace.old }
    ensures { Ran outcomes.now (run_chosen t.now.words (flagged flags.old) (order t.now.words)
        (visit visits (start outcomes.now s.old)))
        s.new trace.old trace.new result }
{
    let mut written = Written {
        visits,
        ..Written::nothing()
    };
    while let Some(l) = best(t, flags) {
        put(flags, l as usize, 0);
        let free = &mut trace[written.count..];
        let unread = &outcomes[written.read..];
        let more = lists::run_list(t, l, 7, s, free, unread);
        written = written.plus(more.read_behind(written.read));
    }
    written
}

// Arbitrates the ports whose flags are up.
pub fn arbitrate(
    t: &Table,
    flags: &[u32],
    s: &mut [u32],
    trace: &mut [u32],
    outcomes: &[u32],
) -> Written
    requires { MayArbitrate t.now.words (arbitrate_of t.now.words (flagged flags.now) outcomes.now s.old) trace.old }
    ensures { Ran outcomes.now (arbitrate_of t.now.words (flagged flags.now)
        outcomes.now s.old)
        s.new trace.old trace.new result }
{
    unmark(t, flags, s);
    let mut results = [0u32; 256];
    let visits = find_results(t, flags, s, &mut results);
    let mut chosen = [0u32; 256];
    choose(t, &results, s, &mut chosen);
    store(t, &results, s);
    run_chosen(t, &mut chosen, s, trace, outcomes, visits)
}

// Arbitrates port p alone.
pub fn arbitrate_one(
    t: &Table,
    p: u32,
    s: &mut [u32],
    trace: &mut [u32],
    outcomes: &[u32],
) -> Written
    requires { MayArbitratePort t.now.words p (arbitrate_of t.now.words (only p) outcomes.now s.old) trace.old }
    ensures { Ran outcomes.now (arbitrate_of t.now.words (only p) outcomes.now s.old)
        s.new trace.old trace.new result }
{
    let mut flags = [0u32; 256];
    flags[p as usize] = 1;
    arbitrate(t, &flags, s, trace, outcomes)
}

// Whether port p is there and marked.
#[tactic(auto, unfolding(rulebook::specs::Events::marked_in))]
fn is_marked(t: &Table, s: &[u32], p: u32) -> bool
    ensures { result ≡ marked_in t.now.words s.now p }
{
    (p < t.ports()) & (state::port_in(s, p).marked == 1)
}

// Whether any port is marked.
fn any_marked(t: &Table, s: &[u32]) -> bool
    ensures { result ≡ any 0 (ports_of t.now.words) (marked_in t.now.words s.now) }
{
    (0..t.ports()).any(|p| is_marked(t, s, p))
}

// Puts up the flags of the marked ports.
fn flag_marked(t: &Table, s: &[u32], flags: &mut [u32])
    requires { flags.old ≡ replicate 256 0 }
    ensures { Marked t.now.words s.now flags.new }
{
    for p in 0..t.ports() {
        put(flags, p as usize, u32::from(is_marked(t, s, p)));
    }
}

// Arbitrates all marked ports. Where none is marked no rule is looked at.
pub fn arbitrate_marked(t: &Table, s: &mut [u32], trace: &mut [u32], outcomes: &[u32]) -> Written
    requires { MayArbitrate t.now.words (arbitrate_marked t.now.words outcomes.now s.old) trace.old }
    ensures { Ran outcomes.now (arbitrate_marked t.now.words outcomes.now s.old)
        s.new trace.old trace.new result }
{
    if !any_marked(t, s) {
        return Written::nothing();
    }
    let mut flags = [0u32; 256];
    flag_marked(t, s, &mut flags);
    arbitrate(t, &flags, s, trace, outcomes)
}
