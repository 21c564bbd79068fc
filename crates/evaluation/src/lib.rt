// Evaluation of expressions and of rules, by the port words of a state. Evaluation goes down into the left and then the right argument,
// with one level less each time.
#![tactic(auto)]

ghost use Rattle.std.specs.Prelude.{◌≡◌, ◌≤◌};
ghost use Rattle.rulebook.specs.Words.{any};
ghost use Rattle.rulebook.specs.Expressions.{met, joined as joined_of, settled as settled_of};
ghost use Rattle.rulebook.specs.Lists.{value_in, undefined_in, unready as unready_of, list_for, choice as choice_of};
ghost use Rattle.words.specs.Field.{Field};
ghost use Rattle.evaluation.specs.Condition.{condition_word, word_met};
ghost use Rattle.evaluation.specs.Section.{EvaluatedIn};
ghost use Rattle.evaluation.specs.Found.{in_word, Evaluates, Finds};

use expression::{expression_words, mentions_where};
use words::expressions::{
    condition_port, condition_value, expression_kind, is_operator, left, right,
};
use words::numbers::{
    CONDITION_AT_OR_ABOVE, CONDITION_CLEARED, CONDITION_EQUAL, CONDITION_NOT_EQUAL, CONDITION_SET,
    NO_LIST, OPERATOR_AND, OPERATOR_NAND, OPERATOR_NOT, OPERATOR_OR, OPERATOR_XOR,
};
use words::state::port_in;
use words::table::Table;
use words::word;

// Port p's value.
#[tactic(auto, unfolding(rulebook::specs::Lists::value_in))]
fn value_in(s: &[u32], p: u32) -> u32
    ensures { result ≡ value_in s.now p }
{
    port_in(s, p).value
}

// Whether port p is undefined.
#[tactic(auto, unfolding(rulebook::specs::Lists::undefined_in))]
fn undefined_in(s: &[u32], p: u32) -> bool
    ensures { result ≡ undefined_in s.now p }
{
    port_in(s, p).defined == 0
}

// Whether a condition of this kind holds of a port's value.
fn condition_met(kind: u32, value: u32, given: u32) -> bool
    ensures { result ≡ met kind value given }
{
    match kind {
        CONDITION_EQUAL => value == given,
        CONDITION_NOT_EQUAL => value != given,
        CONDITION_SET => value == 1,
        CONDITION_CLEARED => value == 0,
        CONDITION_AT_OR_ABOVE => given <= value,
        _ => false,
    }
}

// What an operator of this kind makes of its arguments.
#[tactic(auto, unfolding(rulebook::specs::Expressions::joined))]
fn joined(kind: u32, a: bool, b: bool) -> bool
    ensures { result ≡ joined_of kind a b }
{
    match kind {
        OPERATOR_AND => a & b,
        OPERATOR_OR => a | b,
        OPERATOR_XOR => a ^ b,
        OPERATOR_NAND => !(a & b),
        _ => !a,
    }
}

// Whether its left side settles an operator of this kind: true an OR, false an AND or a NAND, neither an XOR.
#[tactic(auto, unfolding(rulebook::specs::Expressions::settled))]
fn settled(kind: u32, left: bool) -> bool
    ensures { result ≡ settled_of kind left }
{
    match kind {
        OPERATOR_XOR => false,
        OPERATOR_OR => left,
        _ => !left,
    }
}

// Whether a word is a condition's.
fn is_condition(w: u32) -> bool
    ensures { result ≡ condition_word w }
{
    !is_operator(expression_kind(w))
}

// Whether the condition that a word is holds by the values of the port words.
fn word_met(values: &[u32], w: u32) -> bool
    ensures { result ≡ word_met (value_in values.now) w }
{
    let value = value_in(values, condition_port(w));
    condition_met(expression_kind(w), value, condition_value(w))
}

// An evaluation in one word: twice its visits, and 1 more if the expression holds. Two fields by value would go through memory at each
// level of the recursion.
fn in_word(holds: bool, visits: u32) -> u32
    requires { visits ≤ 255 }
    ensures { result ≡ in_word holds visits }
{
    2 * visits + u32::from(holds)
}

// Evaluates expression e, down to so many levels, by the values of the port words.
fn holds(t: &Table, values: &[u32], e: u32, levels: u32) -> u32
    requires { levels ≤ 7 }
    ensures { Evaluates t.now.words (value_in values.now) e levels result }
{
    holds_in(expression_words(t), values, e, levels)
}

// The same by the part x of a table that starts with its expressions. The right side is visited only if the left one leaves it open.
#[cycle(argument_holds_holds_in)]
fn holds_in(x: &[u32], values: &[u32], e: u32, levels: u32) -> u32
    requires { levels ≤ 7 }
    ensures { EvaluatedIn x.now (value_in values.now) e levels result }
{
    if levels == 0 {
        return 0;
    }
    let w = word(x, e as usize);
    if is_condition(w) {
        return in_word(word_met(values, w), 1);
    }
    let kind = expression_kind(w);
    let a = argument_holds(x, values, left(w), levels - 1);
    let left = a % 2 == 1;
    let visits = 1 + a / 2;
    if kind == OPERATOR_NOT {
        return in_word(!left, visits);
    }
    if settled(kind, left) {
        return in_word(joined(kind, left, false), visits);
    }
    let b = argument_holds(x, values, right(w), levels - 1);
    let right = b % 2 == 1;
    in_word(joined(kind, left, right), visits + b / 2)
}

// The same of an argument. Half the words of a whole tree are conditions, and they are looked at here without a further call: for speed,
// these are two functions (docs/BENCHMARKS.md, Q-3).
#[cycle(argument_holds_holds_in)]
fn argument_holds(x: &[u32], values: &[u32], e: u32, levels: u32) -> u32
    requires { levels ≤ 7 }
    ensures { EvaluatedIn x.now (value_in values.now) e levels result }
{
    if levels == 0 {
        return 0;
    }
    let w = word(x, e as usize);
    if is_condition(w) {
        return in_word(word_met(values, w), 1);
    }
    holds_in(x, values, e, levels)
}

// Whether any of so many ports is undefined.
fn any_undefined(s: &[u32], ports: u32) -> bool
    ensures { result ≡ any 0 ports (undefined_in s.now) }
{
    (0..ports).any(|p| undefined_in(s, p))
}

// Whether rule r mentions an undefined port. The rules of an accepted table mention none but its ports: where these are all
// defined, no expression is read.
pub fn unready(t: &Table, s: &[u32], r: u32) -> bool
    ensures { result ≡ unready_of t.now.words s.now r }
{
    let rule = t.rule(r);
    let named = t.is_accepted() & (rule.expression < t.expressions());
    if named && !any_undefined(s, t.ports()) {
        return false;
    }
    mentions_where(t, &|p| undefined_in(s, p), rule.expression, 7)
}

// A rule's result, 0 false, 1 true, and the visits that finding it makes.
#[derive(Clone, Copy)]
pub struct Found {
    pub result: u32,
    pub visits: u32,
}

// Rule r's result by the port words of a state.
pub fn result(t: &Table, s: &[u32], r: u32) -> Found
    ensures { Finds t.now.words s.now r result }
{
    let found = holds(t, s, t.rule(r).expression, 7);
    Found {
        result: found % 2,
        visits: found / 2,
    }
}

// The list that rule r has for a result; 255 for none.
fn list_for(t: &Table, r: u32, res: u32) -> u32
    ensures { Field (list_for t.now.words r res) 256 result }
{
    let rule = t.rule(r);
    if res == 1 {
        rule.true_list
    } else {
        rule.false_list
    }
}

// The list that rule r starts by its result and the one before; 255 for none.
#[tactic(auto, unfolding(rulebook::specs::Lists::choice))]
pub fn choice(t: &Table, r: u32, previous: u32, res: u32) -> u32
    ensures { Field (choice_of t.now.words r previous res) 256 result }
{
    let l = list_for(t, r, res);
    let list = t.list(l);
    if (list.triggered == 0) | (res != previous) {
        l
    } else {
        NO_LIST
    }
}
