// Rule 6: each name is of a thing that is there, and of the right kind.
#![tactic(auto, unfolding(rulebook::specs::Reasons::names))]

ghost use Rattle.std.specs.Prelude.{◌≡◌, length};
ghost use Rattle.rulebook.specs.Table.{table_length, at_network, at_source, at_expression, at_rule, at_list, at_item};
ghost use Rattle.rulebook.specs.Reasons.{held as held_of, may_show, names as names_of, lowest};
ghost use Rattle.words.specs.Parts.{part_of};

use scan::first_broken;
use words::expressions::is_operator;
use words::numbers::{
    CONDITION_AT_OR_ABOVE, CONDITION_CLEARED, CONDITION_NOT_EQUAL, CONDITION_SET, ITEM_ASK,
    ITEM_CALL, ITEM_CLEAR, ITEM_LIST, ITEM_RULE, ITEM_START, ITEM_STOP, NO_LIST, OPERATOR_NOT,
    PORT_EVENT, PORT_MODE, PORT_TIMER,
};
use words::parts::Part;
use words::table::Table;

// Whether one of the first n networks or of the first k sources has port p.
pub fn held(t: &Table, p: u32, n: u32, k: u32) -> bool
    ensures { result ≡ held_of t.now.words p n k }
{
    (0..n).any(|i| t.network(i).port == p) | (0..k).any(|i| t.source(i).port == p)
}

// Whether port p is one that a network or a source may show itself by: a deferred mode port without initial value.
#[tactic(auto, unfolding(rulebook::specs::Reasons::may_show))]
fn may_show(t: &Table, p: u32) -> bool
    ensures { result ≡ may_show t.now.words p }
{
    let port = t.port(p);
    (p < t.ports()) & (port.kind == PORT_MODE) & (port.deferred == 1) & (port.has_initial == 0)
}

fn network_names(t: &Table, n: u32) -> bool
    ensures { result ≡ names_of t.now.words (at_network n) }
{
    let port = t.network(n).port;
    may_show(t, port) & !held(t, port, n, 0)
}

fn source_names(t: &Table, k: u32) -> bool
    ensures { result ≡ names_of t.now.words (at_source k) }
{
    let port = t.source(k).port;
    may_show(t, port) & !held(t, port, t.networks(), k)
}

#[tactic(auto, unfolding(rulebook::specs::Reasons::names, rulebook::specs::Reasons::expression_names, rulebook::specs::Expressions::operator))]
fn expression_names(t: &Table, e: u32) -> bool
    ensures { result ≡ names_of t.now.words (at_expression e) }
{
    let expression = t.expression(e);
    let kind = expression.kind;
    let port_kind = t.port(expression.port).kind;
    let operator = is_operator(kind);
    let condition = !operator;
    (!operator | (expression.left < t.expressions()))
        & (!(operator & !(kind == OPERATOR_NOT)) | (expression.right < t.expressions()))
        & (!condition | (expression.port < t.ports()))
        & (!(kind <= CONDITION_NOT_EQUAL) | !(port_kind == PORT_EVENT))
        & (!((CONDITION_SET <= kind) & (kind <= CONDITION_CLEARED)) | (port_kind == PORT_EVENT))
        & (!(kind == CONDITION_AT_OR_ABOVE) | (port_kind == PORT_MODE))
}

#[tactic(auto, unfolding(rulebook::specs::Reasons::names, rulebook::specs::Reasons::list_or_none))]
fn rule_names(t: &Table, r: u32) -> bool
    ensures { result ≡ names_of t.now.words (at_rule r) }
{
    let rule = t.rule(r);
    (rule.expression < t.expressions())
        & ((rule.true_list == NO_LIST) | (rule.true_list < t.lists()))
        & ((rule.false_list == NO_LIST) | (rule.false_list < t.lists()))
}

fn list_names(t: &Table, l: u32) -> bool
    ensures { result ≡ names_of t.now.words (at_list l) }
{
    let list = t.list(l);
    list.first_item + list.item_count <= t.items()
}

#[tactic(auto, unfolding(rulebook::specs::Reasons::names, rulebook::specs::Reasons::item_names, rulebook::specs::Reasons::port_of_kind))]
fn item_names(t: &Table, i: u32) -> bool
    ensures { result ≡ names_of t.now.words (at_item i) }
{
    let item = t.item(i);
    let kind = item.kind;
    if kind == ITEM_CALL {
        return true;
    }
    let a = item.a;
    let port_kind = t.port(a).kind;
    (!(kind == ITEM_CLEAR) | (a < t.ports()) & (port_kind == PORT_EVENT))
        & (!((ITEM_START <= kind) & (kind <= ITEM_STOP))
            | (a < t.ports()) & (port_kind == PORT_TIMER))
        & (!(kind == ITEM_ASK) | (a < t.networks()))
        & (!(kind == ITEM_LIST) | (a < t.lists()))
        & (!(kind == ITEM_RULE) | (a < t.rules()))
}

// Whether a word keeps rule 6.
fn names(t: &Table, part: Part) -> bool
    ensures { result ≡ names_of t.now.words (part_of part) }
{
    match part {
        Part::Header => true,
        Part::Port(_) => true,
        Part::Network(n) => network_names(t, n),
        Part::Waits(_) => true,
        Part::Source(k) => source_names(t, k),
        Part::Expression(e) => expression_names(t, e),
        Part::Rule(r) => rule_names(t, r),
        Part::List(l) => list_names(t, l),
        Part::Item(i) => item_names(t, i),
    }
}

// The place of the first word that breaks rule 6; the length where none does.
pub fn first_misnamed(t: &Table) -> usize
    requires { length t.now.words ≡ table_length t.now.words }
    ensures { result ≡ lowest names_of t.now.words }
{
    first_broken(t, |part| names(t, part))
}
