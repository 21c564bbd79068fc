// Rule 5: each word of the table keeps its own field rules.
#![tactic(auto, unfolding(rulebook::specs::Reasons::own_fields))]

ghost use Rattle.std.specs.Prelude.{◌≡◌, length};
ghost use Rattle.rulebook.specs.Table.{table_length, at_port, at_network, at_waits, at_source, at_expression, at_rule, at_list, at_item};
ghost use Rattle.rulebook.specs.Reasons.{own_fields, lowest};
ghost use Rattle.words.specs.Parts.{part_of};

use scan::first_broken;
use words::expressions::is_operator;
use words::numbers::{
    CONDITION_AT_OR_ABOVE, CONDITION_CLEARED, CONDITION_SET, ITEM_ASK, ITEM_CALL, ITEM_CLEAR,
    ITEM_LIST, ITEM_RULE, ITEM_STOP, OPERATOR_NOT, PORT_MODE, PORT_TIMER,
};
use words::parts::Part;
use words::table::Table;

#[tactic(auto, unfolding(rulebook::specs::Reasons::own_fields, rulebook::specs::Reasons::port_fields))]
fn port_fields(t: &Table, p: u32) -> bool
    ensures { result ≡ own_fields t.now.words (at_port p) }
{
    let port = t.port(p);
    (port.kind <= PORT_TIMER)
        & ((port.has_initial == 1) & (port.kind == PORT_MODE)
            | !(port.has_initial == 1) & (port.initial == 0))
        & ((port.kind == PORT_TIMER) & (1 <= port.reload)
            | !(port.kind == PORT_TIMER) & (port.reload == 0))
        & (!(port.kind == PORT_TIMER) | (port.deferred == 1))
}

fn network_fields(t: &Table, n: u32) -> bool
    ensures { result ≡ own_fields t.now.words (at_network n) }
{
    t.network(n).zero == 0
}

fn waits_fields(t: &Table, n: u32) -> bool
    ensures { result ≡ own_fields t.now.words (at_waits n) }
{
    let waits = t.waits(n);
    (1 <= waits.l1) & (1 <= waits.l2) & (1 <= waits.e_ticks)
}

fn source_fields(t: &Table, k: u32) -> bool
    ensures { result ≡ own_fields t.now.words (at_source k) }
{
    t.source(k).zero == 0
}

#[tactic(auto, unfolding(rulebook::specs::Reasons::own_fields, rulebook::specs::Reasons::expression_fields, rulebook::specs::Expressions::operator))]
fn expression_fields(t: &Table, e: u32) -> bool
    ensures { result ≡ own_fields t.now.words (at_expression e) }
{
    let expression = t.expression(e);
    let condition = !is_operator(expression.kind);
    (expression.kind <= CONDITION_AT_OR_ABOVE)
        & (!condition | (expression.zero == 0))
        & (!((CONDITION_SET <= expression.kind) & (expression.kind <= CONDITION_CLEARED))
            | (expression.value == 0))
        & (!(expression.kind == OPERATOR_NOT) | (expression.right == 0))
}

fn rule_fields(t: &Table, r: u32) -> bool
    ensures { result ≡ own_fields t.now.words (at_rule r) }
{
    t.rule(r).first_result <= 2
}

fn list_fields(t: &Table, l: u32) -> bool
    ensures { result ≡ own_fields t.now.words (at_list l) }
{
    1 <= t.list(l).item_count
}

#[tactic(auto, unfolding(rulebook::specs::Reasons::own_fields, rulebook::specs::Reasons::item_fields))]
fn item_fields(t: &Table, i: u32) -> bool
    ensures { result ≡ own_fields t.now.words (at_item i) }
{
    let item = t.item(i);
    (item.kind <= ITEM_RULE)
        & (!(item.kind != ITEM_CALL) | (item.abort == 0))
        & (!(item.kind == ITEM_CALL) | (item.a == 0))
        & (!((ITEM_CLEAR <= item.kind) & (item.kind <= ITEM_STOP)) | (item.b == 0))
        & (!(item.kind == ITEM_ASK) | (item.b <= 2))
        & (!((ITEM_LIST <= item.kind) & (item.kind <= ITEM_RULE)) | (item.b == 0))
}

// Whether a word keeps rule 5.
fn own_fields(t: &Table, part: Part) -> bool
    ensures { result ≡ own_fields t.now.words (part_of part) }
{
    match part {
        Part::Header => true,
        Part::Port(p) => port_fields(t, p),
        Part::Network(n) => network_fields(t, n),
        Part::Waits(n) => waits_fields(t, n),
        Part::Source(k) => source_fields(t, k),
        Part::Expression(e) => expression_fields(t, e),
        Part::Rule(r) => rule_fields(t, r),
        Part::List(l) => list_fields(t, l),
        Part::Item(i) => item_fields(t, i),
    }
}

// The place of the first word that breaks rule 5; the length where none does.
pub fn first_misfit(t: &Table) -> usize
    requires { length t.now.words ≡ table_length t.now.words }
    ensures { result ≡ lowest own_fields t.now.words }
{
    first_broken(t, |part| own_fields(t, part))
}
