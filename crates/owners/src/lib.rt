// Rule 8: owners do not clash.
#![tactic(auto, unfolding(rulebook::specs::Reasons::owners))]

ghost use Rattle.std.specs.Prelude.{◌≡◌, ◌<◌, length};
ghost use Rattle.rulebook.specs.Table.{table_length, lists_from, part, at_network, at_source, at_rule};
ghost use Rattle.rulebook.specs.Reasons.{strangers_port, item_owned, owners, lowest};

use expression::mentions_where;
use words::numbers::{
    ITEM_ASK, ITEM_CALL, ITEM_CLEAR, ITEM_LIST, ITEM_RULE, ITEM_STOP, NO_LIST, PLATFORM,
};
use words::parts::Part;
use words::table::Table;

fn network_owned(t: &Table, n: u32) -> bool
    ensures { result ≡ owners t.now.words (at_network n) }
{
    let network = t.network(n);
    let port = t.port(network.port);
    network.owner == port.owner
}

fn source_owned(t: &Table, k: u32) -> bool
    ensures { result ≡ owners t.now.words (at_source k) }
{
    let source = t.source(k);
    let port = t.port(source.port);
    source.owner == port.owner
}

// Whether port p is a stranger's to o.
#[tactic(auto, unfolding(rulebook::specs::Reasons::strangers_port, rulebook::specs::Table::stranger))]
fn is_strangers(t: &Table, o: u32, p: u32) -> bool
    ensures { result ≡ strangers_port t.now.words o p }
{
    let owner = t.port(p).owner;
    !(owner == o) & !(owner == PLATFORM)
}

fn rule_owned(t: &Table, r: u32) -> bool
    ensures { result ≡ owners t.now.words (at_rule r) }
{
    let rule = t.rule(r);
    let owner = rule.owner;
    let true_owner = t.list(rule.true_list).owner;
    let false_owner = t.list(rule.false_list).owner;
    let strange = mentions_where(t, &|p| is_strangers(t, owner, p), rule.expression, 7);
    !strange
        & ((rule.true_list == NO_LIST) | (true_owner == owner))
        & ((rule.false_list == NO_LIST) | (false_owner == owner))
}

// Whether item i may stand in a list of owner o. Most items name nothing, so what is named is read by the item's kind.
fn item_owned(t: &Table, o: u32, i: u32) -> bool
    ensures { result ≡ item_owned t.now.words o i }
{
    let item = t.item(i);
    let kind = item.kind;
    let a = item.a;
    if kind == ITEM_CALL {
        return true;
    }
    if kind == ITEM_LIST {
        return t.list(a).owner == o;
    }
    if kind == ITEM_RULE {
        return t.rule(a).owner == o;
    }
    let port_owner = t.port(a).owner;
    let network_owner = t.network(a).owner;
    ((o == PLATFORM) | (!((ITEM_CLEAR <= kind) & (kind <= ITEM_STOP)) | (port_owner == o)))
        & ((o == PLATFORM) | (!(kind == ITEM_ASK) | (network_owner == o)))
}

// Whether the word at a place before the lists keeps rule 8.
fn owned_before_lists(t: &Table, i: usize) -> bool
    requires { i < lists_from t.now.words }
    ensures { result ≡ owners t.now.words (part t.now.words i) }
{
    match t.part(i) {
        Part::Header => true,
        Part::Port(_) => true,
        Part::Network(n) => network_owned(t, n),
        Part::Waits(_) => true,
        Part::Source(k) => source_owned(t, k),
        Part::Expression(_) => true,
        Part::Rule(r) => rule_owned(t, r),
        Part::List(_) => true,
        Part::Item(_) => true,
    }
}

// The place of the first word that breaks rule 8, a list's where one of its items may not stand in it; the length where none does.
pub fn first_clash(t: &Table) -> usize
    requires { length t.now.words ≡ table_length t.now.words }
    ensures { result ≡ lowest owners t.now.words }
{
    'scan: {
        for i in 0..t.list0() {
            if !owned_before_lists(t, i) {
                break 'scan i;
            }
        }
        for l in 0..t.lists() {
            let list = t.list(l);
            for i in list.first_item..list.first_item + list.item_count {
                if !item_owned(t, list.owner, i) {
                    break 'scan t.list_place(l);
                }
            }
        }
        t.length()
    }
}
