// Rule 9: what lists cost, found by rising depth in a local array, each list once, and not by walking every path. No number grows past
// 4,098.
#![tactic(auto)]

ghost use Rattle.std.specs.Prelude.{cond, ◌≡◌, ◌+◌, ◌<◌, eqb};
ghost use Rattle.rulebook.specs.Table.{no_list};
ghost use Rattle.rulebook.specs.Expressions.{deepest};
ghost use Rattle.rulebook.specs.Reasons.{rule_cost, item_cost, list_cost, bound as bound_of};
ghost use Rattle.words.specs.Field.{Field};
ghost use Rattle.cost.specs.Costs.{capped, cost_in, next_cost, Costs, Costed, NextCosts, Kept};

use words::numbers::{ITEM_LIST, ITEM_RULE, NO_LIST};
use words::table::Table;
use words::{put, word};

// A number, held at 4,097.
fn cap(n: u32) -> u32
    ensures { result ≡ capped n }
{
    n.min(4097)
}

#[tactic(auto, unfolding(crate::specs::Costs::cost_in))]
fn cost_in(costs: &[u32], l: u32) -> u32
    ensures { Field (cost_in costs.now l) 4098 result }
{
    cap(word(costs, l as usize))
}

// The cost of a rule's list, none for 255.
fn chosen_cost(costs: &[u32], l: u32) -> u32
    ensures { Field (cond (eqb l no_list) 0 (cost_in costs.now l)) 4098 result }
{
    if l == NO_LIST { 0 } else { cost_in(costs, l) }
}

fn rule_cost(t: &Table, below: &[u32], r: u32) -> u32
    ensures { Field (rule_cost t.now.words (cost_in below.now) r) 4099 result }
{
    let rule = t.rule(r);
    let on_true = chosen_cost(below, rule.true_list);
    let on_false = chosen_cost(below, rule.false_list);
    1 + on_true.max(on_false)
}

fn item_cost(t: &Table, below: &[u32], i: u32) -> u32
    ensures { Field (item_cost t.now.words (cost_in below.now) i) 4099 result }
{
    let item = t.item(i);
    if item.kind == ITEM_LIST {
        return cost_in(below, item.a);
    }
    if item.kind == ITEM_RULE {
        return rule_cost(t, below, item.a);
    }
    1
}

fn list_cost(t: &Table, below: &[u32], l: u32) -> u32
    ensures { result ≡ capped (list_cost t.now.words (cost_in below.now) l) }
{
    if t.lists() <= l {
        return 0;
    }
    let list = t.list(l);
    let mut total: u32 = 1;
    for i in list.first_item..list.first_item + list.item_count {
        total = cap(total + item_cost(t, below, i));
    }
    total
}

// List l's word after the round of depth d + 1, which finds the costs of the lists of that depth by those of lesser depth.
fn next_cost(t: &Table, depths: &[u32], costs: &[u32], d: u32, l: u32) -> u32
    requires { d < 7 }
    ensures { result ≡ next_cost t.now.words depths.now costs.now d l }
{
    let depth = word(depths, l as usize);
    if depth == d + 1 {
        return list_cost(t, costs, l);
    }
    word(costs, l as usize)
}

// The round of depth d + 1.
fn cost_level(t: &Table, depths: &[u32], costs: &mut [u32], d: u32)
    requires { NextCosts d t.now.words depths.now costs.old }
    ensures { Costs (d + 1) t.now.words costs.new }
{
    for l in 0..t.lists() {
        let cost = next_cost(t, depths, costs, d, l);
        put(costs, l as usize, cost);
    }
}

// The costs of the lists that are at most seven deep.
fn find_costs(t: &Table, depths: &[u32], costs: &mut [u32])
    requires { Costed 0 t.now.words depths.now costs.old }
    ensures { Costs deepest t.now.words costs.new }
{
    for d in 0..7 {
        cost_level(t, depths, costs, d);
    }
}

// B of a table whose lists keep rule 7, held at 4,097.
pub fn bound(t: &Table, depths: &[u32]) -> u32
    requires { Kept t.now.words depths.now }
    ensures { result ≡ capped (bound_of t.now.words) }
{
    let mut costs = [0u32; 256];
    find_costs(t, depths, &mut costs);
    let mut total: u32 = 0;
    for l in 0..t.lists() {
        total = cap(total + cost_in(&costs, l));
    }
    total
}
