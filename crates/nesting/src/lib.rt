// Rule 7: how deep expressions and lists nest. The depths of lists are found level by level in an array and not by walking every path:
// round d + 1 finds the lists that name only lists found before it, and passes over those.
#![tactic(auto)]

ghost use Rattle.std.specs.Prelude.{◌≡◌, ◌<◌};
ghost use Rattle.rulebook.specs.Expressions.{deepest};
ghost use Rattle.rulebook.specs.Reasons.{rule_nests, item_nests, list_nests, nesting, lowest};
ghost use Rattle.words.specs.Parts.{part_of};
ghost use Rattle.nesting.specs.Depths.{found_by, next_depth, Depths, Level, Searched, NextRound, Measured};

use expression::within;
use scan::first_broken;
use words::numbers::{ITEM_LIST, ITEM_RULE, NO_LIST};
use words::parts::Part;
use words::table::Table;
use words::{put, word};

// Whether list l was found in the first d rounds.
#[tactic(auto, unfolding(crate::specs::Depths::found_by))]
fn found(depths: &[u32], d: u32, l: u32) -> bool
    ensures { result ≡ found_by depths.now d l }
{
    let depth = word(depths, l as usize);
    (1 <= depth) & (depth <= d)
}

// Whether the lists that rule r starts were found.
#[tactic(auto, unfolding(rulebook::specs::Reasons::rule_nests))]
fn rule_nests(t: &Table, depths: &[u32], d: u32, r: u32) -> bool
    ensures { result ≡ rule_nests t.now.words (found_by depths.now d) r }
{
    let rule = t.rule(r);
    let true_found = found(depths, d, rule.true_list);
    let false_found = found(depths, d, rule.false_list);
    ((rule.true_list == NO_LIST) | true_found) & ((rule.false_list == NO_LIST) | false_found)
}

// Whether the lists that item i names were found.
fn item_nests(t: &Table, depths: &[u32], d: u32, i: u32) -> bool
    ensures { result ≡ item_nests t.now.words (found_by depths.now d) i }
{
    let item = t.item(i);
    if item.kind == ITEM_LIST {
        return found(depths, d, item.a);
    }
    if item.kind == ITEM_RULE {
        return rule_nests(t, depths, d, item.a);
    }
    true
}

// Whether list l is there and names only lists that were found.
fn list_nests(t: &Table, depths: &[u32], d: u32, l: u32) -> bool
    ensures { result ≡ list_nests t.now.words (found_by depths.now d) l }
{
    (l < t.lists()) && t.items_of(l).all(|i| item_nests(t, depths, d, i))
}

// List l's word after round d + 1. A list that was found before is not looked at again.
fn next_depth(t: &Table, depths: &[u32], d: u32, l: u32) -> u32
    requires { d < 7 }
    ensures { result ≡ next_depth t.now.words depths.now d l }
{
    let depth = word(depths, l as usize);
    if depth != 0 {
        return depth;
    }
    if list_nests(t, depths, d, l) {
        return d + 1;
    }
    0
}

// Round d + 1. Tells whether it found a list.
fn find_level(t: &Table, depths: &mut [u32], d: u32) -> bool
    requires { NextRound d t.now.words depths.old }
    ensures { Level d t.now.words result depths.new }
{
    let mut more = false;
    for l in 0..t.lists() {
        let depth = next_depth(t, depths, d, l);
        put(depths, l as usize, depth);
        more |= depth == d + 1;
    }
    more
}

// The depth of each list that is at most seven deep, 0 for any other, into lent zeros. A round that finds none is the last.
pub fn find_depths(t: &Table, depths: &mut [u32])
    requires { Searched 0 t.now.words depths.old }
    ensures { Depths deepest t.now.words depths.new }
{
    for d in 0..7 {
        if !find_level(t, depths, d) {
            return;
        }
    }
}

// Whether a word keeps rule 7, by the depths of the lists that are at most seven deep.
#[tactic(auto, unfolding(rulebook::specs::Reasons::nesting))]
fn nests(t: &Table, depths: &[u32], part: Part) -> bool
    requires { Measured t.now.words depths.now }
    ensures { result ≡ nesting t.now.words (part_of part) }
{
    match part {
        Part::Header => true,
        Part::Port(_) => true,
        Part::Network(_) => true,
        Part::Waits(_) => true,
        Part::Source(_) => true,
        Part::Expression(e) => within(t, e, 7),
        Part::Rule(_) => true,
        Part::List(l) => found(depths, 7, l),
        Part::Item(_) => true,
    }
}

// The place of the first word that breaks rule 7; the length where none does.
pub fn first_deep(t: &Table, depths: &[u32]) -> usize
    requires { Measured t.now.words depths.now }
    ensures { result ≡ lowest nesting t.now.words }
{
    first_broken(t, |part| nests(t, depths, part))
}
