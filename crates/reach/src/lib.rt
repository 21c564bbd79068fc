// Rule 10: each list is reached by a rule that isn't nested-only. Flags go up, a word for each list: first those of the lists that such
// rules start; then, by falling depth, those of the lists that each list with its flag up names. A list is deeper than every list that
// it names, so its own flag is settled when its depth comes, and its items are looked at once, however many paths lead to it. Flag 255
// means nothing: no list has that number.
#![tactic(auto)]

ghost use Rattle.std.specs.Prelude.{◌≡◌, length, replicate};
ghost use Rattle.rulebook.specs.Reasons.{reached, lowest};
ghost use Rattle.reach.specs.Raised.{rule_has, item_has, list_has, starts, passes_on, Gained, Turn, Started, Closed, Level, Rooted, Judged};

use words::numbers::{ITEM_LIST, ITEM_RULE};
use words::table::Table;
use words::{flag, put, word};

// The lists of rule r.
fn raise_rule(t: &Table, flags: &mut [u32], r: u32)
    requires { length flags.old ≡ 256 }
    ensures { Gained (rule_has t.now.words r) flags.old flags.new }
{
    let rule = t.rule(r);
    put(flags, rule.true_list as usize, 1);
    put(flags, rule.false_list as usize, 1);
}

// The lists that item i names, directly or by a rule.
fn raise_item(t: &Table, flags: &mut [u32], i: u32)
    requires { length flags.old ≡ 256 }
    ensures { Gained (item_has t.now.words i) flags.old flags.new }
{
    let item = t.item(i);
    if item.kind == ITEM_LIST {
        put(flags, item.a as usize, 1);
        return;
    }
    if item.kind == ITEM_RULE {
        raise_rule(t, flags, item.a);
    }
}

// The lists that list l names.
fn raise_list(t: &Table, flags: &mut [u32], l: u32)
    requires { length flags.old ≡ 256 }
    ensures { Gained (list_has t.now.words l) flags.old flags.new }
{
    for i in t.items_of(l) {
        raise_item(t, flags, i);
    }
}

// The lists of rule r, if it isn't nested-only.
fn raise_start(t: &Table, flags: &mut [u32], r: u32)
    requires { length flags.old ≡ 256 }
    ensures { Gained (starts t.now.words r) flags.old flags.new }
{
    let rule = t.rule(r);
    if rule.nested_only == 0 {
        raise_rule(t, flags, r);
    }
}

// The lists of all rules that aren't nested-only, into lent zeros.
fn raise_starts(t: &Table, flags: &mut [u32])
    requires { flags.old ≡ replicate 256 0 }
    ensures { Started t.now.words flags.new }
{
    for r in 0..t.rules() {
        raise_start(t, flags, r);
    }
}

// The lists that list l names, if it is d + 1 deep and its own flag is up.
fn pass_on(t: &Table, depths: &[u32], flags: &mut [u32], d: u32, l: u32)
    requires { Turn d flags.old }
    ensures { Gained (passes_on t.now.words depths.now flags.old d l) flags.old flags.new }
{
    let depth = word(depths, l as usize);
    if depth != d + 1 {
        return;
    }
    if flag(flags, l) {
        raise_list(t, flags, l);
    }
}

// The round of depth d + 1.
fn raise_level(t: &Table, depths: &[u32], flags: &mut [u32], d: u32)
    requires { Level d t.now.words depths.now flags.old }
    ensures { Closed d t.now.words flags.new }
{
    for l in 0..t.lists() {
        pass_on(t, depths, flags, d, l);
    }
}

// The rounds, by falling depth. A list that is one deep names none, so that the round of depth 2 is the last.
fn raise_levels(t: &Table, depths: &[u32], flags: &mut [u32])
    requires { Rooted t.now.words depths.now flags.old }
    ensures { Closed 1 t.now.words flags.new }
{
    for d in (1..7).rev() {
        raise_level(t, depths, flags, d);
    }
}

// The place of the first list that breaks rule 10, of a table that keeps rules 6 and 7; the length where none does.
pub fn first_unreached(t: &Table, depths: &[u32]) -> usize
    requires { Judged t.now.words depths.now }
    ensures { result ≡ lowest reached t.now.words }
{
    let mut flags = [0u32; 256];
    raise_starts(t, &mut flags);
    raise_levels(t, depths, &mut flags);
    'scan: {
        for l in 0..t.lists() {
            if !flag(&flags, l) {
                break 'scan t.list_place(l);
            }
        }
        t.length()
    }
}
