// What is read of a table: the header, and the things by the fields of their words.
ghost use Rattle.std.specs.Prelude.{◌≡◌, false};
ghost use Rattle.words.specs.Sections.{Laid};

use crate::{bits, word};

// The counts; whether the edition is 2, and whether the table is known to be accepted; the place of each section's first word, the ports' being 3 always;
// the length that the header asks for.
#[derive(Clone, Copy)]
pub struct Layout {
    pub ports: u32,
    pub networks: u32,
    pub sources: u32,
    pub expressions: u32,
    pub rules: u32,
    pub lists: u32,
    pub items: u32,
    pub second: bool,
    pub accepted: bool,
    pub network0: usize,
    pub source0: usize,
    pub expression0: usize,
    pub rule0: usize,
    pub list0: usize,
    pub item0: usize,
    pub length: usize,
}

// The header of any words, of which it says nothing but what they say themselves.
pub fn read_layout(t: &[u32]) -> Layout
    ensures laid { Laid t.now result }
    ensures unknown { result.accepted ≡ false }
{
    let first = word(t, 0);
    let second = word(t, 1);
    let third = word(t, 2);
    let edition = bits::<0, 8>(first);
    let ports = bits::<8, 8>(first);
    let networks = bits::<16, 8>(first);
    let sources = bits::<24, 8>(first);
    let expressions = bits::<0, 16>(second);
    let rules = bits::<16, 16>(second);
    let lists = bits::<0, 16>(third);
    let items = bits::<16, 16>(third);
    let network0 = 3 + ports as usize;
    let source0 = network0 + 2 * networks as usize;
    let expression0 = source0 + sources as usize;
    let rule0 = expression0 + expressions as usize;
    let list0 = rule0 + rules as usize;
    let item0 = list0 + lists as usize;
    Layout {
        ports,
        networks,
        sources,
        expressions,
        rules,
        lists,
        items,
        second: edition == 2,
        accepted: false,
        network0,
        source0,
        expression0,
        rule0,
        list0,
        item0,
        length: item0 + items as usize,
    }
}

// The things by number and by value: each with all fields of its word, in document 01's order.

// A port's word.
#[derive(Clone, Copy)]
pub struct Port {
    pub kind: u32,
    pub deferred: u32,
    pub has_initial: u32,
    pub owner: u32,
    pub initial: u32,
    pub reload: u32,
}

// A network's first word.
#[derive(Clone, Copy)]
pub struct Network {
    pub owner: u32,
    pub port: u32,
    pub threshold: u32,
    pub zero: u32,
}

// A network's second word.
#[derive(Clone, Copy)]
pub struct Waits {
    pub l1: u32,
    pub l2: u32,
    pub e_ticks: u32,
}

// A source's word.
#[derive(Clone, Copy)]
pub struct Source {
    pub owner: u32,
    pub port: u32,
    pub timeout: u32,
    pub zero: u32,
}

// An expression's word: `port`, `value` and `zero` are a condition's, `left` and `right` an operator's.
#[derive(Clone, Copy)]
pub struct Expression {
    pub kind: u32,
    pub port: u32,
    pub value: u32,
    pub zero: u32,
    pub left: u32,
    pub right: u32,
}

// A rule's word.
#[derive(Clone, Copy)]
pub struct Rule {
    pub owner: u32,
    pub first_result: u32,
    pub nested_only: u32,
    pub expression: u32,
    pub true_list: u32,
    pub false_list: u32,
}

// A list's word.
#[derive(Clone, Copy)]
pub struct List {
    pub owner: u32,
    pub triggered: u32,
    pub priority: u32,
    pub first_item: u32,
    pub item_count: u32,
}

// An item's word.
#[derive(Clone, Copy)]
pub struct Item {
    pub kind: u32,
    pub abort: u32,
    pub a: u32,
    pub b: u32,
}
