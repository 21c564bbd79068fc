// A table's words with the header read once. It takes any words: a number past a section's end reads what stands there, as in the rulebook.
ghost use Rattle.std.specs.Prelude.{◌≡◌, ◌+◌, ◌<◌, true, false, eqb};
ghost use Rattle.rulebook.specs.Table as rulebook;
ghost use Rattle.rulebook.specs.Reasons.{accepted};
ghost use Rattle.rulebook.specs.State.{state_length, thing, network_index, source_index};
ghost use Rattle.words.specs.State.{thing_of};
ghost use Rattle.words.specs.Field.{Field, abort_by, a_by};
ghost use Rattle.words.specs.Parts.{part_of};
ghost use Rattle.words.specs.Sections.{PortAt, NetworkAt, WaitsAt, SourceAt, ExpressionAt, RuleAt, ListAt, ItemAt};

use crate::parts::Part;
use crate::sections::{
    Expression, Item, Layout, List, Network, Port, Rule, Source, Waits, read_layout,
};
use crate::state::Thing;
use crate::{bits, word};
use std::marker::Model;
use std::ops::Range;

#[derive(Drop)]
pub struct Table<'a> {
    words: &'a [u32],
    layout: Layout,
}

impl<'a> Model for Table<'a> {
    ghost use Rattle.words.specs.Sections.{Laid, Read};

    ghost Value = { Read };

    ghost view = { λ a. record { words = a.words.now; accepted = a.layout.accepted } };

    ghost invariant = { λ a. Laid a.words.now a.layout };
}

// An item's abort and a, by the edition: 2 has abort(1), a(11); 1 has a(12) and never aborts.
fn item_abort(w: u32, second: bool) -> u32
    ensures { Field (abort_by second w) 2 result }
{
    if second { bits::<4, 1>(w) } else { 0 }
}

fn item_a(w: u32, second: bool) -> u32
    ensures { Field (a_by second w) 4096 result }
{
    if second {
        bits::<5, 11>(w)
    } else {
        bits::<4, 12>(w)
    }
}

impl<'a> Table<'a> {
    // A table of which nothing is known.
    pub fn read(words: &'a [u32]) -> Table<'a>
        ensures { (result.words ≡ words.now) × (result.accepted ≡ false) }
    {
        Table {
            words,
            layout: read_layout(words),
        }
    }

    // A table that is known to be accepted, which it then says.
    pub fn accepted(words: &'a [u32]) -> Table<'a>
        requires { accepted words.now ≡ true }
        ensures { (result.words ≡ words.now) × (result.accepted ≡ true) }
    {
        Table {
            words,
            layout: Layout {
                accepted: true,
                ..read_layout(words)
            },
        }
    }

    // Whether the table is known to be accepted.
    pub fn is_accepted(&self) -> bool
        ensures known { result ≡ self.now.accepted }
        ensures accepted { result ≡ true → accepted self.now.words ≡ true }
    {
        self.layout.accepted
    }

    pub fn words(&self) -> &'a [u32]
        ensures { result.now ≡ self.now.words }
    {
        self.words
    }

    pub fn edition(&self) -> u32
        ensures { Field (rulebook.edition self.now.words) 256 result }
    {
        bits::<0, 8>(word(self.words, 0))
    }

    pub fn is_second_edition(&self) -> bool
        ensures { result ≡ eqb (rulebook.edition self.now.words) 2 }
    {
        self.layout.second
    }

    pub fn ports(&self) -> u32
        ensures { Field (rulebook.ports self.now.words) 256 result }
    {
        self.layout.ports
    }

    pub fn networks(&self) -> u32
        ensures { Field (rulebook.networks self.now.words) 256 result }
    {
        self.layout.networks
    }

    pub fn sources(&self) -> u32
        ensures { Field (rulebook.sources self.now.words) 256 result }
    {
        self.layout.sources
    }

    pub fn expressions(&self) -> u32
        ensures { Field (rulebook.expressions self.now.words) 65536 result }
    {
        self.layout.expressions
    }

    pub fn rules(&self) -> u32
        ensures { Field (rulebook.rules self.now.words) 65536 result }
    {
        self.layout.rules
    }

    pub fn lists(&self) -> u32
        ensures { Field (rulebook.lists self.now.words) 65536 result }
    {
        self.layout.lists
    }

    pub fn items(&self) -> u32
        ensures { Field (rulebook.items self.now.words) 65536 result }
    {
        self.layout.items
    }

    // The length that the header asks for, and where the expressions, the lists and the items begin.
    pub fn length(&self) -> usize
        ensures { result ≡ rulebook.table_length self.now.words }
    {
        self.layout.length
    }

    pub fn expression0(&self) -> usize
        ensures { result ≡ rulebook.expressions_from self.now.words }
    {
        self.layout.expression0
    }

    pub fn list0(&self) -> usize
        ensures { result ≡ rulebook.lists_from self.now.words }
    {
        self.layout.list0
    }

    // The place of list l.
    pub fn list_place(&self, l: u32) -> usize
        ensures { result ≡ rulebook.lists_from self.now.words + l }
    {
        self.layout.list0 + l as usize
    }

    pub fn item0(&self) -> usize
        ensures { result ≡ rulebook.items_from self.now.words }
    {
        self.layout.item0
    }

    // How many words a state of the table has.
    pub fn state_length(&self) -> usize
        ensures { result ≡ state_length self.now.words }
    {
        let layout = self.layout;
        (layout.ports + layout.rules + layout.networks + layout.sources) as usize
    }

    pub fn expression_word(&self, e: u32) -> u32
        ensures { result ≡ rulebook.expression_word self.now.words e }
    {
        word(self.words, self.layout.expression0 + e as usize)
    }

    pub fn port(&self, p: u32) -> Port
        ensures { PortAt self.now.words p result }
    {
        let w = word(self.words, 3 + p as usize);
        Port {
            kind: bits::<0, 2>(w),
            deferred: bits::<2, 1>(w),
            has_initial: bits::<3, 1>(w),
            owner: bits::<4, 4>(w),
            initial: bits::<8, 8>(w),
            reload: bits::<16, 16>(w),
        }
    }

    pub fn network(&self, n: u32) -> Network
        ensures { NetworkAt self.now.words n result }
    {
        let w = word(self.words, self.layout.network0 + 2 * n as usize);
        Network {
            owner: bits::<0, 4>(w),
            port: bits::<4, 8>(w),
            threshold: bits::<12, 8>(w),
            zero: bits::<20, 12>(w),
        }
    }

    pub fn waits(&self, n: u32) -> Waits
        ensures { WaitsAt self.now.words n result }
    {
        let w = word(self.words, self.layout.network0 + 2 * n as usize + 1);
        Waits {
            l1: bits::<0, 8>(w),
            l2: bits::<8, 8>(w),
            e_ticks: bits::<16, 16>(w),
        }
    }

    pub fn source(&self, k: u32) -> Source
        ensures { SourceAt self.now.words k result }
    {
        let w = word(self.words, self.layout.source0 + k as usize);
        Source {
            owner: bits::<0, 4>(w),
            port: bits::<4, 8>(w),
            timeout: bits::<12, 16>(w),
            zero: bits::<28, 4>(w),
        }
    }

    pub fn expression(&self, e: u32) -> Expression
        ensures { ExpressionAt self.now.words e result }
    {
        let w = self.expression_word(e);
        Expression {
            kind: bits::<0, 4>(w),
            port: bits::<4, 8>(w),
            value: bits::<12, 8>(w),
            zero: bits::<20, 12>(w),
            left: bits::<4, 14>(w),
            right: bits::<18, 14>(w),
        }
    }

    pub fn rule(&self, r: u32) -> Rule
        ensures { RuleAt self.now.words r result }
    {
        let w = word(self.words, self.layout.rule0 + r as usize);
        Rule {
            owner: bits::<0, 4>(w),
            first_result: bits::<4, 2>(w),
            nested_only: bits::<6, 1>(w),
            expression: bits::<7, 9>(w),
            true_list: bits::<16, 8>(w),
            false_list: bits::<24, 8>(w),
        }
    }

    pub fn list(&self, l: u32) -> List
        ensures { ListAt self.now.words l result }
    {
        let w = word(self.words, self.layout.list0 + l as usize);
        List {
            owner: bits::<0, 4>(w),
            triggered: bits::<4, 1>(w),
            priority: bits::<5, 8>(w),
            first_item: bits::<13, 11>(w),
            item_count: bits::<24, 8>(w),
        }
    }

    // The numbers of the items of list l.
    pub fn items_of(&self, l: u32) -> Range<u32>
        ensures from { result.start ≡ rulebook.first_item self.now.words l }
        ensures to { result.end ≡ rulebook.first_item self.now.words l + rulebook.item_count self.now.words l }
    {
        let list = self.list(l);
        list.first_item..list.first_item + list.item_count
    }

    pub fn item(&self, i: u32) -> Item
        ensures { ItemAt self.now.words i result }
    {
        let second = self.layout.second;
        let w = word(self.words, self.layout.item0 + i as usize);
        Item {
            kind: bits::<0, 4>(w),
            abort: item_abort(w, second),
            a: item_a(w, second),
            b: bits::<16, 16>(w),
        }
    }

    // Which word the one at a place is. The longest sections are asked for first.
    pub fn part(&self, i: usize) -> Part
        requires { i < rulebook.table_length self.now.words }
        ensures { part_of result ≡ rulebook.part self.now.words i }
    {
        let layout = self.layout;
        if layout.item0 <= i {
            return Part::Item((i - layout.item0) as u32);
        }
        if layout.list0 <= i {
            return Part::List((i - layout.list0) as u32);
        }
        if layout.rule0 <= i {
            return Part::Rule((i - layout.rule0) as u32);
        }
        if layout.expression0 <= i {
            return Part::Expression((i - layout.expression0) as u32);
        }
        if layout.source0 <= i {
            return Part::Source((i - layout.source0) as u32);
        }
        if layout.network0 <= i {
            let j = i - layout.network0;
            let n = (j / 2) as u32;
            if j % 2 == 0 {
                return Part::Network(n);
            }
            return Part::Waits(n);
        }
        if 3 <= i {
            return Part::Port((i - 3) as u32);
        }
        Part::Header
    }

    // Where a state has the word of a rule, a network and a source; a port's is at its number.
    pub fn rule_index(&self, r: u32) -> usize
        ensures { result ≡ rulebook.ports self.now.words + r }
    {
        self.layout.ports as usize + r as usize
    }

    pub fn network_index(&self, n: u32) -> usize
        ensures { result ≡ network_index self.now.words n }
    {
        let layout = self.layout;
        (layout.ports + layout.rules) as usize + n as usize
    }

    pub fn source_index(&self, k: u32) -> usize
        ensures { result ≡ source_index self.now.words k }
    {
        let layout = self.layout;
        (layout.ports + layout.rules + layout.networks) as usize + k as usize
    }

    // Whose the word of a state at an index is.
    pub fn thing(&self, i: usize) -> Thing
        requires { i < state_length self.now.words }
        ensures { thing_of result ≡ thing self.now.words i }
    {
        let layout = self.layout;
        let rule0 = layout.ports as usize;
        let network0 = rule0 + layout.rules as usize;
        let source0 = network0 + layout.networks as usize;
        if i < rule0 {
            return Thing::Port(i as u32);
        }
        if i < network0 {
            return Thing::Rule((i - rule0) as u32);
        }
        if i < source0 {
            return Thing::Network((i - network0) as u32);
        }
        Thing::Source((i - source0) as u32)
    }
}
