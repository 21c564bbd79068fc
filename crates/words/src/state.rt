// The state: what has a word in it, the fields of a word, and a thing read and written whole.
ghost use Rattle.std.specs.Prelude.{◌≡◌, set};
ghost use Rattle.rulebook.specs.Words.{field as field_of, word as word_of};
ghost use Rattle.rulebook.specs.State.{pack_port, pack_rule, pack_network, pack_source, network_of, source_index};
ghost use Rattle.rulebook.specs.Lists.{set_port, previous_in, set_result, network_in, set_network};
ghost use Rattle.rulebook.specs.Events.{set_source};
ghost use Rattle.words.specs.Field.{Field};
ghost use Rattle.words.specs.State.{PortIn, SourceIn, network_as};

use crate::table::Table;
use crate::{bits, put, word};

// What has a word in the state.
#[derive(Clone, Copy)]
pub enum Thing {
    Port(u32),
    Rule(u32),
    Network(u32),
    Source(u32),
}

// A port's word by its fields, and packed, each field cut to its width.
#[derive(Clone, Copy)]
pub struct Port {
    pub defined: u32,
    pub marked: u32,
    pub value: u32,
    pub remaining: u32,
}

impl From<u32> for Port {
    ghost from_gives = { λ w c. PortIn w c };

    fn from(w: u32) -> Port {
        Port {
            defined: bits::<0, 1>(w),
            marked: bits::<1, 1>(w),
            value: bits::<2, 8>(w),
            remaining: bits::<16, 16>(w),
        }
    }
}

impl From<Port> for u32 {
    ghost from_gives = { λ c w. w ≡ pack_port c.defined c.marked c.value c.remaining };

    fn from(c: Port) -> u32 {
        c.defined % 2 * 2147483648
            + c.marked % 2 * 1073741824
            + c.value % 256 * 4194304
            + c.remaining % 65536
    }
}

// A rule's word: its last result.
pub fn result(w: u32) -> u32
    ensures { Field (field_of 0 2 w) 4 result }
{
    bits::<0, 2>(w)
}

pub fn pack_rule(res: u32) -> u32
    ensures { result ≡ pack_rule res }
{
    res % 4 * 1073741824
}

// A network's word by its fields, and packed.
#[derive(Clone, Copy)]
pub struct Network {
    pub asked: u32,
    pub state: u32,
    pub counter: u32,
    pub heard: u32,
    pub remaining: u32,
}

impl From<u32> for Network {
    ghost from_gives = { λ w c. network_as c ≡ network_of w };

    fn from(w: u32) -> Network {
        Network {
            asked: bits::<0, 2>(w),
            state: bits::<2, 3>(w),
            counter: bits::<5, 8>(w),
            heard: bits::<13, 1>(w),
            remaining: bits::<16, 16>(w),
        }
    }
}

impl From<Network> for u32 {
    ghost from_gives = { λ c w. w ≡ pack_network (network_as c) };

    fn from(c: Network) -> u32 {
        c.asked % 4 * 1073741824
            + c.state % 8 * 134217728
            + c.counter % 256 * 524288
            + c.heard % 2 * 262144
            + c.remaining % 65536
    }
}

// A source's word by its fields, and packed.
#[derive(Clone, Copy)]
pub struct Source {
    pub status: u32,
    pub remaining: u32,
}

impl From<u32> for Source {
    ghost from_gives = { λ w c. SourceIn w c };

    fn from(w: u32) -> Source {
        Source {
            status: bits::<0, 2>(w),
            remaining: bits::<16, 16>(w),
        }
    }
}

impl From<Source> for u32 {
    ghost from_gives = { λ c w. w ≡ pack_source c.status c.remaining };

    fn from(c: Source) -> u32 {
        c.status % 4 * 1073741824 + c.remaining % 65536
    }
}

pub fn port_in(s: &[u32], p: u32) -> Port
    ensures { PortIn (word_of s.now p) result }
{
    Port::from(word(s, p as usize))
}

pub fn put_port(s: &mut [u32], p: u32, c: Port)
    ensures { s.new ≡ set s.old p (pack_port c.defined c.marked c.value c.remaining) }
{
    put(s, p as usize, u32::from(c));
}

// A port written anew, which defines it.
pub fn set_port(s: &mut [u32], p: u32, marked: u32, value: u32, remaining: u32)
    ensures { s.new ≡ set_port p marked value remaining s.old }
{
    let defined = 1;
    let c = Port {
        defined,
        marked,
        value,
        remaining,
    };
    put_port(s, p, c);
}

// The last result of rule r.
pub fn result_in(t: &Table, s: &[u32], r: u32) -> u32
    ensures { result ≡ previous_in t.now.words s.now r }
{
    result(word(s, t.rule_index(r)))
}

// Stores the result of rule r.
pub fn set_result(t: &Table, s: &mut [u32], r: u32, res: u32)
    ensures { s.new ≡ set_result t.now.words r res s.old }
{
    put(s, t.rule_index(r), pack_rule(res));
}

pub fn network_in(t: &Table, s: &[u32], n: u32) -> Network
    ensures { network_as result ≡ network_in t.now.words n s.now }
{
    Network::from(word(s, t.network_index(n)))
}

pub fn set_network(t: &Table, s: &mut [u32], n: u32, c: Network)
    ensures { s.new ≡ set_network t.now.words n (network_as c) s.old }
{
    put(s, t.network_index(n), u32::from(c));
}

pub fn source_in(t: &Table, s: &[u32], k: u32) -> Source
    ensures { SourceIn (word_of s.now (source_index t.now.words k)) result }
{
    Source::from(word(s, t.source_index(k)))
}

pub fn set_source(t: &Table, s: &mut [u32], k: u32, status: u32, remaining: u32)
    ensures { s.new ≡ set_source t.now.words k status remaining s.old }
{
    put(
        s,
        t.source_index(k),
        u32::from(Source { status, remaining }),
    );
}
