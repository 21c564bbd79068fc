// The state: whether one fits a table, table and state checked together, and a fresh one.
#![tactic(auto)]

ghost use Rattle.std.specs.Prelude.{◌≡◌, length};
ghost use Rattle.rulebook.specs.State.{port_fits, rule_fits, network_fits, source_fits, thing_fits, fits as fits_of, fresh_port, pack_rule, fresh_thing};
ghost use Rattle.rulebook.specs.State.{fresh as fresh_of, state_length};
ghost use Rattle.rulebook.specs.Table.{first_result};
ghost use Rattle.words.specs.State.{thing_of};
ghost use Rattle.states.specs.Admission.{Admits};
ghost use Rattle.states.specs.Made.{Fresh};

use tables::check;
use words::bits;
use words::numbers::{
    ASKED_FULL, PORT_EVENT, PORT_MODE, PORT_TIMER, STATE_CHECK, STATE_RECOVER, STATUS_PENDING,
    TIMER_EXPIRED, TIMER_STARTED, UNDEFINED_RESULT,
};
use words::state::{Network, Port, Source, Thing, pack_rule, result};
use words::table::Table;

#[tactic(auto, unfolding(rulebook::specs::State::port_fits))]
fn port_fits(t: &Table, p: u32, w: u32) -> bool
    ensures { result ≡ port_fits t.now.words p w }
{
    let port = t.port(p);
    let zero = bits::<10, 6>(w);
    let c = Port::from(w);
    let started = (port.kind == PORT_TIMER) & (c.value == TIMER_STARTED);
    (zero == 0)
        & (!((port.kind == PORT_MODE) & (port.deferred == 0)) | (c.marked == 0))
        & (!(c.defined == 0) | (port.kind == PORT_MODE) & (c.value == 0) & (c.marked == 0))
        & (!(port.kind == PORT_EVENT) | (c.value <= 1))
        & (!(port.kind == PORT_TIMER) | (c.value <= TIMER_EXPIRED))
        & (started & ((1 <= c.remaining) & (c.remaining <= port.reload))
            | !started & (c.remaining == 0))
}

fn rule_fits(w: u32) -> bool
    ensures { result ≡ rule_fits w }
{
    let zero = bits::<2, 30>(w);
    let result = result(w);
    (zero == 0) & (result <= UNDEFINED_RESULT)
}

fn network_fits(t: &Table, n: u32, w: u32) -> bool
    ensures { result ≡ network_fits t.now.words n w }
{
    let waits = t.waits(n);
    let longest = waits.l1.max(waits.l2);
    let zero = bits::<14, 2>(w);
    let c = Network::from(w);
    (zero == 0)
        & (c.asked <= ASKED_FULL)
        & (c.state <= STATE_RECOVER)
        & ((c.state == STATE_CHECK) & ((1 <= c.remaining) & (c.remaining <= waits.e_ticks))
            | !(c.state == STATE_CHECK)
                & ((c.state == STATE_RECOVER) & ((1 <= c.remaining) & (c.remaining <= longest))
                    | !(c.state == STATE_RECOVER) & (c.remaining == 0)))
        & ((c.state == STATE_RECOVER) & (1 <= c.counter)
            | !(c.state == STATE_RECOVER) & ((c.state == STATE_CHECK) | (c.counter == 0)))
        & (!(c.heard == 1) | (c.state == STATE_CHECK))
}

fn source_fits(t: &Table, k: u32, w: u32) -> bool
    ensures { result ≡ source_fits t.now.words k w }
{
    let source = t.source(k);
    let zero = bits::<2, 14>(w);
    let c = Source::from(w);
    (zero == 0)
        & ((c.status == STATUS_PENDING) & ((1 <= c.remaining) & (c.remaining <= source.timeout))
            | !(c.status == STATUS_PENDING) & (c.remaining == 0))
}

// Whether a thing's word fits.
#[tactic(auto, unfolding(rulebook::specs::State::thing_fits))]
fn thing_fits(t: &Table, thing: Thing, w: u32) -> bool
    ensures { result ≡ thing_fits t.now.words (thing_of thing) w }
{
    match thing {
        Thing::Port(p) => port_fits(t, p, w),
        Thing::Rule(_) => rule_fits(w),
        Thing::Network(n) => network_fits(t, n, w),
        Thing::Source(k) => source_fits(t, k, w),
    }
}

// Whether a state fits a table: any words of both.
pub fn fits(t: &[u32], s: &[u32]) -> bool
    ensures { result ≡ fits_of t.now s.now }
{
    let table = Table::read(t);
    let end = table.state_length();
    if s.len() != end {
        return false;
    }
    for i in 0..end {
        if !thing_fits(&table, table.thing(i), s[i]) {
            return false;
        }
    }
    true
}

// What refuses a table and a state of it.
#[derive(Clone, Copy, Debug, PartialEq, Eq)]
pub enum NotAdmitted {
    BadTable,
    UnfitState,
}

// Checks a table and then a state of it, for all that goes on from both: B, or what refuses them.
pub fn admit(t: &[u32], s: &[u32]) -> Result<u32, NotAdmitted>
    ensures { Admits t.now s.now result }
{
    let Ok(b) = check(t) else {
        return Err(NotAdmitted::BadTable);
    };
    if fits(t, s) {
        Ok(b)
    } else {
        Err(NotAdmitted::UnfitState)
    }
}

fn fresh_port(t: &Table, p: u32) -> u32
    ensures { result ≡ fresh_port t.now.words p }
{
    let port = t.port(p);
    let nothing = Port {
        defined: 0,
        marked: 0,
        value: 0,
        remaining: 0,
    };
    if port.has_initial == 1 {
        return u32::from(Port {
            defined: 1,
            value: port.initial,
            ..nothing
        });
    }
    if port.kind == PORT_MODE {
        return u32::from(nothing);
    }
    u32::from(Port {
        defined: 1,
        ..nothing
    })
}

fn fresh_rule(t: &Table, r: u32) -> u32
    ensures { result ≡ pack_rule (first_result t.now.words r) }
{
    pack_rule(t.rule(r).first_result)
}

// A thing's word in a fresh state.
#[tactic(auto, unfolding(rulebook::specs::State::fresh_thing))]
fn fresh_word(t: &Table, thing: Thing) -> u32
    ensures { result ≡ fresh_thing t.now.words (thing_of thing) }
{
    match thing {
        Thing::Port(p) => fresh_port(t, p),
        Thing::Rule(r) => fresh_rule(t, r),
        Thing::Network(_) | Thing::Source(_) => 0,
    }
}

fn write_fresh(t: &Table, s: &mut [u32])
    requires { length s.old ≡ state_length t.now.words }
    ensures { s.new ≡ fresh_of t.now.words }
{
    for i in 0..s.len() {
        s[i] = fresh_word(t, t.thing(i));
    }
}

// What refuses to make a fresh state.
#[derive(Clone, Copy, Debug, PartialEq, Eq)]
pub enum NotMade {
    BadTable,
    WrongLength,
}

// Makes a fresh state of the table in the lent words, or refuses and writes nothing.
pub fn fresh(t: &[u32], s: &mut [u32]) -> Result<(), NotMade>
    ensures { Fresh t.now s.old result s.new }
{
    let Ok(_) = check(t) else {
        return Err(NotMade::BadTable);
    };
    let table = Table::read(t);
    if s.len() != table.state_length() {
        return Err(NotMade::WrongLength);
    }
    write_fresh(&table, s);
    Ok(())
}
