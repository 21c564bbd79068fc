// Networks: what a bus-off, traffic heard and a tick do to one. A network is handed on by value, by its named fields.
ghost use Rattle.std.specs.Prelude.{◌≡◌};
ghost use Rattle.rulebook.specs.Events.{shown as shown_of, moved as moved_of, move_network, takes as takes_of, wait as wait_of, off_bus};
ghost use Rattle.rulebook.specs.Events.{counter_plus_one, bus_off, listens as listens_of, hearing as hearing_of, hear as hear_of};
ghost use Rattle.rulebook.specs.Events.{counted_network, ticked_network, tick_network};
ghost use Rattle.words.specs.State.{network_as};

use words::numbers::{
    ASKED_FULL, ASKED_NONE, ASKED_SILENT, STATE_CHECK, STATE_FULL, STATE_NONE, STATE_RECOVER,
    STATE_SILENT,
};
use words::state::{Network, network_in, set_network, set_port};
use words::table::Table;

// The same network in another state; what it is asked for stays, and nothing heard does.
fn moved(state: u32, counter: u32, remaining: u32, c: Network) -> Network
    ensures { network_as result ≡ moved_of state counter remaining (network_as c) }
{
    Network {
        state,
        counter,
        heard: 0,
        remaining,
        ..c
    }
}

// The mode that a state shows on the network's port: check and full alike.
#[tactic(auto, unfolding(rulebook::specs::Events::shown))]
fn shown(state: u32) -> u32
    ensures { result ≡ shown_of state }
{
    match state {
        STATE_NONE => 0,
        STATE_SILENT => 1,
        STATE_RECOVER => 3,
        _ => 2,
    }
}

// A change of the shown mode writes the network's port too, and marks it.
#[tactic(auto, unfolding(rulebook::specs::Events::move_network))]
fn move_network(t: &Table, s: &mut [u32], n: u32, c: Network)
    ensures { s.new ≡ move_network t.now.words n (network_as c) s.old }
{
    let before = network_in(t, s, n);
    let showed = shown(before.state);
    let shows = shown(c.state);
    set_network(t, s, n, c);
    if shows == showed {
        return;
    }
    let network = t.network(n);
    set_port(s, network.port, 1, shows, 0);
}

// Whether a bus-off is taken: in check or full alone.
#[tactic(auto, unfolding(rulebook::specs::Events::takes))]
fn takes(c: Network) -> bool
    ensures { result ≡ takes_of (network_as c) }
{
    let state = c.state;
    (state == STATE_CHECK) | (state == STATE_FULL)
}

// The counter after one bus-off more, held at 255.
fn counted_up(c: Network) -> u32
    ensures { result ≡ counter_plus_one (network_as c) }
{
    c.counter.saturating_add(1).min(255)
}

// How long a network recovers, by its new counter.
#[tactic(auto, unfolding(rulebook::specs::Events::wait))]
fn wait(t: &Table, n: u32, counter: u32) -> u32
    ensures { result ≡ wait_of t.now.words n counter }
{
    let network = t.network(n);
    let waits = t.waits(n);
    if counter <= network.threshold {
        waits.l1
    } else {
        waits.l2
    }
}

#[tactic(auto, unfolding(rulebook::specs::Events::off_bus))]
fn off_bus(t: &Table, n: u32, counter: u32, c: Network) -> Network
    ensures { network_as result ≡ off_bus t.now.words n counter (network_as c) }
{
    let remaining = wait(t, n, counter);
    moved(STATE_RECOVER, counter, remaining, c)
}

#[tactic(auto, unfolding(rulebook::specs::Events::bus_off))]
pub fn bus_off(t: &Table, s: &mut [u32], n: u32)
    ensures { s.new ≡ bus_off t.now.words n s.old }
{
    let c = network_in(t, s, n);
    if takes(c) {
        let counter = counted_up(c);
        let off = off_bus(t, n, counter, c);
        move_network(t, s, n, off);
    }
}

// Whether a network takes note of traffic: in check alone.
#[tactic(auto, unfolding(rulebook::specs::Events::listens))]
fn listens(c: Network) -> bool
    ensures { result ≡ listens_of (network_as c) }
{
    c.state == STATE_CHECK
}

// The same network, heard.
fn hearing(c: Network) -> Network
    ensures { network_as result ≡ hearing_of (network_as c) }
{
    Network { heard: 1, ..c }
}

#[tactic(auto, unfolding(rulebook::specs::Events::hear))]
pub fn hear(t: &Table, s: &mut [u32], n: u32)
    ensures { s.new ≡ hear_of t.now.words n s.old }
{
    let c = network_in(t, s, n);
    if listens(c) {
        let heard = hearing(c);
        move_network(t, s, n, heard);
    }
}

// Recover and check count down; at 0, or heard, check becomes full with counter 0; at 0 recover becomes check with E-ticks.
#[tactic(auto, unfolding(rulebook::specs::Events::counted_network))]
fn counted_network(t: &Table, n: u32, c: Network) -> Network
    ensures { network_as result ≡ counted_network t.now.words n (network_as c) }
{
    let state = c.state;
    let remaining = c.remaining;
    if state == STATE_RECOVER {
        if remaining <= 1 {
            let waits = t.waits(n);
            return moved(STATE_CHECK, c.counter, waits.e_ticks, c);
        }
        return moved(STATE_RECOVER, c.counter, remaining - 1, c);
    }
    if state == STATE_CHECK {
        let ends = (c.heard == 1) | (remaining <= 1);
        if ends {
            return moved(STATE_FULL, 0, 0, c);
        }
        return moved(STATE_CHECK, c.counter, remaining - 1, c);
    }
    c
}

// A tick takes a network to the mode that it is asked for, or counts it on: one transition a tick.
#[tactic(auto, unfolding(rulebook::specs::Events::ticked_network))]
fn ticked_network(t: &Table, n: u32, c: Network) -> Network
    ensures { network_as result ≡ ticked_network t.now.words n (network_as c) }
{
    let asked = c.asked;
    let state = c.state;
    if asked == ASKED_NONE {
        return moved(STATE_NONE, 0, 0, c);
    }
    let silenced = (asked == ASKED_SILENT) & !(state == STATE_NONE);
    if silenced {
        return moved(STATE_SILENT, 0, 0, c);
    }
    let opened = (asked == ASKED_FULL) & ((state == STATE_NONE) | (state == STATE_SILENT));
    if opened {
        let waits = t.waits(n);
        return moved(STATE_CHECK, 0, waits.e_ticks, c);
    }
    counted_network(t, n, c)
}

#[tactic(auto, unfolding(rulebook::specs::Events::tick_network))]
pub fn tick_network(t: &Table, s: &mut [u32], n: u32)
    ensures { s.new ≡ tick_network t.now.words n s.old }
{
    let c = network_in(t, s, n);
    let ticked = ticked_network(t, n, c);
    move_network(t, s, n, ticked);
}
