// What requests, wakeups, bus-offs, traffic heard and ticks do to the lent state: everything but arbitration.
#![tactic(auto)]

ghost use Rattle.std.specs.Prelude.{◌≡◌};
ghost use Rattle.rulebook.specs.Events.{tick_things, changed};

use words::numbers::{EVENT_BUS_OFF, EVENT_CLEAR, EVENT_VALID, EVENT_WAKEUP};
use words::table::Table;

pub mod networks;
pub mod ports;
pub mod sources;

// A tick, but for the arbitration that ends it: networks, then sources, then timers, each by number.
pub fn tick_things(t: &Table, s: &mut [u32])
    ensures { s.new ≡ tick_things t.now.words s.old }
{
    for n in 0..t.networks() {
        networks::tick_network(t, s, n);
    }
    for k in 0..t.sources() {
        sources::tick_source(t, s, k);
    }
    for p in 0..t.ports() {
        ports::tick_timer(t, s, p);
    }
}

// What an event that asks for no arbitration does, by its kind and the number of its thing.
#[tactic(auto, unfolding(rulebook::specs::Events::changed))]
pub fn change(t: &Table, s: &mut [u32], kind: u32, i: u32)
    ensures { s.new ≡ changed t.now.words kind i s.old }
{
    match kind {
        EVENT_WAKEUP => sources::wake(t, s, i),
        EVENT_VALID => sources::validate(t, s, i),
        EVENT_BUS_OFF => networks::bus_off(t, s, i),
        EVENT_CLEAR => sources::clear(t, s, i),
        _ => networks::hear(t, s, i),
    }
}
