// What is written to a port: by a request, by a thing that shows itself, and by a timer that counts down.
ghost use Rattle.std.specs.Prelude.{◌≡◌};
ghost use Rattle.rulebook.specs.Events.{tick_timer};
ghost use Rattle.things.specs.Requests.{Requested};

use words::numbers::{PORT_TIMER, TIMER_EXPIRED, TIMER_STARTED};
use words::state::{port_in, set_port};
use words::table::Table;

// A started timer counts down; at 0 it expires and is marked.
#[tactic(auto, unfolding(rulebook::specs::Events::tick_timer))]
pub fn tick_timer(t: &Table, s: &mut [u32], p: u32)
    ensures { s.new ≡ tick_timer t.now.words p s.old }
{
    let port = t.port(p);
    let c = port_in(s, p);
    let started = (port.kind == PORT_TIMER) & (c.value == TIMER_STARTED);
    if started {
        if c.remaining <= 1 {
            set_port(s, p, 1, TIMER_EXPIRED, 0);
        } else {
            set_port(s, p, c.marked, TIMER_STARTED, c.remaining - 1);
        }
    }
}

// The write of a request. The answer is whether the port is immediate, so that it is to be arbitrated now.
pub fn request_port(t: &Table, s: &mut [u32], p: u32, value: u32) -> bool
    ensures { Requested t.now.words p value s.old s.new result }
{
    let port = t.port(p);
    if port.deferred == 1 {
        set_port(s, p, 1, value, 0);
        return false;
    }
    set_port(s, p, 0, value, 0);
    true
}
