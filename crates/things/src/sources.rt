// Sources: what a wakeup, its validation, its clearing and a tick do to one.
ghost use Rattle.std.specs.Prelude.{cond, ◌≡◌, eqb};
ghost use Rattle.rulebook.specs.State.{status_pending, status_validated};
ghost use Rattle.rulebook.specs.Events.{move_source, wake as wake_of, validate as validate_of, clear as clear_of, tick_source};

use words::numbers::{STATUS_EXPIRED, STATUS_NONE, STATUS_PENDING, STATUS_VALIDATED};
use words::state::{set_port, set_source, source_in};
use words::table::Table;

// A change of status writes the source's port too, and marks it.
#[tactic(auto, unfolding(rulebook::specs::Events::move_source))]
fn move_source(t: &Table, s: &mut [u32], k: u32, status: u32, remaining: u32)
    ensures { s.new ≡ move_source t.now.words k status remaining s.old }
{
    let before = source_in(t, s, k);
    set_source(t, s, k, status, remaining);
    if status == before.status {
        return;
    }
    let source = t.source(k);
    set_port(s, source.port, 1, status, 0);
}

// The status that a wakeup gives: pending, or validated where the timeout is 0.
fn woken(timeout: u32) -> u32
    ensures { result ≡ cond (eqb timeout 0) status_validated status_pending }
{
    if timeout == 0 {
        STATUS_VALIDATED
    } else {
        STATUS_PENDING
    }
}

// A wakeup counts on none or expired; on a pending source it does not restart the timeout.
#[tactic(auto, unfolding(rulebook::specs::Events::wake))]
pub fn wake(t: &Table, s: &mut [u32], k: u32)
    ensures { s.new ≡ wake_of t.now.words k s.old }
{
    let c = source_in(t, s, k);
    let rests = (c.status == STATUS_NONE) | (c.status == STATUS_EXPIRED);
    if rests {
        let source = t.source(k);
        let next = woken(source.timeout);
        move_source(t, s, k, next, source.timeout);
    }
}

// A wakeup found valid: pending becomes validated.
#[tactic(auto, unfolding(rulebook::specs::Events::validate))]
pub fn validate(t: &Table, s: &mut [u32], k: u32)
    ensures { s.new ≡ validate_of t.now.words k s.old }
{
    let c = source_in(t, s, k);
    if c.status == STATUS_PENDING {
        move_source(t, s, k, STATUS_VALIDATED, 0);
    }
}

// A wakeup cleared: back to none.
#[tactic(auto, unfolding(rulebook::specs::Events::clear))]
pub fn clear(t: &Table, s: &mut [u32], k: u32)
    ensures { s.new ≡ clear_of t.now.words k s.old }
{
    move_source(t, s, k, STATUS_NONE, 0);
}

// A pending source counts down and at 0 expires.
#[tactic(auto, unfolding(rulebook::specs::Events::tick_source))]
pub fn tick_source(t: &Table, s: &mut [u32], k: u32)
    ensures { s.new ≡ tick_source t.now.words k s.old }
{
    let c = source_in(t, s, k);
    if c.status == STATUS_PENDING {
        if c.remaining <= 1 {
            move_source(t, s, k, STATUS_EXPIRED, 0);
        } else {
            move_source(t, s, k, STATUS_PENDING, c.remaining - 1);
        }
    }
}
