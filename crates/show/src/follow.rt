// An event's number and the panel that it leaves, laid where a line of the panel has changed.
ghost use Rattle.std.specs.Prelude.{◌≡◌, ◌≤◌, length};
ghost use Rattle.rulebook.specs.Marked.{same as same_bytes};
ghost use Rattle.text.specs.Puts.{PutAt};
ghost use Rattle.panel.specs.Printed.{panel};
ghost use Rattle.show.specs.Printed.{event_line};
ghost use Rattle.show.specs.Promises.{most_panel, Shown, Watched, LaysChange};

use text::output::{put_decimal, put_label};

// Whether two runs of bytes are the same.
fn same(a: &[u8], b: &[u8]) -> bool
    ensures { result ≡ same_bytes a.now b.now }
{
    a == b
}

// Lays an event's number at the front.
pub fn lay_number(out: &mut [u8], number: u64) -> usize
    requires { 27 ≤ length out.old }
    ensures { PutAt (event_line number) out.old 0 result out.new × (result ≤ 27) }
{
    let next = put_label(out, 0, b"event ");
    put_decimal(out, next, number, b'\n')
}

// Lays a panel at the front, where everything stands and there is room.
pub fn lay_left(o: u32, t: &[u32], s: &[u32], ws: &[u32], out: &mut [u8]) -> usize
    requires { Shown o t.now s.now ws.now out.old }
    ensures { PutAt (panel o t.now s.now ws.now) out.old 0 result out.new × (result ≤ most_panel) }
{
    let shown = panel::show(o, t, s, ws, out);
    panel::bytes(shown)
}

// Whether a line has changed, and how many bytes the panel now has. They are the panel's either way, as `LaysChange` says, and so no Option.
#[derive(Clone, Copy, Debug, PartialEq, Eq)]
pub struct Changed {
    pub changed: bool,
    pub kept: usize,
}

// Lays the panel that an event left at the front of `out`; `found` has the panel that it found, in its first `kept` bytes, and gets the
// other where a line has changed.
pub fn lay_change(
    o: u32,
    t: &[u32],
    s: &[u32],
    ws: &[u32],
    found: &mut [u8],
    kept: usize,
    out: &mut [u8],
) -> Changed
    requires { Watched o t.now s.now ws.now found.old kept out.old }
    ensures { LaysChange o t.now s.now ws.now found.old kept result found.new out.new }
{
    let n = lay_left(o, t, s, ws, out);
    if same(&found[..kept], &out[..n]) {
        return Changed {
            changed: false,
            kept,
        };
    }
    let next = put_label(found, 0, &out[..n]);
    Changed {
        changed: true,
        kept: next,
    }
}
