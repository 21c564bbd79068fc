// What `./herringcart check` prints for a table: its reason, its place and B, three decimal lines, laid into lent bytes.
#![tactic(auto)]

ghost use Rattle.verdict.specs.Verdict.{LaysVerdict};

use text::output::put_decimal_line;

// Lays the three lines at the front, or nothing where fewer than 33 bytes are lent, and returns how many bytes they are.
pub fn lay_verdict(t: &[u32], out: &mut [u8]) -> usize
    ensures { LaysVerdict t.now out.old result out.new }
{
    if out.len() < 33 {
        return 0;
    }
    let said = tables::numbers(tables::check(t));
    let reason = said.reason;
    let place = said.place as u32;
    let bound = said.bound;
    let second = put_decimal_line(out, 0, reason);
    let third = put_decimal_line(out, second, place);
    put_decimal_line(out, third, bound)
}
