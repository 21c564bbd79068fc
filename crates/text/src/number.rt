// The lesser of two numbers, and a difference that never wraps. To go when no crate calls them: the library's `min` and `saturating_sub` say the same.
ghost use Rattle.std.specs.Prelude.{◌≡◌, ◌-◌, min};

pub fn least(a: usize, b: usize) -> usize
    ensures { result ≡ min a b }
{
    a.min(b)
}

// What is left of a past b; 0 where b is larger.
pub fn past(a: usize, b: usize) -> usize
    ensures { result ≡ a - b }
{
    a.saturating_sub(b)
}
