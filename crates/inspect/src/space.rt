// Zeroed arrays. Each comes from a call, so that a proof knows its length and does not spell out its elements.
ghost use Rattle.std.specs.Prelude.{◌≡◌, length};

// Room for the three lines of a verdict.
pub fn lines() -> [u8; 33]
    ensures { 33 ≡ length result }
{
    [0; 33]
}
