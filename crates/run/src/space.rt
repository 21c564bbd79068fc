// Zeroed arrays. Each comes from a call, so that a proof knows its length and does not spell out its elements.
ghost use Rattle.std.specs.Prelude.{◌≡◌, length};

// The largest B of an accepted table.
pub fn trace_words() -> [u32; 4096]
    ensures { 4096 ≡ length result }
{
    [0; 4096]
}
