// Zeroed arrays. Each comes from a call, so that a proof knows its length and does not spell out its elements.
ghost use Rattle.std.specs.Prelude.{◌≡◌, length};

// The words of a block.
pub fn event_words() -> [u32; 16384]
    ensures { 16384 ≡ length result }
{
    [0; 16384]
}

// Four times the largest B of an accepted table, so that a part takes many events.
pub fn trace_words() -> [u32; 16384]
    ensures { 16384 ≡ length result }
{
    [0; 16384]
}
