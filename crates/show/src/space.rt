// Zeroed arrays. Each comes from a call, so that a proof knows its length and does not spell out its elements.
ghost use Rattle.std.specs.Prelude.{◌≡◌, length};

// The largest B of an accepted table.
pub fn trace_words() -> [u32; 4096]
    ensures { 4096 ≡ length result }
{
    [0; 4096]
}

// Room for the longest panel.
pub fn panel_bytes() -> [u8; 63624]
    ensures { 63624 ≡ length result }
{
    [0; 63624]
}

// Room for an event's number.
pub fn number_bytes() -> [u8; 27]
    ensures { 27 ≡ length result }
{
    [0; 27]
}
