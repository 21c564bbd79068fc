// Zeroed arrays. Each comes from a call, so that a proof knows its length and does not spell out its elements.
ghost use Rattle.std.specs.Prelude.{◌≡◌, length};

// The largest B of an accepted table.
pub fn trace_words() -> [u32; 4096]
    ensures { 4096 ≡ length result }
{
    [0; 4096]
}

// Room for the words of a recording.
pub fn recorded_words() -> [u32; 8192]
    ensures { 8192 ≡ length result }
{
    [0; 8192]
}

// Room for a decimal number and the byte that ends it.
pub fn number() -> [u8; 32]
    ensures { 32 ≡ length result }
{
    [0; 32]
}

// Room for the last line.
pub fn total() -> [u8; 96]
    ensures { 96 ≡ length result }
{
    [0; 96]
}
