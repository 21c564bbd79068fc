// Zeroed arrays. Each comes from a call, so that a proof knows its length and does not spell out its elements.
ghost use Rattle.std.specs.Prelude.{◌≡◌, length};

// Room for the events of a part, and for as many bytes as `files::space::lines` has.
pub fn event_words() -> [u32; 65536]
    ensures { 65536 ≡ length result }
{
    [0; 65536]
}

// Room for a decimal number and the byte that ends it.
pub fn number() -> [u8; 32]
    ensures { 32 ≡ length result }
{
    [0; 32]
}
