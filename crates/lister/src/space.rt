// Zeroed arrays. Each comes from a call, so that a proof knows its length and does not spell out its elements.
ghost use Rattle.std.specs.Prelude.{◌≡◌, length};

// Room for the longest listing: 3,185 words, and no line has more than 47 bytes.
pub fn listing_bytes() -> [u8; 163840]
    ensures { 163840 ≡ length result }
{
    [0; 163840]
}

// Room for a reason, a number of 32 bits, and a newline.
pub fn reason_bytes() -> [u8; 11]
    ensures { 11 ≡ length result }
{
    [0; 11]
}
