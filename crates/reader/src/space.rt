// Zeroed arrays. Each comes from a call, so that a proof knows its length and does not spell out its elements.
ghost use Rattle.std.specs.Prelude.{◌≡◌, length};

// The front of a file that is read. No listing is longer than 3,185 lines of 47 bytes, 149,695 bytes: a longer file is bad at a line that stands
// in this front.
pub fn window() -> [u8; 163840]
    ensures { 163840 ≡ length result }
{
    [0; 163840]
}

// Room for the two lines that tell of a bad one: the first has at most 118 bytes, the second at most 111.
pub fn message() -> [u8; 256]
    ensures { 256 ≡ length result }
{
    [0; 256]
}
