// Zeroed arrays. Each comes from a call, so that a proof knows its length and does not spell out its elements.
ghost use Rattle.std.specs.Prelude.{◌≡◌, ◌*◌, length};
ghost use Rattle.session.specs.Printed.{table_words};

// A table has at most 3,185 words. One more is read: whatever stands behind it, the reason is the same.
pub fn table_bytes() -> [u8; 12744]
    ensures { 4 * table_words ≡ length result }
{
    [0; 12744]
}

pub fn table_words() -> [u32; 3186]
    ensures { table_words ≡ length result }
{
    [0; 3186]
}

// The longest state of an accepted table.
pub fn state_words() -> [u32; 360]
    ensures { 360 ≡ length result }
{
    [0; 360]
}

// Room for the lines of many events, so that a write is seldom small.
pub fn lines() -> [u8; 262144]
    ensures { 262144 ≡ length result }
{
    [0; 262144]
}

// Room for the two lines of a reason.
pub fn reason_lines() -> [u8; 22]
    ensures { 22 ≡ length result }
{
    [0; 22]
}

// Room for any path of the system.
pub fn path_bytes() -> [u8; 4096]
    ensures { 4096 ≡ length result }
{
    [0; 4096]
}

// A block of a file that is read in blocks.
pub fn block_bytes() -> [u8; 65536]
    ensures { 65536 ≡ length result }
{
    [0; 65536]
}
