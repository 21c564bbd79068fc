// Words: the fields of one, and reading and writing of lent words that never fails.
#![tactic(auto)]

ghost use Rattle.std.specs.Prelude.{◌≡◌, ◌+◌, ◌^◌, ◌<◌, ◌≤◌, set};
ghost use Rattle.rulebook.specs.Words.{digit, field, word as word_of};
ghost use Rattle.words.specs.Field.{Field, Sized};
ghost use Rattle.words.specs.Flags.{flagged};

pub mod expressions;
pub mod numbers;
pub mod parts;
pub mod sections;
pub mod state;
pub mod table;

// `digit` of the rulebook, by any unit and size: how many whole units w has, beyond whole multiples of `size` of them.
pub fn field(w: u32, unit: u32, size: u32) -> u32
    requires { Sized unit size }
    ensures { Field (digit unit size w) size result }
{
    w / unit % size
}

// The field of a word that START bits stand before, WIDTH bits wide.
pub fn bits<const START: u32, const WIDTH: u32>(w: u32) -> u32
    requires { (0 < WIDTH) × (WIDTH < 32) × (START + WIDTH ≤ 32) }
    ensures { Field (field START WIDTH w) (2 ^ WIDTH) result }
{
    (w >> (32 - START - WIDTH)) % (1 << WIDTH)
}

// The word at an index; past the end it reads as 0.
pub fn word(ws: &[u32], i: usize) -> u32
    ensures { result ≡ word_of ws.now i }
{
    ws.get(i).copied().unwrap_or(0)
}

// Writes a word; past the end nothing is written.
pub fn put(ws: &mut [u32], i: usize, w: u32)
    ensures { ws.new ≡ set ws.old i w }
{
    if i < ws.len() {
        ws[i] = w;
    }
}

// Whether a number's flag is up in lent flags, a word each; past the end none is.
pub fn flag(flags: &[u32], i: u32) -> bool
    ensures { result ≡ flagged flags.now i }
{
    word(flags, i as usize) != 0
}
