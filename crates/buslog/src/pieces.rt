// The pieces of a line, each read at a place: bytes of one kind, and the byte that ends them.
ghost use Rattle.std.specs.Prelude.{◌≡◌, ◌+◌, ◌≤◌, length, drop};
ghost use Rattle.rulebook.specs.BusLog.{name_byte, bytes_of, value as value_of};
ghost use Rattle.buslog.specs.Pieces.{piece_of};
ghost use Rattle.buslog.specs.Inside.{ReadsPiece, Fits, Numbers};

use text::input::byte;

// The pieces of a log's line in their order, and a name's line in the list of the interfaces.
#[derive(Clone, Copy, Debug, PartialEq, Eq)]
pub enum Piece {
    Opening,
    Seconds,
    Micros,
    Gap,
    Name,
    Identifier,
    Pairs,
    ListedName,
}

#[tactic(auto, unfolding(rulebook::specs::BusLog::name_byte))]
fn is_name_byte(b: u8) -> bool
    ensures { result ≡ name_byte b }
{
    (b != b' ') & (b != b'\n')
}

// Whether a byte is of the piece's kind.
#[tactic(auto, unfolding(rulebook::specs::BusLog::no_byte, rulebook::specs::BusLog::digit, rulebook::specs::BusLog::hex_digit))]
fn has(p: Piece, b: u8) -> bool
    ensures { result ≡ (piece_of p).has b }
{
    match p {
        Piece::Opening | Piece::Gap => false,
        Piece::Seconds | Piece::Micros => b.is_ascii_digit(),
        Piece::Name | Piece::ListedName => is_name_byte(b),
        Piece::Identifier | Piece::Pairs => b.is_ascii_hexdigit(),
    }
}

// Whether a piece may have so many bytes.
#[tactic(auto, unfolding(rulebook::specs::BusLog::none, rulebook::specs::BusLog::one_to_ten, rulebook::specs::BusLog::six, rulebook::specs::BusLog::one_to_fifteen, rulebook::specs::BusLog::three_or_eight, rulebook::specs::BusLog::up_to_eight_pairs))]
fn may_have(p: Piece, n: usize) -> bool
    ensures { result ≡ (piece_of p).size n }
{
    match p {
        Piece::Opening | Piece::Gap => n == 0,
        Piece::Seconds => (1 <= n) & (n <= 10),
        Piece::Micros => n == 6,
        Piece::Name | Piece::ListedName => (1 <= n) & (n <= 15),
        Piece::Identifier => (n == 3) | (n == 8),
        Piece::Pairs => (n % 2 == 0) & (n <= 16),
    }
}

// The byte that ends it.
fn ending(p: Piece) -> u8
    ensures { result ≡ (piece_of p).end }
{
    match p {
        Piece::Opening => b'(',
        Piece::Seconds => b'.',
        Piece::Micros => b')',
        Piece::Gap | Piece::Name => b' ',
        Piece::Identifier => b'#',
        Piece::Pairs | Piece::ListedName => b'\n',
    }
}

// Where the bytes of a piece end that begin at a place.
pub fn bytes_end(text: &[u8], at: usize, p: Piece) -> usize
    requires { at ≤ length text.now }
    ensures { (result ≡ at + length (bytes_of (piece_of p) (drop at text.now))) × (result ≤ length text.now) }
{
    for end in at..text.len() {
        if !has(p, text[end]) {
            return end;
        }
    }
    text.len()
}

// Where the bytes of the piece end that stands at a place; the byte that ends it is there. Where the piece does not stand, the error is where its bytes
// end.
pub fn read_piece(text: &[u8], at: usize, p: Piece) -> Result<usize, usize>
    requires { at ≤ length text.now }
    ensures { ReadsPiece (piece_of p) text.now at result }
{
    let end = bytes_end(text, at, p);
    if may_have(p, end - at) & (byte(text, end) == ending(p)) {
        Ok(end)
    } else {
        Err(end)
    }
}

// What a decimal or hex digit is worth, in either case. Not by `to_digit`: `Numbers` promises the rulebook's worth of other bytes too.
#[tactic(auto, unfolding(rulebook::specs::BusLog::value))]
fn value(b: u8) -> u8
    ensures { result ≡ value_of b }
{
    match b {
        0..58 => b.saturating_sub(b'0'),
        58..71 => b - 55,
        _ => b.saturating_sub(87),
    }
}

// The number that digits spell in a base, behind a number that is read already.
pub fn read_number(digits: &[u8], base: u64, start: u64) -> u64
    requires { Fits digits.now base start }
    ensures { Numbers digits.now base start result }
{
    let mut n = start;
    for b in digits {
        n = n * base + u64::from(value(*b));
    }
    n
}
