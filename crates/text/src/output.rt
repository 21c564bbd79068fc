// Lines of text, and parts of lines, laid into lent bytes. What has no room is not begun: the answer is then the place that was asked
// for, and every line has at least two bytes, so a caller can tell. The place goes beside the bytes, and not into a type with them: `Put` and
// `PutAt`, on which the theorems of every crate above stand, speak of the two.
ghost use Rattle.std.specs.Prelude.{◌≡◌, [], ◌∷◌, ◌++◌, ◌%◌, ◌<◌, ◌≤◌};
ghost use Rattle.text.specs.Lines.{hex_digit, digits, places as places_of, decimal, hex_line, decimal_line};
ghost use Rattle.text.specs.Puts.{Put, PutWords, run as run_of};

// The capital hex digit of the lowest four bits.
fn digit(v: u64) -> u8
    ensures { result ≡ hex_digit (v % 16) }
{
    let d = (v % 16) as u8;
    if d < 10 { b'0' + d } else { b'A' - 10 + d }
}

// How many decimal digits a number has.
pub fn places(n: u64) -> usize
    ensures { result ≡ places_of n }
{
    match n.checked_ilog10() {
        Some(tens) => tens as usize + 1,
        None => 1,
    }
}

// Lays the last k digits of n in a base, and a byte that ends them, from the last to the first.
fn put_digits(out: &mut [u8], at: usize, n: u64, base: u64, k: usize, end: u8) -> usize
    requires { (0 < base) × (base ≤ 16) }
    ensures { Put (digits base k n ++ end ∷ []) out.old at result out.new }
{
    if out.len().saturating_sub(at) <= k {
        return at;
    }
    let last = at + k;
    out[last] = end;
    let mut rest = n;
    for i in (0..k).rev() {
        out[at + i] = digit(rest % base);
        rest /= base;
    }
    last + 1
}

// Lays a word's eight capital hex digits and a newline at a place, and returns the place after them.
pub fn put_hex_line(out: &mut [u8], at: usize, w: u32) -> usize
    ensures { Put (hex_line w) out.old at result out.new }
{
    put_digits(out, at, u64::from(w), 16, 8, b'\n')
}

// Lays a number's decimal digits and a byte that ends them at a place, and returns the place after them.
pub fn put_decimal(out: &mut [u8], at: usize, n: u64, end: u8) -> usize
    ensures { Put (decimal n ++ end ∷ []) out.old at result out.new }
{
    put_digits(out, at, n, 10, places(n), end)
}

// Lays a number's decimal digits and a newline at a place, and returns the place after them.
pub fn put_decimal_line(out: &mut [u8], at: usize, n: u32) -> usize
    ensures { Put (decimal_line n) out.old at result out.new }
{
    put_decimal(out, at, u64::from(n), b'\n')
}

// Lays bytes as they are, a label of a line, at a place, and returns the place after them.
pub fn put_label(out: &mut [u8], at: usize, label: &[u8]) -> usize
    ensures { Put label.now out.old at result out.new }
{
    let n = label.len();
    if out.len() < at || out.len() - at < n {
        return at;
    }
    out[at..at + n].copy_from_slice(label);
    at + n
}

// How many words were laid, and the place after their lines.
#[derive(Clone, Copy, Debug, PartialEq, Eq)]
pub struct Laid {
    pub words: usize,
    pub next: usize,
}

// The words from `from` up to `to`, as far as they go.
fn run(words: &[u32], from: usize, to: usize) -> &[u32]
    ensures { result.now ≡ run_of words.now from to }
{
    match words.get(from..to.min(words.len())) {
        Some(run) => run,
        None => &[],
    }
}

// Lays the hex lines of the words from `from` up to `to` at a place, as many whole lines as fit.
pub fn put_words(out: &mut [u8], at: usize, words: &[u32], from: usize, to: usize) -> Laid
    ensures { PutWords out.old at words.now from to result out.new }
{
    let words = run(words, from, to);
    let n = words.len().min(out.len().saturating_sub(at) / 9);
    let mut next = at;
    for word in &words[..n] {
        next = put_hex_line(out, next, *word);
    }
    Laid { words: n, next }
}
