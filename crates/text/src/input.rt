// Single bytes, and bytes to words: four bytes each, high byte first; bytes past the last whole word are ignored.
ghost use Rattle.std.specs.Prelude.{◌≡◌, length, get_or};
ghost use Rattle.text.specs.Words.{words_of, word_at, Front};

// The byte at a place; past the end it reads as 0.
pub fn byte(bytes: &[u8], at: usize) -> u8
    ensures { result ≡ get_or bytes.now at 0 }
{
    bytes.get(at).copied().unwrap_or(0)
}

pub fn word_count(bytes: &[u8]) -> usize
    ensures { result ≡ length (words_of bytes.now) }
{
    bytes.len() / 4
}

// The i-th whole word; past the last one it reads as 0.
pub fn read_word(bytes: &[u8], i: usize) -> u32
    ensures { result ≡ word_at bytes.now i }
{
    let (words, _) = bytes.as_chunks::<4>();
    match words.get(i) {
        Some(word) => u32::from_be_bytes(*word),
        None => 0,
    }
}

// Fills the front of `words` with as many whole words as both have room for, and returns how many.
pub fn read_words(bytes: &[u8], words: &mut [u32]) -> usize
    ensures { Front (words_of bytes.now) words.old result words.new }
{
    let n = word_count(bytes).min(words.len());
    for (i, word) in words[..n].iter_mut().enumerate() {
        *word = read_word(bytes, i);
    }
    n
}
