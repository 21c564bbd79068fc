// Words laid as a file has them: four bytes each, high byte first.
ghost use Rattle.std.specs.Prelude.{◌*◌, ◌≤◌, length};
ghost use Rattle.text.specs.Puts.{PutAt};
ghost use Rattle.text.specs.Raw.{bytes_in};

// Lays words at the front, and returns how many bytes they are.
pub fn lay_words(out: &mut [u8], words: &[u32]) -> usize
    requires { 4 * length words.now ≤ length out.old }
    ensures { PutAt (bytes_in words.now) out.old 0 result out.new }
{
    for (i, word) in words.iter().enumerate() {
        out[4 * i..4 * i + 4].copy_from_slice(&word.to_be_bytes());
    }
    4 * words.len()
}
