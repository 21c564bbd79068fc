// Files, as every program here meets them: named by an argument, read in blocks or as a table, and standard output. What goes wrong is
// told on standard error by the function that meets it, so a caller only ends.
#![tactic(auto)]

ghost use Rattle.std.specs.Prelude.{◌≡◌, ◌+◌, ◌≤◌, length, take, IfOk, IfSome};
ghost use Rattle.files.specs.Counts.{IsPrefixLen};
ghost use Rattle.files.specs.Holds.{Holds, FillsIf};

pub mod faults;
pub mod space;

use faults::{NOT_TEXT, TOO_LONG, fail, say_bytes, told};
use std::env::{Env, FillError};
use std::fs;
use std::io::{self, Print, Read};
use text::input::read_words;

// Puts the i-th argument at the front of the lent bytes. One that is empty counts as one that is not there.
pub fn read_argument(rt: HostRuntime, i: usize, word: &mut [u8]) -> Result<usize, FillError>
    ensures { IfOk result (λ n. IsPrefixLen n word.new) }
{
    match rt.arg(i, word)? {
        0 => Err(FillError::NotPresent),
        n => Ok(n),
    }
}

// Tells of an argument that is not there, or empty, or longer than a path can be.
pub fn missing(rt: HostRuntime, why: FillError, name: &[u8], usage: &[u8]) {
    match why {
        FillError::TooLong => fail(rt, name, io::Error::from_raw_os_error(TOO_LONG)),
        FillError::NotPresent => {
            say_bytes(rt, b"herringcart: ");
            say_bytes(rt, name);
            say_bytes(rt, b" is missing: ");
            say_bytes(rt, usage);
            say_bytes(rt, b"\n");
        }
    }
}

// A file that is open for reading, and the name by which a read that fails is told.
#[derive(Clone, Copy)]
pub struct Source<'a> {
    pub file: &'a fs::File,
    pub name: &'a [u8],
}

impl Source<'_> {
    // Reads once, into the block from a place on: how many bytes, none of them at the file's end; nothing where the read fails, which is told.
    fn read_some(self, rt: HostRuntime, block: &mut [u8], from: usize) -> Option<usize>
        requires { from ≤ length block.old }
        ensures read { IfSome result (λ n. from + n ≤ length block.old) }
        ensures stay { take from block.new ≡ take from block.old }
    {
        let mut reader = self.file;
        told(rt, self.name, reader.read(&mut block[from..]))
    }

    // Reads on behind the first `from` bytes of the block, which stay, until it is full or the file ends, so that only a file's last block can
    // end inside a word, from a pipe too. It counts those bytes with those read; where a read fails, which is told, the error has the count by then.
    pub fn read_on(self, rt: HostRuntime, block: &mut [u8], from: usize) -> Result<usize, usize>
        ensures { FillsIf from result block.old block.new }
    {
        let mut bytes = from.min(block.len());
        // no `for`: each read says how far it came
        while bytes < block.len() {
            let n = self.read_some(rt, block, bytes).ok_or(bytes)?;
            if n == 0 {
                break;
            }
            bytes += n;
        }
        Ok(bytes)
    }

    // Reads the next block: no bytes at the file's end, and nothing where a read fails, which is told.
    pub fn read_block(self, rt: HostRuntime, block: &mut [u8]) -> Option<usize>
        ensures { IfSome result (λ n. IsPrefixLen n block.new) }
    {
        self.read_on(rt, block, 0).ok()
    }
}

// A file, how many bytes of the lent path name it, and how many of its own stand in the lent block.
#[derive(Drop)]
pub struct File {
    pub source: fs::File,
    pub named: usize,
    pub bytes: usize,
}

// Opens the file with that name for reading. What fails is told.
fn open_path(rt: HostRuntime, path: &[u8]) -> Option<fs::File> {
    let Ok(name) = str::from_utf8(path) else {
        fail(rt, path, io::Error::from_raw_os_error(NOT_TEXT));
        return None;
    };
    told(rt, path, fs::File::open(&rt, name))
}

// Opens the file that the i-th argument names and reads its first block. What fails is told; of a missing argument its `name` and the
// program's `usage`.
pub fn open(
    rt: HostRuntime,
    i: usize,
    name: &[u8],
    usage: &[u8],
    path: &mut [u8],
    block: &mut [u8],
) -> Option<File>
    ensures { IfSome result (λ r. Holds r path.new block.new) }
{
    let named = match read_argument(rt, i, path) {
        Ok(named) => named,
        Err(why) => {
            missing(rt, why, name, usage);
            return None;
        }
    };
    let source = open_path(rt, &path[..named])?;
    let first = Source {
        file: &source,
        name: &path[..named],
    };
    let bytes = first.read_block(rt, block)?;
    Some(File {
        source,
        named,
        bytes,
    })
}

// Writes to standard output; false where it cannot, which is told.
pub fn print(rt: HostRuntime, out: &[u8]) -> bool {
    let written = Print::write_all(&rt.stdout(), out);
    told(rt, b"standard output", written).is_some()
}

// Reads the table that the first argument names into the lent words, and says how many; nothing where it cannot be read, which is told.
pub fn read_table(
    rt: HostRuntime,
    usage: &[u8],
    path: &mut [u8],
    words: &mut [u32],
) -> Option<usize>
    ensures { IfSome result (λ n. IsPrefixLen n words.new) }
{
    let mut bytes = space::table_bytes();
    let file = open(rt, 1, b"TABLE", usage, path, &mut bytes)?;
    Some(read_words(&bytes[..file.bytes], words))
}

// Prints the reason and the place of a table that is refused.
pub fn print_reason(rt: HostRuntime, reason: u32, place: u32) {
    let mut out = space::reason_lines();
    let n = session::lay_reason(&mut out, reason, place);
    print(rt, &out[..n]);
}
