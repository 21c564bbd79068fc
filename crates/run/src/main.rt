// `run TABLE EVENTS`: document 01's program. Thin: it opens, reads and writes; what is printed is laid by `session`.
#![tactic(auto)]

ghost use Rattle.std.specs.Prelude.{◌≤◌, length, take};
ghost use Rattle.rulebook.specs.State.{fresh};
ghost use Rattle.text.specs.Words.{words_of};
ghost use Rattle.session.specs.Printed.{most};
ghost use Rattle.session.specs.Promises.{Ready};
ghost use Rattle.files.specs.Counts.{IsPrefixLen};
ghost use Rattle.run.specs.Kept.{Lent, TookBlock, Goes, Ran};

mod space;

use files::{Source, print};
use text::input::word_count;

// What stays as it is during a run: the host, the table, and the file of the events.
#[derive(Clone, Copy)]
struct Run<'a> {
    rt: HostRuntime,
    table: &'a [u32],
    events: Source<'a>,
}

impl Run<'_> {
    // Takes the events of a block and prints their lines; false where they cannot be written.
    fn run_block(&self, s: &mut [u32], trace: &mut [u32], block: &[u8], out: &mut [u8]) -> bool
        requires { Ready self.now.table.now s.old trace.old × (most ≤ length out.old) }
        ensures { TookBlock self.now.table.now s.old (words_of block.now) result s.new }
    {
        let total = word_count(block);
        let mut from = 0;
        // no `for`: each call says how many events it took
        while from < total {
            let taken = session::take_events(self.table, s, trace, block, from, out);
            if !print(self.rt, &out[..taken.bytes]) {
                return false;
            }
            from += taken.events;
        }
        true
    }

    // Runs the n bytes of a block and reads the next one: how many bytes it has, 0 at the file's end and where a read fails; nothing where the
    // lines of this one could not be written.
    fn next_block(
        &self,
        s: &mut [u32],
        trace: &mut [u32],
        block: &mut [u8],
        n: usize,
        out: &mut [u8],
    ) -> Option<usize>
        requires { IsPrefixLen n block.old × Ready self.now.table.now s.old trace.old × (most ≤ length out.old) }
        ensures { Goes self.now.table.now s.old (words_of (take n block.old)) result s.new block.new }
    {
        let written = self.run_block(s, trace, &block[..n], out);
        if !written {
            return None;
        }
        Some(self.events.read_block(self.rt, block).unwrap_or(0))
    }

    // Runs the first block and then those that the file still has; false where one was left before its end. A proved loop has to end, and
    // nothing says that a file does: no run uses up so many turns.
    fn run(&self, s: &mut [u32], trace: &mut [u32], block: &mut [u8], first: usize) -> bool
        requires { IsPrefixLen first block.old × Ready self.now.table.now s.old trace.old }
        ensures { Ran self.now.table.now s.old (words_of (take first block.old)) result s.new }
    {
        let mut out = files::space::lines();
        let mut n = first;
        for _ in 0..u64::MAX {
            if n == 0 {
                return true;
            }
            let Some(next) = self.next_block(s, trace, block, n, &mut out) else {
                return false;
            };
            n = next;
        }
        n == 0
    }

    // Makes the fresh state in the lent words and runs from it.
    fn run_fresh(&self, s: &mut [u32], trace: &mut [u32], block: &mut [u8], first: usize) -> bool
        requires { IsPrefixLen first block.old × Lent self.now.table.now s.old trace.old }
        ensures { Ran self.now.table.now (fresh self.now.table.now) (words_of (take first block.old)) result s.new }
    {
        let _ = manager::make_fresh(self.table, s);
        self.run(s, trace, block, first)
    }
}

// The session with a table: its reason, or its run from the fresh state.
fn open_run(rt: HostRuntime, t: &[u32], events: Source<'_>, block: &mut [u8], n: usize)
    requires { IsPrefixLen n block.old }
{
    let opening = match session::open(t) {
        Ok(opening) => opening,
        Err(refused) => {
            files::print_reason(rt, refused.reason, refused.place);
            return;
        }
    };
    let run = Run {
        rt,
        table: t,
        events,
    };
    let mut states = files::space::state_words();
    let mut traces = space::trace_words();
    let s = &mut states[..opening.state];
    let trace = &mut traces[..opening.trace];
    run.run_fresh(s, trace, block, n);
}

// The events file is opened and its first block read before anything is printed.
fn events(rt: HostRuntime, t: &[u32], path: &mut [u8]) {
    let mut block = files::space::block_bytes();
    let Some(file) = files::open(rt, 2, b"EVENTS", b"run TABLE EVENTS", path, &mut block) else {
        return;
    };
    let events = Source {
        file: &file.source,
        name: &path[..file.named],
    };
    open_run(rt, t, events, &mut block, file.bytes);
}

fn main(rt: HostRuntime) {
    let mut path = files::space::path_bytes();
    let mut words = files::space::table_words();
    if let Some(n) = files::read_table(rt, b"run TABLE EVENTS", &mut path, &mut words) {
        events(rt, &words[..n], &mut path);
    }
}
