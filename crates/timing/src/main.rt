// `cost TABLE EVENTS`: what each event costs. Thin: it opens, reads and writes; what is printed is laid by `visits`.
#![tactic(auto)]

ghost use Rattle.std.specs.Prelude.{◌≤◌, length, take};
ghost use Rattle.rulebook.specs.State.{fresh};
ghost use Rattle.text.specs.Words.{words_of};
ghost use Rattle.visits.specs.Printed.{nothing as nothing_yet};
ghost use Rattle.visits.specs.Promises.{Countable as CountableFrom};
ghost use Rattle.timing.specs.Kept.{Loaded, Lent, Going, Countable, Timed, Goes, Ended};

mod space;

use files::{Source, print};
use text::input::word_count;
use visits::Most;

// More blocks than a run uses up, and few enough for the numbers of their events.
const BLOCKS: u64 = 562949953421312;

// The largest counts with a block's events, and how many bytes the next one has, 0 to end.
#[derive(Clone, Copy)]
struct Turn {
    most: Most,
    bytes: usize,
}

// What stays as it is during a run: the host, the table, and the file of the events.
#[derive(Clone, Copy)]
struct Timing<'a> {
    rt: HostRuntime,
    table: &'a [u32],
    events: Source<'a>,
}

impl Timing<'_> {
    // Takes the events of a block and prints their lines: the largest counts with them. Where a write fails, the error has those with the events
    // taken so far.
    fn time_block(
        &self,
        s: &mut [u32],
        trace: &mut [u32],
        block: &[u8],
        most: Most,
        out: &mut [u8],
    ) -> Result<Most, Most>
        requires { Going self.now.table.now s.old trace.old out.old × CountableFrom most block.now 0 }
        ensures { Timed self.now.table.now s.old (words_of block.now) most result s.new }
    {
        let total = word_count(block);
        let mut so_far = most;
        let mut from = 0;
        // no `for`: each call says how many events it took
        while from < total {
            let taken = visits::take_events(self.table, s, trace, block, from, so_far, out);
            so_far = taken.most;
            if !print(self.rt, &out[..taken.bytes]) {
                return Err(so_far);
            }
            from += taken.events;
        }
        Ok(so_far)
    }

    // Takes the events of the n bytes of a block and reads the next one. Where a write or a read fails, the error has the largest counts with the
    // events taken.
    fn next_block(
        &self,
        s: &mut [u32],
        trace: &mut [u32],
        block: &mut [u8],
        n: usize,
        most: Most,
        out: &mut [u8],
    ) -> Result<Turn, Most>
        requires { Loaded n block.old × Going self.now.table.now s.old trace.old out.old × Countable most }
        ensures { Goes self.now.table.now s.old (words_of (take n block.old)) most result s.new block.new }
    {
        let most = self.time_block(s, trace, &block[..n], most, out)?;
        match self.events.read_block(self.rt, block) {
            Some(bytes) => Ok(Turn { most, bytes }),
            None => Err(most),
        }
    }

    // Takes the events of the first block and then those that the file still has: the largest counts of the whole file, or in the error those of a
    // run that was stopped before its end. A proved loop has to end, and nothing says that a file does.
    fn time_file(
        &self,
        s: &mut [u32],
        trace: &mut [u32],
        block: &mut [u8],
        first: usize,
        out: &mut [u8],
    ) -> Result<Most, Most>
        requires { Loaded first block.old × Going self.now.table.now s.old trace.old out.old }
        ensures { Ended self.now.table.now s.old (words_of (take first block.old)) nothing_yet result s.new }
    {
        let mut n = first;
        let mut most = visits::nothing();
        for _ in 0..BLOCKS {
            if n == 0 {
                return Ok(most);
            }
            let turn = self.next_block(s, trace, block, n, most, out)?;
            most = turn.most;
            n = turn.bytes;
        }
        if n == 0 { Ok(most) } else { Err(most) }
    }

    // Makes the fresh state in the lent words and takes the events from it.
    fn time_fresh(
        &self,
        s: &mut [u32],
        trace: &mut [u32],
        block: &mut [u8],
        first: usize,
        out: &mut [u8],
    ) -> Result<Most, Most>
        requires { Loaded first block.old × Lent self.now.table.now s.old trace.old out.old }
        ensures { Ended self.now.table.now (fresh self.now.table.now) (words_of (take first block.old)) nothing_yet result s.new }
    {
        let _ = manager::make_fresh(self.table, s);
        self.time_file(s, trace, block, first, out)
    }

    // The lines that close a file: the largest counts and what they are never above.
    fn print_end(&self, most: Most, out: &mut [u8]) {
        let end = visits::lay_most(out, self.table, most);
        print(self.rt, &out[..end]);
    }
}

// The events with a table: its reason, or what they cost from the fresh state on.
fn cost(rt: HostRuntime, t: &[u32], events: Source<'_>, block: &mut [u8], n: usize)
    requires { Loaded n block.old }
{
    let opening = match session::open(t) {
        Ok(opening) => opening,
        Err(refused) => {
            files::print_reason(rt, refused.reason, refused.place);
            return;
        }
    };
    let timing = Timing {
        rt,
        table: t,
        events,
    };
    let mut states = files::space::state_words();
    let mut traces = space::trace_words();
    let mut out = files::space::lines();
    let s = &mut states[..opening.state];
    let trace = &mut traces[..opening.trace];
    if let Ok(most) = timing.time_fresh(s, trace, block, n, &mut out) {
        timing.print_end(most, &mut out);
    }
}

// The events file is opened and its first block read before anything is printed.
fn events(rt: HostRuntime, t: &[u32], path: &mut [u8]) {
    let mut block = files::space::block_bytes();
    let Some(file) = files::open(rt, 2, b"EVENTS", b"cost TABLE EVENTS", path, &mut block) else {
        return;
    };
    let events = Source {
        file: &file.source,
        name: &path[..file.named],
    };
    cost(rt, t, events, &mut block, file.bytes);
}

fn main(rt: HostRuntime) {
    let mut path = files::space::path_bytes();
    let mut words = files::space::table_words();
    if let Some(n) = files::read_table(rt, b"cost TABLE EVENTS", &mut path, &mut words) {
        events(rt, &words[..n], &mut path);
    }
}
