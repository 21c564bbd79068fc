// `play TABLE EVENTS`: a whole file of events, played from the fresh state. Thin: it opens, reads and writes; what is printed is laid by
// `day`.
#![tactic(auto)]

ghost use Rattle.std.specs.Prelude.{◌≡◌, ◌+◌, ◌<◌, ◌^◌, ◌≤◌, length, take};
ghost use Rattle.rulebook.specs.State.{fresh};
ghost use Rattle.text.specs.Words.{words_of};
ghost use Rattle.day.specs.Printed.{in64};
ghost use Rattle.play.specs.Kept.{Loaded, Ready, Lent, Played, Goes, Ended};

mod space;

use files::{Source, print};
use text::input::read_words;

// The number of a part that ends because its trace is full. The next part starts with an empty one. A part tells it as a number, the one that
// is printed where a play ends, and so it is no variant here.
const TRACE_FULL: u32 = 3;

// More blocks than a play uses up, and few enough for the sum of their events.
const BLOCKS: u64 = 562949953421312;

// How many events were taken, their visits in 64 bits, and the number that ended the play, 0 behind its last event.
#[derive(Clone, Copy, Debug, PartialEq, Eq)]
struct Count {
    taken: u64,
    visits: u64,
    number: u32,
}

// The count of a play that goes on behind another.
fn counted(before: Count, next: Count) -> Count
    requires { before.taken + next.taken < 2 ^ 64 }
    ensures taken { result.taken ≡ before.taken + next.taken }
    ensures visits { result.visits ≡ in64 (before.visits + next.visits) }
    ensures number { result.number ≡ next.number }
{
    Count {
        taken: before.taken + next.taken,
        visits: before.visits.wrapping_add(next.visits),
        number: next.number,
    }
}

// A block that was played, and how many bytes the next one has, 0 to end.
#[derive(Clone, Copy, Debug, PartialEq, Eq)]
struct Turn {
    count: Count,
    bytes: usize,
}

// What stays as it is during a play: the host, the table, and the file of the events.
#[derive(Clone, Copy)]
struct Play<'a> {
    rt: HostRuntime,
    table: &'a [u32],
    events: Source<'a>,
}

impl Play<'_> {
    // Plays events in as many parts as the trace asks for and prints each part's lines. Where a write fails, the error has the count of the events
    // taken so far.
    fn play_events(
        &self,
        s: &mut [u32],
        trace: &mut [u32],
        es: &[u32],
        out: &mut [u8],
    ) -> Result<Count, Count>
        requires { Ready self.now.table.now s.old trace.old out.old }
        ensures { Played self.now.table.now s.old es.now result s.new }
    {
        let mut taken = 0;
        let mut visits: u64 = 0;
        // no `for`: each part says how many events it took
        loop {
            let part = day::play_part(self.table, s, trace, &es[taken..], out);
            taken += part.taken;
            visits = visits.wrapping_add(part.visits);
            let count = Count {
                taken: taken as u64,
                visits,
                number: part.number,
            };
            if !print(self.rt, &out[..part.bytes]) {
                return Err(Count { number: 0, ..count });
            }
            if part.number != TRACE_FULL {
                return Ok(count);
            }
        }
    }

    // Plays the words of a block.
    fn play_block(
        &self,
        s: &mut [u32],
        trace: &mut [u32],
        block: &[u8],
        out: &mut [u8],
    ) -> Result<Count, Count>
        requires { Ready self.now.table.now s.old trace.old out.old × (length block.now ≤ 65536) }
        ensures { Played self.now.table.now s.old (words_of block.now) result s.new }
    {
        let mut words = space::event_words();
        let count = read_words(block, &mut words);
        self.play_events(s, trace, &words[..count], out)
    }

    // Plays the n bytes of a block and reads the next one, unless this one ended the play. Where a write or a read fails, the error has the count
    // of the events taken.
    fn next_block(
        &self,
        s: &mut [u32],
        trace: &mut [u32],
        block: &mut [u8],
        n: usize,
        out: &mut [u8],
    ) -> Result<Turn, Count>
        requires { Loaded n block.old × Ready self.now.table.now s.old trace.old out.old }
        ensures { Goes self.now.table.now s.old (words_of (take n block.old)) result s.new block.new }
    {
        let count = self.play_block(s, trace, &block[..n], out)?;
        if count.number != 0 {
            return Ok(Turn { count, bytes: 0 });
        }
        match self.events.read_block(self.rt, block) {
            Some(bytes) => Ok(Turn { count, bytes }),
            None => Err(count),
        }
    }

    // Plays the first block and then those that the file still has, until an event is refused: the whole play's count, or in the error that of a
    // play that was stopped before its end. A proved loop has to end, and nothing says that a file does.
    fn play_file(
        &self,
        s: &mut [u32],
        trace: &mut [u32],
        block: &mut [u8],
        first: usize,
        out: &mut [u8],
    ) -> Result<Count, Count>
        requires { Loaded first block.old × Ready self.now.table.now s.old trace.old out.old }
        ensures { Ended self.now.table.now s.old (words_of (take first block.old)) result s.new }
    {
        let mut n = first;
        let mut day = Count {
            taken: 0,
            visits: 0,
            number: 0,
        };
        for _ in 0..BLOCKS {
            if n == 0 {
                return Ok(day);
            }
            match self.next_block(s, trace, block, n, out) {
                Ok(turn) => {
                    day = counted(day, turn.count);
                    n = turn.bytes;
                }
                Err(count) => return Err(counted(day, count)),
            }
            if day.number != 0 {
                return Ok(day);
            }
        }
        if n == 0 { Ok(day) } else { Err(day) }
    }

    // Makes the fresh state in the lent words and plays from it.
    fn play_fresh(
        &self,
        s: &mut [u32],
        trace: &mut [u32],
        block: &mut [u8],
        first: usize,
        out: &mut [u8],
    ) -> Result<Count, Count>
        requires { Loaded first block.old × Lent self.now.table.now s.old trace.old out.old }
        ensures { Ended self.now.table.now (fresh self.now.table.now) (words_of (take first block.old)) result s.new }
    {
        let _ = manager::make_fresh(self.table, s);
        self.play_file(s, trace, block, first, out)
    }

    // The lines that close a play: the state, then the count.
    fn print_end(&self, s: &[u32], day: Count, out: &mut [u8]) {
        let state = day::lay_state(self.table, s, out);
        if !print(self.rt, &out[..state]) {
            return;
        }
        let end = day::lay_end(out, day.taken, day.visits, day.number);
        print(self.rt, &out[..end]);
    }
}

// The day with a table: its reason, or its play from the fresh state.
fn open_play(rt: HostRuntime, t: &[u32], events: Source<'_>, block: &mut [u8], n: usize)
    requires { Loaded n block.old }
{
    let opening = match session::open(t) {
        Ok(opening) => opening,
        Err(refused) => {
            files::print_reason(rt, refused.reason, refused.place);
            return;
        }
    };
    let play = Play {
        rt,
        table: t,
        events,
    };
    let mut states = files::space::state_words();
    let mut trace = space::trace_words();
    let mut out = files::space::lines();
    let s = &mut states[..opening.state];
    if let Ok(day) = play.play_fresh(s, &mut trace, block, n, &mut out) {
        play.print_end(s, day, &mut out);
    }
}

// The events file is opened and its first block read before anything is printed.
fn events(rt: HostRuntime, t: &[u32], path: &mut [u8]) {
    let mut block = files::space::block_bytes();
    let Some(file) = files::open(rt, 2, b"EVENTS", b"play TABLE EVENTS", path, &mut block) else {
        return;
    };
    let events = Source {
        file: &file.source,
        name: &path[..file.named],
    };
    open_play(rt, t, events, &mut block, file.bytes);
}

fn main(rt: HostRuntime) {
    let mut path = files::space::path_bytes();
    let mut words = files::space::table_words();
    if let Some(n) = files::read_table(rt, b"play TABLE EVENTS", &mut path, &mut words) {
        events(rt, &words[..n], &mut path);
    }
}
