// `panel OPERATOR TABLE EVENTS [--follow]`, its words in the order TABLE EVENTS OPERATOR [follow]. Thin: it opens, reads and writes; what is
// printed is laid by `follow`.
#![tactic(auto)]

ghost use Rattle.std.specs.Prelude.{◌≡◌, ◌≤◌, true, IfSome, length, take};
ghost use Rattle.text.specs.Words.{words_of};
ghost use Rattle.files.specs.Counts.{IsPrefixLen};
ghost use Rattle.show.specs.Promises.{Shown};
ghost use Rattle.panel.specs.Printed.{operator as is_operator};
ghost use Rattle.show.specs.Printed.{with_digit, number_from};
ghost use Rattle.show.specs.Kept.{Lent, Going, WatchedOne, WatchedBlock, Goes, Ended, EndedFresh};

mod follow;
mod space;

use files::faults::say_bytes;
use files::{Source, print};
use follow::{Changed, lay_change, lay_left, lay_number};
use text::input::{read_word, word_count};
use words::table::Table;

// The next event's number in 64 bits, how many trace words the newest step wrote, and how many bytes the panel has that the next event
// finds.
#[derive(Clone, Copy, Debug, PartialEq, Eq)]
struct Seen {
    events: u64,
    count: usize,
    kept: usize,
}

// What was seen behind a block, and how many bytes the next one has, 0 to end.
#[derive(Clone, Copy, Debug, PartialEq, Eq)]
struct Turn {
    seen: Seen,
    bytes: usize,
}

// Prints an event's number and the panel that stands at the front of `out`, where a line of it has changed; false where it cannot.
fn print_change(rt: HostRuntime, number: u64, changed: Changed, out: &[u8]) -> bool
    requires { changed.kept ≤ length out.now }
{
    if !changed.changed {
        return true;
    }
    let mut line = space::number_bytes();
    let n = lay_number(&mut line, number);
    print(rt, &line[..n]) && print(rt, &out[..changed.kept])
}

// What stays as it is while events are taken: the host, the operator, whether each event is followed, the table, and the file of the
// events.
#[derive(Drop)]
struct Watch<'a> {
    rt: HostRuntime,
    operator: u32,
    following: bool,
    table: Table<'a>,
    events: Source<'a>,
}

impl Watch<'_> {
    // Takes one event and, where each is followed, prints what has changed: what was seen, in an error where that cannot be written.
    fn watch_one(
        &self,
        e: u32,
        s: &mut [u32],
        trace: &mut [u32],
        seen: Seen,
        found: &mut [u8],
        out: &mut [u8],
    ) -> Result<Seen, Seen>
        requires { Going self.now.operator self.now.table.words s.old trace.old seen found.old out.old }
        ensures { WatchedOne self.now.operator self.now.table.words e s.old trace.old result s.new trace.new found.new out.new }
    {
        let answer = session::take(&self.table, e, s, trace);
        let count = events::count(answer);
        let events = seen.events.wrapping_add(1);
        if !self.following {
            return Ok(Seen {
                events,
                count,
                ..seen
            });
        }
        let t = self.table.words();
        let changed = lay_change(self.operator, t, s, &trace[..count], found, seen.kept, out);
        let written = print_change(self.rt, seen.events, changed, out);
        let seen = Seen {
            events,
            count,
            kept: changed.kept,
        };
        if written { Ok(seen) } else { Err(seen) }
    }

    // Takes the events of a block: what was seen behind them, or in an error behind the one whose change could not be written.
    fn watch_block(
        &self,
        s: &mut [u32],
        trace: &mut [u32],
        block: &[u8],
        from: Seen,
        found: &mut [u8],
        out: &mut [u8],
    ) -> Result<Seen, Seen>
        requires { Going self.now.operator self.now.table.words s.old trace.old from found.old out.old }
        ensures { WatchedBlock self.now.operator self.now.table.words s.old (take from.count trace.old) (words_of block.now)
            result s.new trace.new found.new out.new }
    {
        let mut seen = from;
        for i in 0..word_count(block) {
            let e = read_word(block, i);
            seen = self.watch_one(e, s, trace, seen, found, out)?;
        }
        Ok(seen)
    }

    // Takes the events of the n bytes of a block and reads the next one. Where a write or a read fails, the error has what was seen.
    fn next_block(
        &self,
        s: &mut [u32],
        trace: &mut [u32],
        block: &mut [u8],
        n: usize,
        from: Seen,
        found: &mut [u8],
        out: &mut [u8],
    ) -> Result<Turn, Seen>
        requires { IsPrefixLen n block.old × Going self.now.operator self.now.table.words s.old trace.old from found.old out.old }
        ensures { Goes self.now.operator self.now.table.words s.old (take from.count trace.old) (words_of (take n block.old))
            result s.new trace.new block.new found.new out.new }
    {
        let seen = self.watch_block(s, trace, &block[..n], from, found, out)?;
        match self.events.read_block(self.rt, block) {
            Some(bytes) => Ok(Turn { seen, bytes }),
            None => Err(seen),
        }
    }

    // Takes the events of the first block and then those that the file still has: what was seen behind the last one, or in an error of a run that
    // was stopped before its end. A proved loop has to end, and nothing says that a file does: no run uses up so many turns.
    fn watch_file(
        &self,
        s: &mut [u32],
        trace: &mut [u32],
        block: &mut [u8],
        first: usize,
        from: Seen,
        found: &mut [u8],
        out: &mut [u8],
    ) -> Result<Seen, Seen>
        requires { IsPrefixLen first block.old × Going self.now.operator self.now.table.words s.old trace.old from found.old out.old }
        ensures { Ended self.now.operator self.now.table.words s.old (take from.count trace.old) (words_of (take first block.old))
            result s.new trace.new found.new out.new }
    {
        let mut n = first;
        let mut seen = from;
        for _ in 0..u64::MAX {
            if n == 0 {
                return Ok(seen);
            }
            let turn = self.next_block(s, trace, block, n, seen, found, out)?;
            seen = turn.seen;
            n = turn.bytes;
        }
        if n == 0 { Ok(seen) } else { Err(seen) }
    }

    // Makes the fresh state in the lent words, lays its panel as the one that the first event finds, and takes the events from there.
    fn watch_fresh(
        &self,
        s: &mut [u32],
        trace: &mut [u32],
        block: &mut [u8],
        first: usize,
        found: &mut [u8],
        out: &mut [u8],
    ) -> Result<Seen, Seen>
        requires { IsPrefixLen first block.old × Lent self.now.operator self.now.table.words s.old trace.old found.old out.old }
        ensures { EndedFresh self.now.operator self.now.table.words (words_of (take first block.old)) result s.new trace.new out.new }
    {
        let t = self.table.words();
        let _ = manager::make_fresh(t, s);
        let kept = lay_left(self.operator, t, s, &[], found);
        let from = Seen {
            events: 0,
            count: 0,
            kept,
        };
        self.watch_file(s, trace, block, first, from, found, out)
    }

    // Prints the panel of a state and the newest step's trace words.
    fn print_last(&self, s: &[u32], ws: &[u32], out: &mut [u8])
        requires { Shown self.now.operator self.now.table.words s.now ws.now out.old }
    {
        let n = lay_left(self.operator, self.table.words(), s, ws, out);
        print(self.rt, &out[..n]);
    }

    // Takes the events from the fresh state and, where they are not followed, prints the panel behind the last one.
    fn watch_lent(
        &self,
        s: &mut [u32],
        trace: &mut [u32],
        block: &mut [u8],
        first: usize,
        found: &mut [u8],
        out: &mut [u8],
    )
        requires { IsPrefixLen first block.old × Lent self.now.operator self.now.table.words s.old trace.old found.old out.old }
    {
        let Ok(seen) = self.watch_fresh(s, trace, block, first, found, out) else {
            return;
        };
        if !self.following {
            self.print_last(s, &trace[..seen.count], out);
        }
    }
}

// Says why nothing is printed; the front tells by the first words that it was a refusal.
fn refuse(rt: HostRuntime, why: &[u8]) {
    say_bytes(rt, b"herringcart: refused: ");
    say_bytes(rt, why);
    say_bytes(rt, b"\n");
}

// A decimal number with one digit more. Above 15 it is no operator's, whatever follows, and a byte that is no digit makes it so.
fn with_digit(n: u32, b: u8) -> u32
    ensures { result ≡ with_digit n b }
{
    if 15 < n {
        return n;
    }
    if !b.is_ascii_digit() {
        return 16;
    }
    n * 10 + u32::from(b - b'0')
}

fn read_number(word: &[u8]) -> u32
    ensures { result ≡ number_from 0 word.now }
{
    let mut n = 0;
    for b in word {
        n = with_digit(n, *b);
    }
    n
}

// The operator's number and whether each event is followed, where there is a fourth word. Another number is told, as one that is not there.
fn read_operator(rt: HostRuntime) -> Option<(u32, bool)>
    ensures { IfSome result (λ r. is_operator r.0 ≡ true) }
{
    let mut word = files::space::path_bytes();
    let named = match files::read_argument(rt, 3, &mut word) {
        Ok(named) => named,
        Err(why) => {
            files::missing(rt, why, b"OPERATOR", b"panel OPERATOR TABLE EVENTS");
            return None;
        }
    };
    let o = read_number(&word[..named]);
    if !matches!(o, 1..=15) {
        refuse(
            rt,
            b"an operator has a number from 1 to 15, and OPERATOR is another",
        );
        return None;
    }
    Some((o, files::read_argument(rt, 4, &mut word).is_ok()))
}

// The panel with a table that is not refused, or what refuses it. The operator's number is judged before the table.
fn watch_table(rt: HostRuntime, t: &[u32], events: Source<'_>, block: &mut [u8], n: usize)
    requires { IsPrefixLen n block.old }
{
    let Some((operator, following)) = read_operator(rt) else {
        return;
    };
    let Ok(opening) = session::open(t) else {
        refuse(
            rt,
            b"the table has a reason: herringcart check TABLE says which",
        );
        return;
    };
    let watch = Watch {
        rt,
        operator,
        following,
        table: Table::accepted(t),
        events,
    };
    let mut states = files::space::state_words();
    let mut traces = space::trace_words();
    let mut found = space::panel_bytes();
    let mut out = space::panel_bytes();
    let s = &mut states[..opening.state];
    let trace = &mut traces[..opening.trace];
    watch.watch_lent(s, trace, block, n, &mut found, &mut out);
}

// The events file is opened and its first block read before anything is printed.
fn events(rt: HostRuntime, t: &[u32], path: &mut [u8]) {
    let usage = b"panel OPERATOR TABLE EVENTS";
    let mut block = files::space::block_bytes();
    if let Some(file) = files::open(rt, 2, b"EVENTS", usage, path, &mut block) {
        let events = Source {
            file: &file.source,
            name: &path[..file.named],
        };
        watch_table(rt, t, events, &mut block, file.bytes);
    }
}

fn main(rt: HostRuntime) {
    let mut path = files::space::path_bytes();
    let mut words = files::space::table_words();
    if let Some(n) = files::read_table(rt, b"panel OPERATOR TABLE EVENTS", &mut path, &mut words) {
        events(rt, &words[..n], &mut path);
    }
}
