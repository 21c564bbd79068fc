// `audit TABLE EVENTS LOG [all]`: the program behind `./herringcart hold`. Thin: it opens, reads and writes; a log's lines are read by `recording`, what
// is said of an event is judged and laid by `telling`, and what is said of a refusal stands in `complaint`.
#![tactic(auto)]

ghost use Rattle.std.specs.Prelude.{◌≡◌, ◌≤◌, IfOk, length};
ghost use Rattle.files.specs.Counts.{IsPrefixLen};
ghost use Rattle.telling.specs.Promises.{Room, Tells};
ghost use Rattle.text.specs.Window.{Within};
ghost use Rattle.audit.specs.Kept.{Widened, Lent, Going, HeldIn, Goes, most_words, told_bytes};
ghost use Rattle.audit.specs.Held.{on_from, Followed, HeldOne};

mod complaint;
mod space;

use complaint::{complain, refuse_table, tell_found, tell_not_found};
use files::faults::say_bytes;
use files::{Source, print};
use recording::{Found, read_recording};
use text::input::{read_word, word_count};
use text::window::slide;
use words::table::Table;

// The most bytes of a recording and of the line behind it: with so many in the window a recording is read whole.
const WIDEST: usize = 73739;

// Where a log is read: its bytes from `at` up to `end` stand in the window, and `ended` says that the file has no more.
#[derive(Clone, Copy, Debug, PartialEq, Eq)]
struct Place {
    ended: bool,
    at: usize,
    end: usize,
}

// Whether to go on, and whether the supplier's recording parted from ours: two tests, each of which says something whatever the other is.
#[derive(Clone, Copy, Debug, PartialEq, Eq)]
struct Told {
    going: bool,
    parted: bool,
}

// What came of the events so far: how many were taken and how many of them parted, and the line and the place where the log is read.
#[derive(Clone, Copy, Debug, PartialEq, Eq)]
struct Day {
    events: u64,
    parted: u64,
    line: u64,
    place: Place,
}

// A holding that was stopped before its last event, by an event that parted or by what could not be read or written: how many events parted.
#[derive(Clone, Copy, Debug, PartialEq, Eq)]
struct Stopped {
    parted: u64,
}

// What came of the events up to the end of a block, and how many bytes the next one has, 0 to end.
#[derive(Clone, Copy, Debug, PartialEq, Eq)]
struct Turn {
    day: Day,
    bytes: usize,
}

// The number of the line behind an answer's and those of its words.
fn line_behind(line: u64, count: usize) -> u64 {
    line.wrapping_add(1).wrapping_add(count as u64)
}

// Whether a recording can be held against ours: it is whole, or the log's last and has a whole state.
fn is_whole(found: Found, short: bool) -> bool {
    match found {
        Found::Whole => true,
        Found::Last => !short,
        Found::Misspelt | Found::TooMany => false,
    }
}

// Lays what is told of our step and the supplier's recording.
fn tell_step(
    out: &mut [u8],
    n: u64,
    e: u32,
    answer: u32,
    ours: &[u32],
    state: &[u32],
    said: u32,
    words: &[u32],
) -> usize
    requires { Room ours.now state.now words.now out.old }
    ensures { Tells n e answer ours.now state.now said words.now out.old result out.new }
{
    let judged = telling::judge(answer, ours, state, said, words);
    telling::tell(out, n, e, judged, answer, ours, state, said, words)
}

// Marks on standard error that an event parted, which the program's status cannot say.
fn mark(rt: HostRuntime, parted: u64) {
    if parted != 0 {
        say_bytes(rt, b"herringcart: parted\n");
    }
}

// What stays as it is during a holding: the host, the table, whether all events are held, and the files of the events and of the log.
#[derive(Drop)]
struct Audit<'a> {
    rt: HostRuntime,
    table: Table<'a>,
    all: bool,
    events: Source<'a>,
    log: Source<'a>,
}

impl Audit<'_> {
    // Reads on where the window may not have a whole recording any more; nothing where a read fails, which is told.
    fn widen(&self, window: &mut [u8], place: Place) -> Option<Place>
        requires { Within place.at place.end window.old }
        ensures { Widened place.at place.end window.old result window.new }
    {
        if place.ended || WIDEST <= place.end - place.at {
            return Some(place);
        }
        let kept = slide(window, place.at, place.end);
        let Ok(end) = self.log.read_on(self.rt, window, kept) else {
            return None;
        };
        Some(Place {
            ended: end < window.len(),
            at: 0,
            end,
        })
    }

    // Goes on from the supplier's state, or says that it does not fit; false where that cannot be written.
    fn go_on(&self, s: &mut [u32], words: &[u32]) -> bool
        ensures { s.new ≡ on_from self.now.table.words s.old words.now }
    {
        if telling::adopt(self.table.words(), s, words) {
            return true;
        }
        print(
            self.rt,
            b"the supplier's state does not fit: on from ours\n",
        )
    }

    // Prints what is told of an event, and goes on where nothing is, or where all are held.
    fn follow(&self, s: &mut [u32], words: &[u32], lines: &[u8]) -> Told
        ensures { Followed self.now.table.words s.old words.now lines.now self.now.all result s.new }
    {
        if lines.is_empty() {
            return Told {
                going: true,
                parted: false,
            };
        }
        if !print(self.rt, lines) {
            return Told {
                going: false,
                parted: false,
            };
        }
        if !self.all {
            return Told {
                going: false,
                parted: true,
            };
        }
        let going = self.go_on(s, words);
        Told {
            going,
            parted: true,
        }
    }

    // Takes the n-th event e, holds the supplier's answer and words against our step, and prints what is told of it.
    fn hold_recording(
        &self,
        s: &mut [u32],
        trace: &mut [u32],
        e: u32,
        n: u64,
        said: u32,
        words: &[u32],
        out: &mut [u8],
    ) -> Told
        requires { Going self.now.table.words s.old trace.old × (length words.now ≤ most_words) × (told_bytes ≤ length out.old) }
        ensures { Going self.now.table.words s.new trace.new
            × HeldOne self.now.table.words e s.old said words.now self.now.all result s.new }
    {
        let answer = session::take(&self.table, e, s, trace);
        let number = events::number(answer);
        let count = events::count(answer);
        let bytes = tell_step(out, n, e, number, &trace[..count], s, said, words);
        self.follow(s, words, &out[..bytes])
    }

    // Reads an event's recording from the log's bytes and holds it against our step.
    fn hold_event(
        &self,
        s: &mut [u32],
        trace: &mut [u32],
        e: u32,
        day: Day,
        log: &[u8],
        words: &mut [u32],
        out: &mut [u8],
    ) -> Result<Day, Stopped>
        requires { Going self.now.table.words s.old trace.old × (day.place.at ≤ length log.now)
            × (length words.old ≤ most_words) × (told_bytes ≤ length out.old) }
        ensures going { Going self.now.table.words s.new trace.new }
        ensures place { IfOk result (λ d. (d.place.at ≤ length log.now) × (d.place.end ≡ day.place.end)) }
    {
        let Day {
            events,
            parted,
            line,
            place,
        } = day;
        let read = match read_recording(log, place.at, words) {
            Ok(read) => read,
            Err(why) => {
                tell_not_found(self.rt, why, line, events);
                return Err(Stopped { parted });
            }
        };
        let behind = line_behind(line, read.count);
        if !is_whole(read.found, read.count < s.len()) {
            tell_found(self.rt, read.found, behind, events);
            return Err(Stopped { parted });
        }
        let told = self.hold_recording(s, trace, e, events, read.answer, &words[..read.count], out);
        let parted = parted.wrapping_add(u64::from(told.parted));
        if !told.going {
            return Err(Stopped { parted });
        }
        Ok(Day {
            events: events.wrapping_add(1),
            parted,
            line: behind,
            place: Place {
                at: read.next,
                ..place
            },
        })
    }

    // One event more.
    fn next_event(
        &self,
        s: &mut [u32],
        trace: &mut [u32],
        e: u32,
        day: Day,
        window: &mut [u8],
        words: &mut [u32],
        out: &mut [u8],
    ) -> Result<Day, Stopped>
        requires { Going self.now.table.words s.old trace.old × Within day.place.at day.place.end window.old
            × (length words.old ≤ most_words) × (told_bytes ≤ length out.old) }
        ensures { HeldIn self.now.table.words s.new trace.new window.new result }
    {
        let Some(place) = self.widen(window, day.place) else {
            return Err(Stopped { parted: day.parted });
        };
        self.hold_event(
            s,
            trace,
            e,
            Day { place, ..day },
            &window[..place.end],
            words,
            out,
        )
    }

    // The events of a block, one after the other, until one ends the holding.
    fn hold_block(
        &self,
        s: &mut [u32],
        trace: &mut [u32],
        block: &[u8],
        first: Day,
        window: &mut [u8],
    ) -> Result<Day, Stopped>
        requires { Going self.now.table.words s.old trace.old × Within first.place.at first.place.end window.old }
        ensures { HeldIn self.now.table.words s.new trace.new window.new result }
    {
        let mut words = space::recorded_words();
        let mut out = files::space::lines();
        let mut day = first;
        for i in 0..word_count(block) {
            let e = read_word(block, i);
            day = self.next_event(s, trace, e, day, window, &mut words, &mut out)?;
        }
        Ok(day)
    }

    // Holds the events of the n bytes of a block and reads the next one.
    fn next_block(
        &self,
        s: &mut [u32],
        trace: &mut [u32],
        block: &mut [u8],
        n: usize,
        first: Day,
        window: &mut [u8],
    ) -> Result<Turn, Stopped>
        requires { IsPrefixLen n block.old × Going self.now.table.words s.old trace.old
            × Within first.place.at first.place.end window.old }
        ensures { Goes self.now.table.words s.new trace.new block.new window.new result }
    {
        let day = self.hold_block(s, trace, &block[..n], first, window)?;
        match self.events.read_block(self.rt, block) {
            Some(bytes) => Ok(Turn { day, bytes }),
            None => Err(Stopped { parted: day.parted }),
        }
    }

    // Holds the events of the first block and then those that the file still has. A proved loop has to end, and nothing says that a file does: no run
    // uses up so many turns.
    fn hold_file(
        &self,
        s: &mut [u32],
        trace: &mut [u32],
        block: &mut [u8],
        bytes: usize,
        first: Day,
        window: &mut [u8],
    ) -> Result<Day, Stopped>
        requires { IsPrefixLen bytes block.old × Going self.now.table.words s.old trace.old
            × Within first.place.at first.place.end window.old }
        ensures { IfOk result (λ d. Within d.place.at d.place.end window.new) }
    {
        let mut n = bytes;
        let mut day = first;
        for _ in 0..u64::MAX {
            if n == 0 {
                return Ok(day);
            }
            let turn = self.next_block(s, trace, block, n, day, window)?;
            day = turn.day;
            n = turn.bytes;
        }
        if n == 0 {
            Ok(day)
        } else {
            Err(Stopped { parted: day.parted })
        }
    }

    // Behind the last event: the log has no line more, and the last line says how many events there were.
    fn close_day(&self, day: Day, window: &mut [u8])
        requires { Within day.place.at day.place.end window.old }
    {
        let Some(place) = self.widen(window, day.place) else {
            return;
        };
        if place.at < place.end {
            complain(self.rt, day.line, b"it goes on behind the last event\n");
            return;
        }
        let mut out = space::total();
        let n = telling::lay_total(&mut out, day.events, day.parted);
        print(self.rt, &out[..n]);
    }

    // Makes the fresh state in the lent words and holds the events from there, against the log whose first bytes stand in the window up to `end`.
    fn hold_fresh(
        &self,
        s: &mut [u32],
        trace: &mut [u32],
        block: &mut [u8],
        bytes: usize,
        window: &mut [u8],
        end: usize,
    )
        requires { IsPrefixLen bytes block.old × Lent self.now.table.words s.old trace.old × (end ≤ length window.old) }
    {
        let _ = manager::make_fresh(self.table.words(), s);
        let first = Day {
            events: 0,
            parted: 0,
            line: 1,
            place: Place {
                ended: end < window.len(),
                at: 0,
                end,
            },
        };
        match self.hold_file(s, trace, block, bytes, first, window) {
            Ok(day) => {
                self.close_day(day, window);
                mark(self.rt, day.parted);
            }
            Err(stopped) => mark(self.rt, stopped.parted),
        }
    }
}

// Whether there is a fourth word: then it goes on behind an event that parted.
fn goes_on(rt: HostRuntime) -> bool {
    let mut word = files::space::path_bytes();
    files::read_argument(rt, 4, &mut word).is_ok()
}

// The table's reason, or its events held against the log from the fresh state on.
fn hold_table(
    rt: HostRuntime,
    t: &[u32],
    events: Source<'_>,
    block: &mut [u8],
    bytes: usize,
    log: Source<'_>,
    window: &mut [u8],
    end: usize,
)
    requires { IsPrefixLen bytes block.old × (end ≤ length window.old) }
{
    let opening = match session::open(t) {
        Ok(opening) => opening,
        Err(refused) => {
            refuse_table(rt, refused.reason, refused.place);
            return;
        }
    };
    let audit = Audit {
        rt,
        table: Table::accepted(t),
        all: goes_on(rt),
        events,
        log,
    };
    let mut states = files::space::state_words();
    let mut traces = space::trace_words();
    let s = &mut states[..opening.state];
    let trace = &mut traces[..opening.trace];
    audit.hold_fresh(s, trace, block, bytes, window, end);
}

// The log is opened and its first bytes read before anything is printed.
fn log(rt: HostRuntime, t: &[u32], events: Source<'_>, block: &mut [u8], bytes: usize)
    requires { IsPrefixLen bytes block.old }
{
    let usage = b"hold TABLE EVENTS LOG";
    let mut path = files::space::path_bytes();
    let mut window = files::space::lines();
    let Some(file) = files::open(rt, 3, b"LOG", usage, &mut path, &mut window) else {
        return;
    };
    let log = Source {
        file: &file.source,
        name: &path[..file.named],
    };
    hold_table(rt, t, events, block, bytes, log, &mut window, file.bytes);
}

// So are the events.
fn events(rt: HostRuntime, t: &[u32], path: &mut [u8]) {
    let usage = b"hold TABLE EVENTS LOG";
    let mut block = files::space::block_bytes();
    let Some(file) = files::open(rt, 2, b"EVENTS", usage, path, &mut block) else {
        return;
    };
    let events = Source {
        file: &file.source,
        name: &path[..file.named],
    };
    log(rt, t, events, &mut block, file.bytes);
}

fn main(rt: HostRuntime) {
    let mut path = files::space::path_bytes();
    let mut words = files::space::table_words();
    if let Some(n) = files::read_table(rt, b"hold TABLE EVENTS LOG", &mut path, &mut words) {
        events(rt, &words[..n], &mut path);
    }
}
