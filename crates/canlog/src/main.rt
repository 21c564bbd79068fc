// `canlog TABLE INTERFACES LOG`: the program behind `./herringcart canlog`. Thin: it opens, reads and writes; the log's lines are read by `buslog`, their
// events are laid as a file has them by `text`, and what is said of a refusal stands in `complaint`.
#![tactic(auto)]

ghost use Rattle.std.specs.Prelude.{◌≡◌, ◌*◌, ◌≤◌, eqb, length};
ghost use Rattle.text.specs.Window.{Within};
ghost use Rattle.buslog.specs.Promises.{cursor_as, end_number};
ghost use Rattle.canlog.specs.Kept.{Ends, ReadsOn, More};

mod complaint;
mod space;

use buslog::reading::{Cursor, Halt, Step, read_log, refused_line};
use files::Source;
use text::raw::lay_words;
use text::window::slide;

// Whether a reading ended because the output is full. Then that is emptied, and reading goes on.
fn is_full(end: Result<(), Halt>) -> bool
    ensures { result ≡ eqb (end_number end) 11 }
{
    matches!(end, Err(Halt::NoRoom))
}

// How many of the window's first bytes are read next: whole lines, up to the last newline. All of them where the file has no more, and where there is no
// newline in so many: that line is misspelt, however it goes on.
fn whole_lines(window: &[u8], ended: bool) -> usize
    ensures { result ≤ length window.now }
{
    if ended {
        return window.len();
    }
    match window.iter().rposition(|b| *b == b'\n') {
        Some(i) => i + 1,
        None => window.len(),
    }
}

// Where a log is read: so many of its bytes stand at the window's front, and `ended` says that the file has no more.
#[derive(Clone, Copy, Debug, PartialEq, Eq)]
struct Place {
    ended: bool,
    end: usize,
}

// What stays as it is while a log is read: the host, the table, the list of the interfaces, and the log's file.
#[derive(Clone, Copy)]
struct CanLog<'a> {
    rt: HostRuntime,
    table: &'a [u32],
    names: &'a [u8],
    log: Source<'a>,
}

impl CanLog<'_> {
    // Writes events as a file has them; false where it cannot.
    fn print_events(&self, events: &[u32], raw: &mut [u8]) -> bool
        requires { 4 * length events.now ≤ length raw.old }
    {
        let n = lay_words(raw, events);
        files::print(self.rt, &raw[..n])
    }

    // The end of a part: the cursor behind its lines, or nothing where one is refused, which is told.
    fn end_part(&self, step: Step) -> Option<Cursor>
        ensures { Ends step result }
    {
        match step.end {
            Ok(()) => Some(step.cursor),
            Err(halt) => {
                complaint::complain(self.rt, self.table, halt, refused_line(step));
                None
            }
        }
    }

    // Reads the lines of a part from the cursor on, in as many outputs as their events ask for, and writes each: the cursor behind them, or nothing where
    // a line is refused or a write fails. A gap of a day is 8,640,000 ticks, and a log's times can be further apart than that: no output has room for what
    // one line can give. A proved loop has to end: no log uses up so many turns.
    fn read_part(&self, log: &[u8], from: Cursor, out: &mut [u32], raw: &mut [u8]) -> Option<Cursor>
        requires { 4 * length out.old ≤ length raw.old }
        ensures { ReadsOn self.now.table.now self.now.names.now log.now (cursor_as from) result }
    {
        let mut at = 0;
        let mut cursor = from;
        for _ in 0..u64::MAX {
            let step = read_log(self.table, self.names, &log[at..], cursor, out);
            if !self.print_events(&out[..step.events], raw) {
                return None;
            }
            if !is_full(step.end) {
                return self.end_part(step);
            }
            at += step.bytes;
            cursor = step.cursor;
        }
        None
    }

    // Reads on behind the bytes from `at` up to `end`, which are not read yet and move to the front; nothing where a read fails, which is told.
    fn read_more(&self, window: &mut [u8], at: usize, end: usize) -> Option<Place>
        requires { Within at end window.old }
        ensures { More at end window.old result window.new }
    {
        let kept = slide(window, at, end);
        let Ok(end) = self.log.read_on(self.rt, window, kept) else {
            return None;
        };
        Some(Place {
            ended: end < window.len(),
            end,
        })
    }

    // Reads the log from its first line on: the whole lines in the window, whose first bytes are read, then those that the file still has. The turns are
    // bounded here too.
    fn read_file(&self, window: &mut [u8], first: usize, out: &mut [u32], raw: &mut [u8])
        requires { (first ≤ length window.old) × (4 * length out.old ≤ length raw.old) }
    {
        let mut cursor = Cursor {
            lines: 0,
            first: 0,
            last: 0,
            given: 0,
        };
        let mut place = Place {
            ended: first < window.len(),
            end: first,
        };
        for _ in 0..u64::MAX {
            let whole = whole_lines(&window[..place.end], place.ended);
            let Some(behind) = self.read_part(&window[..whole], cursor, out, raw) else {
                return;
            };
            if place.ended {
                return;
            }
            let Some(next) = self.read_more(window, whole, place.end) else {
                return;
            };
            cursor = behind;
            place = next;
        }
    }
}

// Reads a log whose first bytes stand in the window.
fn read_log_from(
    rt: HostRuntime,
    t: &[u32],
    names: &[u8],
    log: Source<'_>,
    window: &mut [u8],
    first: usize,
)
    requires { first ≤ length window.old }
{
    let canlog = CanLog {
        rt,
        table: t,
        names,
        log,
    };
    let mut out = space::event_words();
    let mut raw = files::space::lines();
    canlog.read_file(window, first, &mut out, &mut raw);
}

// The log is opened and its first bytes read before anything is judged.
fn log(rt: HostRuntime, t: &[u32], names: &[u8], path: &mut [u8]) {
    let usage = b"canlog TABLE INTERFACES LOG";
    let mut window = files::space::block_bytes();
    let Some(file) = files::open(rt, 3, b"LOG", usage, path, &mut window) else {
        return;
    };
    let log = Source {
        file: &file.source,
        name: &path[..file.named],
    };
    read_log_from(rt, t, names, log, &mut window, file.bytes);
}

// So is the list of the interfaces. Eight names have 128 bytes at most, so a list that is longer than its window is wrong, whatever stands behind it.
fn interfaces(rt: HostRuntime, t: &[u32], path: &mut [u8]) {
    let usage = b"canlog TABLE INTERFACES LOG";
    let mut list = files::space::path_bytes();
    if let Some(file) = files::open(rt, 2, b"INTERFACES", usage, path, &mut list) {
        log(rt, t, &list[..file.bytes], path);
    }
}

fn main(rt: HostRuntime) {
    let mut path = files::space::path_bytes();
    let mut words = files::space::table_words();
    if let Some(n) = files::read_table(rt, b"canlog TABLE INTERFACES LOG", &mut path, &mut words) {
        interfaces(rt, &words[..n], &mut path);
    }
}
