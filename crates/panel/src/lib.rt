// A panel for one operator: a line for each of its ports, networks, sources and trace words, laid into lent bytes. Of the manager it
// knows the answer of the state check and nothing else: what it must know of the table's layout it reads from the words by itself, and not by
// `words`, on which it may not stand (docs/PROMISES.md, Q-13).
#![tactic(auto)]

ghost use Rattle.std.specs.Prelude.{◌≡◌, [], ◌∷◌, ◌++◌, ◌+◌, ◌<◌, ◌≤◌, eqb, length};
ghost use Rattle.rulebook.specs.Words.{word as word_of};
ghost use Rattle.text.specs.Lines.{decimal};
ghost use Rattle.text.specs.Puts.{PutAt};
ghost use Rattle.panel.specs.Printed.{operator as operator_of, count as count_of, owner as owner_of, shown_word as shown_word_of, label as label_of};
ghost use Rattle.panel.specs.Printed.{numeral, line, line_at, part_lines, panel};
ghost use Rattle.panel.specs.Promises.{number_of, bytes_of, Shows};
ghost use Rattle.panel.specs.Inside.{part_number, Counted, Leaves, Fitting};

use manager::NotAdmitted;
use text::output::{places, put_decimal, put_hex_line, put_label};

// A panel's parts, in table order, the newest step's words last.
#[derive(Clone, Copy, Debug, PartialEq, Eq)]
enum Part {
    Ports,
    Networks,
    Sources,
    Trace,
}

// The word at an index; past the end it reads as 0.
fn word(ws: &[u32], i: usize) -> u32
    ensures { result ≡ word_of ws.now i }
{
    ws.get(i).copied().unwrap_or(0)
}

// The counts of a table's header that the panel goes by.
#[derive(Clone, Copy, Debug, PartialEq, Eq)]
struct Counts {
    ports: usize,
    networks: usize,
    sources: usize,
    rules: usize,
}

fn read_counts(t: &[u32]) -> Counts
    ensures { Counted t.now result }
{
    let [_, ports, networks, sources] = word(t, 0).to_be_bytes();
    Counts {
        ports: usize::from(ports),
        networks: usize::from(networks),
        sources: usize::from(sources),
        rules: word(t, 1) as usize % 65536,
    }
}

// How long a thing's number and the space behind it are.
fn numeral_length(i: usize) -> usize
    requires { i < 1000 }
    ensures { (result ≡ length (decimal i ++ 32 ∷ [])) × (result ≤ 4) }
{
    places(i as u64) + 1
}

// Lays a label, a thing's number and a space.
fn lay_numbered(out: &mut [u8], at: usize, label: &[u8], i: usize) -> usize
    requires { at + length (label.now ++ (decimal i ++ 32 ∷ [])) ≤ length out.old }
    ensures { PutAt (label.now ++ (decimal i ++ 32 ∷ [])) out.old at result out.new }
{
    let next = put_label(out, at, label);
    put_decimal(out, next, i as u64, b' ')
}

// Lays what stands before the word of a part's i-th line.
fn lay_name(out: &mut [u8], at: usize, part: Part, i: usize) -> usize
    requires { at + length (label_of (part_number part) ++ numeral (part_number part) i) ≤ length out.old }
    ensures { PutAt (label_of (part_number part) ++ numeral (part_number part) i) out.old at result out.new }
{
    match part {
        Part::Ports => lay_numbered(out, at, b"port ", i),
        Part::Networks => lay_numbered(out, at, b"network ", i),
        Part::Sources => lay_numbered(out, at, b"source ", i),
        Part::Trace => put_label(out, at, b"trace "),
    }
}

// Lays the line of a part's i-th word, which is w.
fn lay_line(out: &mut [u8], at: usize, part: Part, i: usize, w: u32) -> usize
    requires { at + length (line (part_number part) i w) ≤ length out.old }
    ensures { PutAt (line (part_number part) i w) out.old at result out.new }
{
    let next = lay_name(out, at, part, i);
    put_hex_line(out, next, w)
}

// What a panel is drawn from: an operator's number, a table with the counts of its header, a state and the newest step's trace words.
#[derive(Clone, Copy)]
struct View<'a> {
    operator: u32,
    table: &'a [u32],
    counts: Counts,
    state: &'a [u32],
    words: &'a [u32],
    ghost counted: { Counted table.now counts },
}

impl View<'_> {
    // How many words a part has.
    fn count(&self, part: Part) -> usize
        ensures { result ≡ count_of (part_number part) self.now.table.now self.now.words.now }
    {
        match part {
            Part::Ports => self.counts.ports,
            Part::Networks => self.counts.networks,
            Part::Sources => self.counts.sources,
            Part::Trace => self.words.len(),
        }
    }

    // Whose a part's i-th word is: a port's, a network's or a source's owner stands in the table, a trace word's in the word itself.
    fn owner(&self, part: Part, i: usize) -> u32
        requires { i < count_of (part_number part) self.now.table.now self.now.words.now }
        ensures { result ≡ owner_of (part_number part) self.now.table.now self.now.words.now i }
    {
        let Counts {
            ports,
            networks,
            ..
        } = self.counts;
        match part {
            Part::Ports => word(self.table, 3 + i) / 16777216 % 16,
            Part::Networks => word(self.table, 3 + ports + 2 * i) / 268435456 % 16,
            Part::Sources => word(self.table, 3 + ports + 2 * networks + i) / 268435456 % 16,
            Part::Trace => word(self.words, i) / 16777216 % 16,
        }
    }

    // Whether a part's i-th word is the operator's.
    fn is_own(&self, part: Part, i: usize) -> bool
        requires { i < count_of (part_number part) self.now.table.now self.now.words.now }
        ensures { result ≡ eqb (owner_of (part_number part) self.now.table.now self.now.words.now i) self.now.operator }
    {
        self.owner(part, i) == self.operator
    }

    // A part's i-th word: a port's, a network's or a source's in the state, or a trace word.
    fn shown_word(&self, part: Part, i: usize) -> u32
        requires { i < count_of (part_number part) self.now.table.now self.now.words.now }
        ensures { result ≡ shown_word_of (part_number part) self.now.table.now self.now.state.now self.now.words.now i }
    {
        let Counts {
            ports,
            networks,
            rules,
            ..
        } = self.counts;
        match part {
            Part::Ports => word(self.state, i),
            Part::Networks => word(self.state, ports + rules + i),
            Part::Sources => word(self.state, ports + rules + networks + i),
            Part::Trace => word(self.words, i),
        }
    }

    // How long what stands before the word of a part's i-th line is.
    fn name_length(&self, part: Part, i: usize) -> usize
        requires { i < count_of (part_number part) self.now.table.now self.now.words.now }
        ensures { (result ≡ length (label_of (part_number part) ++ numeral (part_number part) i)) × (result ≤ 12) }
    {
        match part {
            Part::Ports => 5 + numeral_length(i),
            Part::Networks => 8 + numeral_length(i),
            Part::Sources => 7 + numeral_length(i),
            Part::Trace => 6,
        }
    }

    // How long the line of a part's i-th word is: 0 where the word is not the operator's.
    fn length_at(&self, part: Part, i: usize) -> usize
        requires { i < count_of (part_number part) self.now.table.now self.now.words.now }
        ensures { let v = self.now in result ≡ length (line_at (part_number part) v.operator v.table.now v.state.now v.words.now i) }
    {
        if self.is_own(part, i) {
            self.name_length(part, i) + 9
        } else {
            0
        }
    }

    // What a part's lines leave of a room; none where they do not fit.
    fn part_room(&self, part: Part, room: usize) -> Option<usize>
        ensures { let v = self.now in Leaves (part_lines (part_number part) v.operator v.table.now v.state.now v.words.now) room result }
    {
        let mut left = room;
        for i in 0..self.count(part) {
            left = left.checked_sub(self.length_at(part, i))?;
        }
        Some(left)
    }

    // What the panel's lines leave of a room; none where they do not fit. Each part is named at its call: a loop over the parts asks at each
    // word which part it is in, and a trace may have thousands.
    fn room_left(&self, room: usize) -> Option<usize>
        ensures { let v = self.now in Leaves (panel v.operator v.table.now v.state.now v.words.now) room result }
    {
        let behind_ports = self.part_room(Part::Ports, room)?;
        let behind_networks = self.part_room(Part::Networks, behind_ports)?;
        let behind_sources = self.part_room(Part::Sources, behind_networks)?;
        self.part_room(Part::Trace, behind_sources)
    }

    // Lays the line of a part's i-th word, where the word is the operator's.
    fn lay_at(&self, out: &mut [u8], at: usize, part: Part, i: usize) -> usize
        requires there { i < count_of (part_number part) self.now.table.now self.now.words.now }
        requires room { let v = self.now in at + length (line_at (part_number part) v.operator v.table.now v.state.now v.words.now i) ≤ length out.old }
        ensures { let v = self.now in PutAt (line_at (part_number part) v.operator v.table.now v.state.now v.words.now i) out.old at result out.new }
    {
        if self.is_own(part, i) {
            let w = self.shown_word(part, i);
            lay_line(out, at, part, i, w)
        } else {
            at
        }
    }

    // Lays a part's lines.
    fn lay_part(&self, out: &mut [u8], at: usize, part: Part) -> usize
        requires { let v = self.now in at + length (part_lines (part_number part) v.operator v.table.now v.state.now v.words.now) ≤ length out.old }
        ensures { let v = self.now in PutAt (part_lines (part_number part) v.operator v.table.now v.state.now v.words.now) out.old at result out.new }
    {
        let mut next = at;
        for i in 0..self.count(part) {
            next = self.lay_at(out, next, part, i);
        }
        next
    }

    // Lays the panel's lines at the front, part behind part.
    fn lay(&self, out: &mut [u8]) -> usize
        requires { let v = self.now in length (panel v.operator v.table.now v.state.now v.words.now) ≤ length out.old }
        ensures { let v = self.now in PutAt (panel v.operator v.table.now v.state.now v.words.now) out.old 0 result out.new }
    {
        let behind_ports = self.lay_part(out, 0, Part::Ports);
        let behind_networks = self.lay_part(out, behind_ports, Part::Networks);
        let behind_sources = self.lay_part(out, behind_networks, Part::Sources);
        self.lay_part(out, behind_sources, Part::Trace)
    }
}

// What refuses a panel.
#[derive(Clone, Copy, Debug, PartialEq, Eq)]
pub enum NotShown {
    NoOperator,
    BadTable,
    UnfitState,
    NoRoom,
}

// An answer's number.
pub fn number(shown: Result<usize, NotShown>) -> u32
    ensures { result ≡ number_of shown }
{
    match shown {
        Ok(_) => 0,
        Err(NotShown::NoOperator) => 9,
        Err(NotShown::BadTable) => 1,
        Err(NotShown::UnfitState) => 2,
        Err(NotShown::NoRoom) => 11,
    }
}

// How many bytes were laid; 0 in a refusal.
pub fn bytes(shown: Result<usize, NotShown>) -> usize
    ensures { result ≡ bytes_of shown }
{
    shown.unwrap_or(0)
}

// Whether a number is an operator's: 0 is the platform, and an owner has four bits.
fn is_operator(o: u32) -> bool
    ensures { result ≡ operator_of o }
{
    matches!(o, 1..=15)
}

// The manager's answer on the table and the state as the panel's, of which nothing is laid yet.
fn check_fit(t: &[u32], s: &[u32]) -> Result<usize, NotShown>
    ensures { Fitting t.now s.now result }
{
    let Err(why) = manager::check_state(t, s) else {
        return Ok(0);
    };
    match why {
        NotAdmitted::BadTable => Err(NotShown::BadTable),
        NotAdmitted::UnfitState => Err(NotShown::UnfitState),
    }
}

// Shows operator o its panel, for a table, a state and the newest step's trace words: lays the lines at the front of the lent bytes, or
// refuses and changes none of them.
pub fn show(o: u32, t: &[u32], s: &[u32], ws: &[u32], out: &mut [u8]) -> Result<usize, NotShown>
    ensures { Shows o t.now s.now ws.now out.old result out.new }
{
    let true = is_operator(o) else {
        return Err(NotShown::NoOperator);
    };
    let fit = check_fit(t, s);
    let Ok(_) = fit else {
        return fit;
    };
    let view = View {
        operator: o,
        table: t,
        counts: read_counts(t),
        state: s,
        words: ws,
    };
    let Some(_) = view.room_left(out.len()) else {
        return Err(NotShown::NoRoom);
    };
    Ok(view.lay(out))
}
