// What the program behind `./herringcart hold` says of an event of a supplier's log: our step, the verdict, and its lines laid where the verdict is.
#![tactic(auto)]

ghost use Rattle.std.specs.Prelude.{◌≡◌, true, ◌++◌, ◌+◌, ◌≤◌, min, length, take, drop, eqb};
ghost use Rattle.text.specs.Lines.{hex_line};
ghost use Rattle.text.specs.Puts.{PutAt};
ghost use Rattle.session.specs.Promises.{PutLines};
ghost use Rattle.telling.specs.Told.{event_line, verdict_label, verdict_line, labelled, ours as ours_label, supplier as supplier_label, side, total_line};
ghost use Rattle.rulebook.specs.Hold.{as_ordered, states_part};
ghost use Rattle.hold.specs.Promises.{number_of};
ghost use Rattle.telling.specs.Promises.{verdict_in, word_in, Judges, both, head, Tells, Room, Adopts};

use hold::{Verdict, given};
use text::output::{put_decimal, put_decimal_line, put_hex_line, put_label};

// What is said of an event of a log: the supplier's answer is another than ours, or what `hold` says of its words.
#[derive(Clone, Copy)]
pub enum Judgement {
    AnswersPart,
    Words(Verdict),
}

// What is said, and how many of the recording's words are the supplier's state.
#[derive(Clone, Copy)]
pub struct Judged {
    pub judgement: Judgement,
    pub cut: usize,
}

fn is_as_ordered(judgement: Judgement) -> bool
    ensures { result ≡ eqb (verdict_in judgement) as_ordered }
{
    match judgement {
        Judgement::Words(Verdict::AsOrdered) => true,
        _ => false,
    }
}

fn is_states_part(judgement: Judgement) -> bool
    ensures { result ≡ eqb (verdict_in judgement) states_part }
{
    match judgement {
        Judgement::Words(Verdict::StatesPart(_)) => true,
        _ => false,
    }
}

// Our answer, words and state against the supplier's answer and words.
pub fn judge(answer: u32, ours: &[u32], state: &[u32], said: u32, words: &[u32]) -> Judged
    ensures { Judges answer ours.now state.now said words.now result }
{
    let cut = state.len().min(words.len());
    if answer != said {
        let judgement = Judgement::AnswersPart;
        return Judged { judgement, cut };
    }
    let verdict = hold::compare(ours, state, &words[cut..], &words[..cut]);
    Judged {
        judgement: Judgement::Words(verdict),
        cut,
    }
}

// Lays an event's number and its word.
fn lay_event(out: &mut [u8], at: usize, n: u64, e: u32) -> usize
    requires { at + length (event_line n e) ≤ length out.old }
    ensures { PutAt (event_line n e) out.old at result out.new }
{
    let label = put_label(out, at, b"event ");
    let number = put_decimal(out, label, n, b' ');
    put_hex_line(out, number, e)
}

// Lays what stands before the number of a word.
fn lay_label(out: &mut [u8], at: usize, verdict: Verdict) -> usize
    requires { at + length (verdict_label (number_of verdict)) ≤ length out.old }
    ensures { PutAt (verdict_label (number_of verdict)) out.old at result out.new }
{
    match verdict {
        Verdict::TracesPart(_) => put_label(out, at, b"traces part at word "),
        Verdict::TheirsStops(_) => put_label(out, at, b"the supplier's trace stops at word "),
        Verdict::OursStops(_) => put_label(out, at, b"the supplier's trace goes on at word "),
        _ => put_label(out, at, b"states part at word "),
    }
}

// Lays the line of a judgement.
fn lay_judgement(out: &mut [u8], at: usize, judgement: Judgement) -> usize
    requires { at + length (verdict_line (verdict_in judgement) (word_in judgement)) ≤ length out.old }
    ensures { PutAt (verdict_line (verdict_in judgement) (word_in judgement)) out.old at result out.new }
{
    let Judgement::Words(verdict) = judgement else {
        return put_label(out, at, b"answers part\n");
    };
    let next = lay_label(out, at, verdict);
    put_decimal(out, next, given(verdict) as u64, b'\n')
}

// Lays a word's line behind a label.
fn lay_word(out: &mut [u8], at: usize, label: &[u8], w: u32) -> usize
    requires { at + length (label.now ++ hex_line w) ≤ length out.old }
    ensures { PutAt (label.now ++ hex_line w) out.old at result out.new }
{
    let next = put_label(out, at, label);
    put_hex_line(out, next, w)
}

// Lays a line for each word from a number on, behind a label.
fn lay_words(out: &mut [u8], at: usize, label: &[u8], words: &[u32], from: usize) -> usize
    requires { at + length (labelled label.now (drop from words.now)) ≤ length out.old }
    ensures { PutAt (labelled label.now (drop from words.now)) out.old at result out.new }
{
    let mut next = at;
    for i in from..words.len() {
        next = lay_word(out, next, label, words[i]);
    }
    next
}

// Lays one side: where the answers part the answer, then the words from a number on.
fn lay_side(
    out: &mut [u8],
    at: usize,
    label: &[u8],
    judgement: Judgement,
    answer: u32,
    words: &[u32],
) -> usize
    requires { at + length (side label.now (verdict_in judgement) answer (drop (word_in judgement) words.now)) ≤ length out.old }
    ensures { PutAt (side label.now (verdict_in judgement) answer (drop (word_in judgement) words.now)) out.old at result out.new }
{
    match judgement {
        Judgement::AnswersPart => {
            let number = put_label(out, at, label);
            let next = put_decimal_line(out, number, answer);
            lay_words(out, next, label, words, 0)
        }
        Judgement::Words(verdict) => lay_words(out, at, label, words, given(verdict)),
    }
}

// Lays both sides, ours first.
fn lay_sides(
    out: &mut [u8],
    at: usize,
    judgement: Judgement,
    answer: u32,
    ours: &[u32],
    said: u32,
    theirs: &[u32],
) -> usize
    requires { at + length (both judgement answer ours.now said theirs.now) ≤ length out.old }
    ensures { PutAt (both judgement answer ours.now said theirs.now) out.old at result out.new }
{
    let next = lay_side(out, at, b"ours ", judgement, answer, ours);
    lay_side(out, next, b"supplier ", judgement, said, theirs)
}

// Lays the event's line and the judgement's at the front.
fn lay_head(out: &mut [u8], n: u64, e: u32, judgement: Judgement) -> usize
    requires { length (head n e judgement) ≤ length out.old }
    ensures { PutAt (head n e judgement) out.old 0 result out.new }
{
    let next = lay_event(out, 0, n, e);
    lay_judgement(out, next, judgement)
}

// Lays what is told of the n-th event e at the front, nothing where the supplier's recording is as our tables order.
pub fn tell(
    out: &mut [u8],
    n: u64,
    e: u32,
    j: Judged,
    answer: u32,
    ours: &[u32],
    state: &[u32],
    said: u32,
    words: &[u32],
) -> usize
    requires { Judges answer ours.now state.now said words.now j × Room ours.now state.now words.now out.old }
    ensures { Tells n e answer ours.now state.now said words.now out.old result out.new }
{
    let judgement = j.judgement;
    if is_as_ordered(judgement) {
        return 0;
    }
    let cut = j.cut;
    let next = lay_head(out, n, e, judgement);
    if is_states_part(judgement) {
        return lay_sides(out, next, judgement, answer, state, said, &words[..cut]);
    }
    lay_sides(out, next, judgement, answer, ours, said, &words[cut..])
}

// Lays the last line at the front: how many events there were, and how many of them are not as our tables order. Nothing where fewer than 96 bytes are
// lent.
pub fn lay_total(out: &mut [u8], events: u64, parted: u64) -> usize
    ensures { PutLines 96 (total_line events parted) out.old result out.new }
{
    if out.len() < 96 {
        return 0;
    }
    let number = put_decimal(out, 0, events, b' ');
    let next = put_label(out, number, b"events: ");
    if parted == 0 {
        return put_label(out, next, b"all as our tables order\n");
    }
    let many = put_decimal(out, next, parted, b' ');
    put_label(out, many, b"not as our tables order\n")
}

// Goes on from the supplier's state, the first of its words, where that fits the table; else the state stays, and it is false.
pub fn adopt(t: &[u32], s: &mut [u32], words: &[u32]) -> bool
    ensures { Adopts t.now s.old words.now result s.new }
{
    let n = s.len();
    if words.len() < n {
        return false;
    }
    let theirs = &words[..n];
    if manager::check_state(t, theirs).is_err() {
        return false;
    }
    s.copy_from_slice(theirs);
    true
}
