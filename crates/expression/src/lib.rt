// Expressions: how deep one nests, and whether it mentions a port of a set. Both go down into the left and then the right argument,
// with one level less each time.
#![tactic(auto)]

ghost use Rattle.std.specs.Prelude.{◌≡◌, ℕ, Bool};
ghost use Rattle.rulebook.specs.Expressions.{expression_within, mentions as mentions_of};
ghost use Rattle.words.specs.Flags.{flagged};
ghost use Rattle.expression.specs.Section.{Section, MentionsIn};
ghost use Rattle.expression.specs.Tests.{Computes};

use words::expressions::{condition_port, expression_kind, is_operator, left, right};
use words::numbers::OPERATOR_NOT;
use words::table::Table;
use words::{flag, word};

// Whether expression e is at most so many levels deep.
pub fn within(t: &Table, e: u32, levels: u32) -> bool
    ensures { result ≡ expression_within levels t.now.words e }
{
    if levels == 0 {
        return false;
    }
    let w = t.expression_word(e);
    let kind = expression_kind(w);
    if !is_operator(kind) {
        return true;
    }
    if !within(t, left(w), levels - 1) {
        return false;
    }
    if kind == OPERATOR_NOT {
        return true;
    }
    within(t, right(w), levels - 1)
}

// The part of a table that starts with its expressions. A recursion over it alone has one number less to carry.
pub fn expression_words<'a>(t: &Table<'a>) -> &'a [u32]
    ensures { Section t.now.words result.now }
{
    let words = t.words();
    &words[t.expression0().min(words.len())..]
}

// Whether expression e, down to so many levels, mentions a port of which `asked` is true.
pub fn mentions_where<F: Fn(u32) -> bool>(t: &Table, asked: &F, e: u32, levels: u32) -> bool
    requires { F.IsAlwaysCallable asked.now }
    ensures { (q : ℕ → Bool) → Computes (F.post asked.now) q → result ≡ mentions_of levels t.now.words q e }
{
    mentions_in(expression_words(t), asked, e, levels)
}

// The same by the part x of a table that starts with its expressions. Both sides are read, for document 01 asks for each port.
#[cycle(argument_mentions_mentions_in)]
fn mentions_in<F: Fn(u32) -> bool>(x: &[u32], asked: &F, e: u32, levels: u32) -> bool
    requires { F.IsAlwaysCallable asked.now }
    ensures { (q : ℕ → Bool) → Computes (F.post asked.now) q → MentionsIn x.now q e levels result }
{
    if levels == 0 {
        return false;
    }
    let w = word(x, e as usize);
    let kind = expression_kind(w);
    if !is_operator(kind) {
        return asked(condition_port(w));
    }
    if argument_mentions(x, asked, left(w), levels - 1) {
        return true;
    }
    if kind == OPERATOR_NOT {
        return false;
    }
    argument_mentions(x, asked, right(w), levels - 1)
}

// The same of an argument. Half the words of a whole tree are conditions, and they are looked at here without a further call: for speed,
// these are two functions (docs/BENCHMARKS.md, Q-3).
#[cycle(argument_mentions_mentions_in)]
fn argument_mentions<F: Fn(u32) -> bool>(x: &[u32], asked: &F, e: u32, levels: u32) -> bool
    requires { F.IsAlwaysCallable asked.now }
    ensures { (q : ℕ → Bool) → Computes (F.post asked.now) q → MentionsIn x.now q e levels result }
{
    if levels == 0 {
        return false;
    }
    let w = word(x, e as usize);
    if is_operator(expression_kind(w)) {
        mentions_in(x, asked, e, levels)
    } else {
        asked(condition_port(w))
    }
}

// Whether expression e, down to so many levels, mentions a port whose flag is up.
pub fn mentions(t: &Table, flags: &[u32], e: u32, levels: u32) -> bool
    ensures { result ≡ mentions_of levels t.now.words (flagged flags.now) e }
{
    mentions_where(t, &|p| flag(flags, p), e, levels)
}
