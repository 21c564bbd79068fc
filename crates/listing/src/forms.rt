// The forms of lines: a section's name and the sizes of a word's fields. This one description serves writing and reading.
ghost use Rattle.std.specs.Prelude.{◌≡◌, ◌+◌, ◌<◌, ◌≤◌, cond, length, ltb};
ghost use Rattle.rulebook.specs.Listing.{form, kind_form, form_at, place_form};
ghost use Rattle.rulebook.specs.Table.{table_length};
ghost use Rattle.words.specs.Parts.{part_of};
ghost use Rattle.listing.specs.Forms.{form_number};
ghost use Rattle.listing.specs.Inside.{sizes_of};

use words::expressions::is_operator;
use words::parts::Part;
use words::table::Table;

// The header's three lines have a form each, a network two lines, an expression's line one of two forms, and an item's one for each edition.
#[derive(Clone, Copy, Debug, PartialEq, Eq)]
pub enum Form {
    FirstHeader,
    SecondHeader,
    ThirdHeader,
    Port,
    Network,
    Waits,
    Source,
    Condition,
    Operator,
    Rule,
    List,
    FirstItem,
    SecondItem,
    // A number behind theirs, by how far it is: a form without a name and without fields.
    Beyond(usize),
}

// The rulebook's forms are numbers, and any number may be asked for.
impl From<usize> for Form {
    ghost from_gives = { λ number f. form_number f ≡ number };

    fn from(number: usize) -> Form {
        match number {
            0 => Form::FirstHeader,
            1 => Form::SecondHeader,
            2 => Form::ThirdHeader,
            3 => Form::Port,
            4 => Form::Network,
            5 => Form::Waits,
            6 => Form::Source,
            7 => Form::Condition,
            8 => Form::Operator,
            9 => Form::Rule,
            10 => Form::List,
            11 => Form::FirstItem,
            12 => Form::SecondItem,
            _ => Form::Beyond(number - 13),
        }
    }
}

// The sections' names, each with the space behind it. They are one constant so that a copy of a name is a copy of what cannot change, and the
// archive needs no `memmove` for it.
const NAMES: &[u8] = b"header port network source expression rule list item ";

// A section's name by a form, with the space behind it.
#[tactic(auto, unfolding(rulebook::specs::Listing::form, rulebook::specs::Listing::forms))]
pub fn name(f: Form) -> &'static [u8]
    ensures { (result.now ≡ (form (form_number f)).name) × (length result.now ≤ 11) }
{
    let (from, to) = match f {
        Form::FirstHeader | Form::SecondHeader | Form::ThirdHeader => (0, 7),
        Form::Port => (7, 12),
        Form::Network | Form::Waits => (12, 20),
        Form::Source => (20, 27),
        Form::Condition | Form::Operator => (27, 38),
        Form::Rule => (38, 43),
        Form::List => (43, 48),
        Form::FirstItem | Form::SecondItem => (48, 53),
        Form::Beyond(_) => (53, 53),
    };
    &NAMES[from..to]
}

// How many values each field has, in the order of the fields.
#[tactic(auto, unfolding(rulebook::specs::Listing::form, rulebook::specs::Listing::forms, crate::specs::Inside::sizes_of))]
pub fn sizes(f: Form) -> &'static [u32]
    ensures { (result.now ≡ sizes_of (form (form_number f)).widths) × (length result.now ≤ 6) }
{
    match f {
        Form::FirstHeader => &[256, 256, 256, 256],
        Form::SecondHeader => &[65536, 65536],
        Form::ThirdHeader => &[65536, 65536],
        Form::Port => &[4, 2, 2, 16, 256, 65536],
        Form::Network => &[16, 256, 256, 4096],
        Form::Waits => &[256, 256, 65536],
        Form::Source => &[16, 256, 65536, 16],
        Form::Condition => &[16, 256, 256, 4096],
        Form::Operator => &[16, 16384, 16384],
        Form::Rule => &[16, 4, 2, 512, 256, 256],
        Form::List => &[16, 2, 256, 2048, 256],
        Form::FirstItem => &[16, 4096, 65536],
        Form::SecondItem => &[16, 2, 2048, 65536],
        Form::Beyond(_) => &[],
    }
}

// The form at a place, by its part. The edition is asked for here and nowhere else.
#[tactic(auto, unfolding(rulebook::specs::Listing::place_form))]
fn place_form(t: &Table, i: usize, part: Part) -> Form
    ensures { form_number result ≡ place_form t.now.words i (part_of part) }
{
    match part {
        Part::Header => Form::from(i),
        Part::Port(_) => Form::Port,
        Part::Network(_) => Form::Network,
        Part::Waits(_) => Form::Waits,
        Part::Source(_) => Form::Source,
        Part::Expression(_) => Form::Condition,
        Part::Rule(_) => Form::Rule,
        Part::List(_) => Form::List,
        Part::Item(_) => {
            if t.is_second_edition() {
                Form::SecondItem
            } else {
                Form::FirstItem
            }
        }
    }
}

#[tactic(auto, unfolding(rulebook::specs::Listing::form_at))]
pub fn form_at(t: &Table, i: usize) -> Form
    requires { i < table_length t.now.words }
    ensures { form_number result ≡ form_at t.now.words i }
{
    place_form(t, i, t.part(i))
}

// The form of a line, by the form at its place: an expression of an operator's kind has an operator's.
#[tactic(auto, unfolding(rulebook::specs::Listing::kind_form))]
pub fn of_kind(f: Form, kind: u32) -> Form
    ensures { form_number result ≡ kind_form (form_number f) kind }
{
    match f {
        Form::Condition if is_operator(kind) => Form::Operator,
        _ => f,
    }
}

// What stands behind the k-th of n fields, counted from 0: a space, or a newline behind the last.
pub fn ending(k: usize, n: usize) -> u8
    requires { k < n }
    ensures { result ≡ cond (ltb (k + 1) n) 32 10 }
{
    if k + 1 < n { b' ' } else { b'\n' }
}
