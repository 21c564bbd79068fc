// The table check: any words, of any number. Accepted with B, or the first reason that holds and its place.
#![tactic(auto)]

ghost use Rattle.std.specs.Prelude.{◌≡◌, ◌&&◌, Err};
ghost use Rattle.rulebook.specs.Reasons.{known_edition, counts_inside};
ghost use Rattle.rulebook.specs.Listing.{shape_reason};
ghost use Rattle.tables.specs.Finding.{finding, refused, promised, shape_number, Says, fault_of, ShapesTable, Shapes};

use cost::bound;
use fields::first_misfit;
use names::first_misnamed;
use nesting::{find_depths, first_deep};
use owners::first_clash;
use reach::first_unreached;
use words::sections::{Layout, read_layout};
use words::table::Table;

// The ten reasons in their order, 10 before 9, with the place where there is one.
#[derive(Clone, Copy, Debug, PartialEq, Eq)]
pub enum Fault {
    TooShort,
    WrongEdition,
    WrongCounts,
    WrongLength,
    Misfit(usize),
    Misnamed(usize),
    TooDeep(usize),
    OwnersClash(usize),
    Unreached(usize),
    TooDear,
}

// Reasons 1 to 4, which go by the header and the length alone.
#[derive(Clone, Copy, Debug, PartialEq, Eq)]
pub enum Misshapen {
    TooShort,
    WrongEdition,
    WrongCounts,
    WrongLength,
}

impl From<Misshapen> for Fault {
    ghost from_gives = { λ e f. f ≡ fault_of e };

    fn from(e: Misshapen) -> Fault {
        match e {
            Misshapen::TooShort => Fault::TooShort,
            Misshapen::WrongEdition => Fault::WrongEdition,
            Misshapen::WrongCounts => Fault::WrongCounts,
            Misshapen::WrongLength => Fault::WrongLength,
        }
    }
}

// A check's answer in numbers: the reason, the place and B.
#[derive(Clone, Copy, Debug, PartialEq, Eq)]
pub struct InNumbers {
    pub reason: u32,
    pub place: usize,
    pub bound: u32,
}

// A reason at a place; those that speak of no word are at place 0.
fn refused(reason: u32, place: usize) -> InNumbers
    ensures { Says (refused reason place) result.reason result.place result.bound }
{
    InNumbers {
        reason,
        place,
        bound: 0,
    }
}

pub fn numbers(checked: Result<u32, Fault>) -> InNumbers
    ensures { Says (finding checked) result.reason result.place result.bound }
{
    match checked {
        Ok(bound) => InNumbers {
            reason: 0,
            place: 0,
            bound,
        },
        Err(Fault::TooShort) => refused(1, 0),
        Err(Fault::WrongEdition) => refused(2, 0),
        Err(Fault::WrongCounts) => refused(3, 0),
        Err(Fault::WrongLength) => refused(4, 0),
        Err(Fault::Misfit(i)) => refused(5, i),
        Err(Fault::Misnamed(i)) => refused(6, i),
        Err(Fault::TooDeep(i)) => refused(7, i),
        Err(Fault::OwnersClash(i)) => refused(8, i),
        Err(Fault::Unreached(i)) => refused(10, i),
        Err(Fault::TooDear) => refused(9, 0),
    }
}

#[tactic(auto, unfolding(rulebook::specs::Reasons::known_edition))]
fn known_edition(t: &Table) -> bool
    ensures { result ≡ known_edition t.now.words }
{
    let edition = t.edition();
    (edition == 1) | (edition == 2)
}

fn counts_inside(t: &Table) -> bool
    ensures { result ≡ counts_inside t.now.words }
{
    let ports = t.ports();
    let networks = t.networks();
    let sources = t.sources();
    let expressions = t.expressions();
    let rules = t.rules();
    let lists = t.lists();
    let items = t.items();
    (1 <= ports)
        & (ports <= 64)
        & (networks <= 8)
        & (sources <= 32)
        & ((1 <= expressions) & (expressions <= 512))
        & ((1 <= rules) & (rules <= 256))
        & (lists <= 255)
        & (items <= 2047)
}

// Whether a header names a known edition and counts inside their limits.
pub fn sound_header(t: &[u32]) -> bool
    ensures { result ≡ known_edition t.now && counts_inside t.now }
{
    let table = Table::read(t);
    known_edition(&table) & counts_inside(&table)
}

// The table, where none of reasons 1 to 4 holds.
pub fn shaped<'a>(t: &'a [u32]) -> Result<Table<'a>, Misshapen>
    ensures { ShapesTable t.now result }
{
    if t.len() < 3 {
        return Err(Misshapen::TooShort);
    }
    let table = Table::read(t);
    if !known_edition(&table) {
        return Err(Misshapen::WrongEdition);
    }
    if !counts_inside(&table) {
        return Err(Misshapen::WrongCounts);
    }
    if t.len() != table.length() {
        return Err(Misshapen::WrongLength);
    }
    Ok(table)
}

// The header's layout, where none of reasons 1 to 4 holds: a value of its own, which keeps hold of no word.
pub fn check_shape(t: &[u32]) -> Result<Layout, Misshapen>
    ensures { Shapes t.now result }
{
    shaped(t)?;
    Ok(read_layout(t))
}

// B, or the first of reasons 5 to 10, where none of 1 to 4 holds.
fn check_words(t: &Table) -> Result<u32, Fault>
    requires { shape_reason t.now.words ≡ 0 }
    ensures { finding result ≡ promised t.now.words }
{
    let end = t.length();
    let misfit = first_misfit(t);
    if misfit < end {
        return Err(Fault::Misfit(misfit));
    }
    let misnamed = first_misnamed(t);
    if misnamed < end {
        return Err(Fault::Misnamed(misnamed));
    }
    let mut depths = [0u32; 256];
    find_depths(t, &mut depths);
    let deep = first_deep(t, &depths);
    if deep < end {
        return Err(Fault::TooDeep(deep));
    }
    let clash = first_clash(t);
    if clash < end {
        return Err(Fault::OwnersClash(clash));
    }
    let unreached = first_unreached(t, &depths);
    if unreached < end {
        return Err(Fault::Unreached(unreached));
    }
    let b = bound(t, &depths);
    if 4096 < b {
        return Err(Fault::TooDear);
    }
    Ok(b)
}

// The answer on a table that one of reasons 1 to 4 refuses.
fn not_shaped(shape: Result<Table<'_>, Misshapen>) -> Result<u32, Fault>
    ensures { finding result ≡ refused (shape_number shape.entry) 0 }
{
    match shape {
        Ok(_) => Ok(0),
        Err(why) => Err(Fault::from(why)),
    }
}

// B, or the first reason that holds.
pub fn check(t: &[u32]) -> Result<u32, Fault>
    ensures { finding result ≡ promised t.now }
{
    let shape = shaped(t);
    let Ok(table) = shape else {
        return not_shaped(shape);
    };
    check_words(&table)
}
