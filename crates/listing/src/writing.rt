// A table's listing laid into lent bytes: refused with reason 1 to 4 where one holds, then where the bytes are too few, and then nothing is written.
ghost use Rattle.std.specs.Prelude.{◌≡◌, ◌+◌, ◌<◌, ◌≤◌, length, Err};
ghost use Rattle.text.specs.Puts.{PutAt};
ghost use Rattle.tables.specs.Finding.{shape_number};
ghost use Rattle.rulebook.specs.Listing.{fields_of};
ghost use Rattle.rulebook.specs.Table.{table_length};
ghost use Rattle.listing.specs.Forms.{form_number};
ghost use Rattle.listing.specs.Lines.{spelt, line, line_at, listing};
ghost use Rattle.listing.specs.Promises.{refusal_number, listed_number, bytes_of as bytes_in, Lists};
ghost use Rattle.listing.specs.Inside.{Leaves};

use crate::forms::{Form, ending, form_at, name, of_kind, sizes};
use tables::Misshapen;
use text::output::{put_decimal, put_label};
use words::expressions::expression_kind;
use words::table::Table;
use words::word;

// Lays a word's fields, spelt in a form. What is above a field in the word is a multiple of unit times size.
fn lay_fields(out: &mut [u8], at: usize, f: Form, w: u32) -> usize
    requires { at + length (spelt (fields_of (form_number f) w)) ≤ length out.old }
    ensures { PutAt (spelt (fields_of (form_number f) w)) out.old at result out.new }
{
    let row = sizes(f);
    let mut next = at;
    let mut unit: u64 = 4294967296;
    for (k, size) in row.iter().enumerate() {
        let size = u64::from(*size);
        unit /= size;
        next = put_decimal(out, next, u64::from(w) / unit % size, ending(k, row.len()));
    }
    next
}

// Lays a word's line in a form.
fn lay_form(out: &mut [u8], at: usize, f: Form, w: u32) -> usize
    requires { at + length (line (form_number f) w) ≤ length out.old }
    ensures { PutAt (line (form_number f) w) out.old at result out.new }
{
    let next = put_label(out, at, name(f));
    lay_fields(out, next, f, w)
}

// Lays the line of the word at a place.
fn lay_line(out: &mut [u8], at: usize, t: &Table, i: usize) -> usize
    requires { (i < table_length t.now.words) × (at + length (line_at t.now.words i) ≤ length out.old) }
    ensures { PutAt (line_at t.now.words i) out.old at result out.new }
{
    let w = word(t.words(), i);
    let f = of_kind(form_at(t, i), expression_kind(w));
    lay_form(out, at, f, w)
}

// What a listing leaves of a room, or None where it does not fit: each line is laid into bytes of our own for its length.
fn listing_room(t: &Table, room: usize) -> Option<usize>
    requires { table_length t.now.words ≡ length t.now.words }
    ensures { Leaves (listing t.now.words) room result }
{
    let mut left = room;
    for i in 0..t.length() {
        let mut bytes = [0u8; 64];
        let long = lay_line(&mut bytes, 0, t, i);
        left = left.checked_sub(long)?;
    }
    Some(left)
}

// Lays a whole listing at the front.
fn lay_listing(out: &mut [u8], t: &Table) -> usize
    requires { (table_length t.now.words ≡ length t.now.words) × (length (listing t.now.words) ≤ length out.old) }
    ensures { PutAt (listing t.now.words) out.old 0 result out.new }
{
    let mut next = 0;
    for i in 0..t.length() {
        next = lay_line(out, next, t, i);
    }
    next
}

// What refuses a listing: reason 1 to 4, or that the lent bytes are too few.
#[derive(Clone, Copy, Debug, PartialEq, Eq)]
pub enum NotListed {
    TooShort,
    WrongEdition,
    WrongCounts,
    WrongLength,
    NoRoom,
}

impl From<Misshapen> for NotListed {
    ghost from_gives = { λ m n. refusal_number n ≡ shape_number (Err m) };

    fn from(misshapen: Misshapen) -> NotListed {
        match misshapen {
            Misshapen::TooShort => NotListed::TooShort,
            Misshapen::WrongEdition => NotListed::WrongEdition,
            Misshapen::WrongCounts => NotListed::WrongCounts,
            Misshapen::WrongLength => NotListed::WrongLength,
        }
    }
}

// An answer's number.
pub fn number(listed: Result<usize, NotListed>) -> u32
    ensures { result ≡ listed_number listed }
{
    match listed {
        Ok(_) => 0,
        Err(NotListed::TooShort) => 1,
        Err(NotListed::WrongEdition) => 2,
        Err(NotListed::WrongCounts) => 3,
        Err(NotListed::WrongLength) => 4,
        Err(NotListed::NoRoom) => 11,
    }
}

// How many bytes were laid; 0 in a refusal.
pub fn bytes(listed: Result<usize, NotListed>) -> usize
    ensures { result ≡ bytes_in listed }
{
    listed.unwrap_or(0)
}

// The answer on words that are no table.
fn not_shaped(shape: Result<Table<'_>, Misshapen>) -> Result<usize, NotListed>
    ensures { (listed_number result ≡ shape_number shape.entry) × (bytes_in result ≡ 0) }
{
    match shape {
        Ok(_) => Ok(0),
        Err(why) => Err(NotListed::from(why)),
    }
}

// Lays a table's listing at the front of the lent bytes and answers how many they are, or refuses and changes none of them.
pub fn list(words: &[u32], out: &mut [u8]) -> Result<usize, NotListed>
    ensures { Lists words.now out.old result out.new }
{
    let shape = tables::shaped(words);
    let Ok(t) = shape else {
        return not_shaped(shape);
    };
    let Some(_) = listing_room(&t, out.len()) else {
        return Err(NotListed::NoRoom);
    };
    Ok(lay_listing(out, &t))
}
