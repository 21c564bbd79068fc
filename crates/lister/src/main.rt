// `list TABLE`: the program behind `./herringcart list`. Thin: it reads and writes; the listing is laid by `listing`.
#![tactic(auto)]

mod space;

use files::faults::say_bytes;
use listing::writing;

// Says why nothing is printed; the front tells by the first words that it was a refusal.
fn refuse(rt: HostRuntime, reason: u32) {
    let mut out = space::reason_bytes();
    let n = text::output::put_decimal_line(&mut out, 0, reason);
    say_bytes(rt, b"herringcart: refused: the table has reason ");
    say_bytes(rt, &out[..n]);
}

// Prints a table's listing, or says that reason 1 to 4 refuses it. Answer 11 would be told likewise; the room is enough for every table.
fn print_listing(rt: HostRuntime, t: &[u32]) {
    let mut out = space::listing_bytes();
    let listed = writing::list(t, &mut out);
    match listed {
        Ok(n) => {
            files::print(rt, &out[..n]);
        }
        Err(_) => refuse(rt, writing::number(listed)),
    }
}

fn main(rt: HostRuntime) {
    let mut path = files::space::path_bytes();
    let mut words = files::space::table_words();
    if let Some(n) = files::read_table(rt, b"list TABLE", &mut path, &mut words) {
        print_listing(rt, &words[..n]);
    }
}
