// What is said of a log that is refused: one line on standard error, with the number of the line, 0 where the table or the list of the interfaces is
// refused.
use crate::space;
use buslog::reading::Halt;
use files::faults::say_bytes;
use words::table::Table;

// Says something on standard error, and a number behind it that a byte ends.
fn say(rt: HostRuntime, what: &[u8], n: u64, end: u8) {
    let mut out = space::number();
    let bytes = text::output::put_decimal(&mut out, 0, n, end);
    say_bytes(rt, what);
    say_bytes(rt, &out[..bytes]);
}

// What is wrong with a table: its reason, and the word that has it.
fn tell_table(rt: HostRuntime, t: &[u32]) {
    let Err(refused) = session::open(t) else {
        return;
    };
    say(
        rt,
        b" the table has reason ",
        u64::from(refused.reason),
        b' ',
    );
    say(rt, b"at word ", u64::from(refused.place), b'\n');
}

// What a list of the interfaces has to be with a table of so many networks.
fn tell_names(rt: HostRuntime, networks: u32) {
    if networks == 0 {
        say_bytes(
            rt,
            b" INTERFACES is not empty, and the table has no network\n",
        );
        return;
    }
    say(rt, b" INTERFACES is not ", u64::from(networks), b' ');
    if networks == 1 {
        say_bytes(rt, b"name, one a line\n");
        return;
    }
    say_bytes(rt, b"different names, one a line\n");
}

// Tells of the refusal of a line. Where the output is full it is emptied, so nobody hears of that.
pub fn complain(rt: HostRuntime, t: &[u32], halt: Halt, line: u64) {
    say(rt, b"herringcart: line ", line, b':');
    match halt {
        Halt::BadTable => tell_table(rt, t),
        Halt::BadNames => tell_names(rt, Table::read(t).networks()),
        Halt::Misspelt => say_bytes(rt, b" misspelt\n"),
        Halt::GoesBack => say_bytes(rt, b" the time goes back\n"),
        Halt::Unlisted => say_bytes(rt, b" an interface that is not listed\n"),
        Halt::NoRoom => say_bytes(rt, b" no room for the events\n"),
    }
}
