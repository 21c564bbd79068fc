// `inspect TABLE`: the program behind `./herringcart check`. Thin: it reads and writes; what is printed is laid by `verdict`. It reads
// its file as `run` does, and no further.
#![tactic(auto)]

mod space;

// Prints what the check says of a table, or says on standard error that it cannot.
fn print_verdict(rt: HostRuntime, t: &[u32]) {
    let mut out = space::lines();
    let n = verdict::lay_verdict(t, &mut out);
    files::print(rt, &out[..n]);
}

fn main(rt: HostRuntime) {
    let mut path = files::space::path_bytes();
    let mut words = files::space::table_words();
    if let Some(n) = files::read_table(rt, b"check TABLE", &mut path, &mut words) {
        print_verdict(rt, &words[..n]);
    }
}
