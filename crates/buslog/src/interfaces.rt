// The list of the interfaces: one name a line, as many as the table has networks, all different.
ghost use Rattle.std.specs.Prelude.{◌≡◌};
ghost use Rattle.rulebook.specs.BusLog.{names_stand};
ghost use Rattle.buslog.specs.Inside.{IsNumberOf};

use crate::pieces::{Piece, bytes_end, read_piece};

// The number of the first of k names that is this one. Whether the names stand is not asked.
pub fn number_of(names: &[u8], k: usize, name: &[u8]) -> Option<usize>
    ensures { IsNumberOf name.now k names.now result }
{
    let mut p = 0;
    for i in 0..k {
        let end = bytes_end(names, p, Piece::ListedName);
        if &names[p..end] == name {
            return Some(i);
        }
        p = (end + 1).min(names.len());
    }
    None
}

// Whether a list is k different names.
pub fn stand(names: &[u8], k: usize) -> bool
    ensures { result ≡ names_stand k names.now }
{
    let mut p = 0;
    for left in (0..k).rev() {
        let Ok(end) = read_piece(names, p, Piece::ListedName) else {
            return false;
        };
        if number_of(&names[end + 1..], left, &names[p..end]).is_some() {
            return false;
        }
        p = end + 1;
    }
    p == names.len()
}
