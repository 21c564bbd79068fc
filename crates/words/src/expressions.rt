// The fields of an expression's word: its kind, then a condition's, then an operator's.
ghost use Rattle.std.specs.Prelude.{◌≡◌};
ghost use Rattle.rulebook.specs.Words.{field as field_of};
ghost use Rattle.rulebook.specs.Expressions.{operator_kind};
ghost use Rattle.words.specs.Field.{Field};

use crate::bits;
use crate::numbers::{OPERATOR_AND, OPERATOR_NOT};

pub fn expression_kind(w: u32) -> u32
    ensures { Field (field_of 0 4 w) 16 result }
{
    bits::<0, 4>(w)
}

// Whether an expression of this kind is an operator; any other is a condition.
pub fn is_operator(kind: u32) -> bool
    ensures { result ≡ operator_kind kind }
{
    (OPERATOR_AND <= kind) & (kind <= OPERATOR_NOT)
}

pub fn condition_port(w: u32) -> u32
    ensures { Field (field_of 4 8 w) 256 result }
{
    bits::<4, 8>(w)
}

pub fn condition_value(w: u32) -> u32
    ensures { Field (field_of 12 8 w) 256 result }
{
    bits::<12, 8>(w)
}

pub fn left(w: u32) -> u32
    ensures { Field (field_of 4 14 w) 16384 result }
{
    bits::<4, 14>(w)
}

pub fn right(w: u32) -> u32
    ensures { Field (field_of 18 14 w) 16384 result }
{
    bits::<18, 14>(w)
}
