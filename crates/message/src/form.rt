// A form: an atom, a variable, two forms joined, or a form locked, in 1 to 24 bytes.
ghost use Rattle.std.specs.Prelude.{◌≡◌, ◌-◌, true, length, replicate};
ghost use Rattle.message.specs.Rows.{items_in, rest_of};
ghost use Rattle.message.specs.Trees.{is_form};

use crate::row::Row;

mod filling;
pub mod methods;

// The bytes of one form, zeros after them, so that one form has one value. Two forms are equal where their bytes are.
#[derive(Clone, Copy, PartialEq)]
pub struct Form {
    bytes: Row<u8, 24>,
    ghost padded: { rest_of bytes ≡ replicate (24 - length (items_in bytes)) 0 },
    ghost reads: { is_form (items_in bytes) ≡ true },
}
