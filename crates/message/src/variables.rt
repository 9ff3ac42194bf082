// The variables of a form.
ghost use Rattle.std.specs.Prelude.{◌≡◌, ◌-◌, length, replicate};
ghost use Rattle.message.specs.Rows.{items_in, rest_of};

use crate::row::Row;

mod methods;

// The names of some variables, at most 24, zeros after them.
#[derive(Clone, Copy)]
pub struct Variables {
    names: Row<u8, 24>,
    ghost padded: { rest_of names ≡ replicate (24 - length (items_in names)) 0 },
}
