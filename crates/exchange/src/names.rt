// The variables of a role.
use message::row::Row;

mod methods;

// At most 8 variables, in order of first occurrence.
#[derive(Clone, Copy)]
pub struct Names {
    list: Row<u8, 8>,
}
