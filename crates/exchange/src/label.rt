// The text that an atom is shown by.
use message::row::Row;

mod methods;

// At most 12 bytes.
#[derive(Clone, Copy)]
pub struct Label {
    bytes: Row<u8, 12>,
}
