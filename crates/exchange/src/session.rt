// A session: a role that is played, with starting values for some of its variables.
use message::row::Row;

mod methods;

// A variable and the atom that it has from the start.
#[derive(Clone, Copy)]
pub struct Binding {
    pub variable: u8,
    pub atom: u8,
}

// A role by its number, and at most 8 starting values.
#[derive(Clone, Copy)]
pub struct Session {
    role: u8,
    bindings: Row<Binding, 8>,
}
