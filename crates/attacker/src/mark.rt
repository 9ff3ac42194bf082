// How much an attacker knew after some of its messages.
use crate::atoms::Atoms;

#[derive(Clone, Copy)]
pub struct Mark {
    pub(crate) atoms: Atoms,
    pub(crate) parts: usize,
}
