// A declared atom.
use crate::label::Label;

#[derive(Clone, Copy)]
pub struct Declaration {
    pub atom: u8,
    pub label: Label,
}
