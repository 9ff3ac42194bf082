// One field of an exchange file.
ghost use Rattle.std.specs.Prelude.{◌≤◌, length};

use crate::claim::Claim;
use crate::step::Step;

mod reading;

// Pairs of a variable and its atom, at most 8: a session's field has no room for more.
#[derive(Clone, Copy)]
pub struct Pairs<'f> {
    pub(crate) bytes: &'f [u8],
    ghost short: { length bytes.now ≤ 16 },
}

// What a field says. Labels, forms, messages and pairs are the file's own bytes, not yet looked into.
#[derive(Clone, Copy)]
pub enum Field<'f> {
    Atom { atom: u8, label: &'f [u8] },
    Opening { message: &'f [u8] },
    Role,
    Step(Step<&'f [u8]>),
    Session { role: u8, pairs: Pairs<'f> },
    Claim(Claim<&'f [u8]>),
    Finish,
}
