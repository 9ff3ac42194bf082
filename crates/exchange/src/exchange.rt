// An exchange as a value.
ghost use Rattle.std.specs.Prelude.{◌≡◌, ◌≤◌, true, map, vec_capacity};
ghost use Rattle.std.specs.List.{list_all};
ghost use Rattle.message.specs.Bytes.{is_atom};
ghost use Rattle.exchange.specs.Atoms.{atoms_in};
ghost use Rattle.exchange.specs.Rules.{once};

use crate::claim::Claim;
use crate::declaration::Declaration;
use crate::role::Role;
use crate::session::Session;
use message::closed::Message;

mod accepting;
mod adding;
mod asking;
mod joining;
mod making;
mod ordering;
mod writing;

// Declared atoms, opening messages, roles, sessions and claims, each in its order. There is room for as many as the
// limits allow: an atom is declared once, and there are 112.
#[derive(Drop)]
pub struct Exchange {
    pub atoms: Vec<Declaration>,
    pub opening: Vec<Message>,
    pub roles: Vec<Role>,
    pub sessions: Vec<Session>,
    pub claims: Vec<Claim>,
    ghost atom_room: { 112 ≤ vec_capacity atoms },
    ghost opening_room: { 32 ≤ vec_capacity opening },
    ghost role_room: { 4 ≤ vec_capacity roles },
    ghost session_room: { 8 ≤ vec_capacity sessions },
    ghost claim_room: { 8 ≤ vec_capacity claims },
    ghost atoms_are: { list_all is_atom (atoms_in atoms.items) ≡ true },
    ghost atoms_once: { once (atoms_in atoms.items) ≡ true },
}
