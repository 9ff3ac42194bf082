// What comes out of the messages that an attacker has heard, by parting and unlocking.
ghost use Rattle.std.specs.Prelude.{◌≡◌, ℕ, ◌≤◌, false, [], vec_capacity, IfOk};
ghost use Rattle.attacker.specs.Atoms.{within};
ghost use Rattle.attacker.specs.declared.known.TheConstants.{MOST_PARTS};

use crate::atoms::Atoms;
use crate::mark::Mark;
use crate::transcript::MOST_HEARD;
use message::closed::Message;
use std::alloc::{AllocError, Global};

mod asking;
mod learning;

// A message of 24 bytes has at most 11 joined and locked parts.
const MOST_PARTS: usize = 11 * MOST_HEARD;

// The atoms, and the joined and locked parts. There is room for the parts of all that can be heard.
#[derive(Drop)]
pub struct Known {
    pub(crate) atoms: Atoms,
    pub(crate) parts: Vec<Message>,
    ghost room: { MOST_PARTS ≤ vec_capacity parts },
}

impl Known {
    ghost use Rattle.attacker.specs.Known.{state_of};
    ghost use Rattle.attacker.specs.Marks.{mark_of, at_mark};

    // Nothing is known.
    pub(crate) fn nothing(heap: Global) -> Result<Known, AllocError>
        ensures atoms { IfOk result (λ known. (b : ℕ) → within known.atoms b ≡ false) }
        ensures kept { IfOk result (λ known. (state_of known).kept ≡ []) }
    {
        let parts = Vec::with_capacity(heap, MOST_PARTS)?;
        Ok(Known {
            atoms: Atoms::none(),
            parts,
        })
    }

    // How much is known now.
    pub(crate) fn mark(&self) -> Mark
        ensures value { result ≡ mark_of (state_of self.now) }
    {
        Mark {
            atoms: self.atoms,
            parts: self.parts.len(),
        }
    }

    // Keeps what was known at the mark.
    pub(crate) fn fall_back(&mut self, mark: Mark)
        ensures after { state_of self.new ≡ at_mark mark (state_of self.old) }
    {
        self.atoms = mark.atoms;
        self.parts.truncate(mark.parts);
    }
}
