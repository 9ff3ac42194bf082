// The repeater can only say again what it heard, message by message.
ghost use Rattle.std.specs.Prelude.{◌≡◌, [], IfOk};
ghost use Rattle.attacker.specs.Laws.{has};
ghost use Rattle.std.proofs.Common.{rules};

use crate::Attacker;
use crate::among::stands_among;
use crate::transcript::Transcript;
use message::closed::Message;
use message::stop::Stop;
use std::alloc::{AllocError, Global};
use std::marker::Model;

#[derive(Drop)]
pub struct Repeater {
    heard: Transcript<Message>,
}

// Clauses see the list of the messages that it has heard.
impl Model for Repeater {
    ghost use Rattle.std.specs.Prelude.{ℕ, List};
    ghost use Rattle.attacker.specs.Texts.{texts};

    ghost Value = { List (List ℕ) };

    ghost view = { λ a. texts a.heard };
}

impl Repeater {
    // A repeater that has heard nothing. Only this call asks for memory.
    pub fn new(heap: Global) -> Result<Repeater, AllocError>
        ensures starts_empty { IfOk result (λ a. a ≡ []) }
    {
        let heard = Transcript::new(heap)?;
        Ok(Repeater { heard })
    }
}

impl Attacker for Repeater {
    ghost heard = { λ a. a };

    ghost makes = { λ _ list m. has list m };

    ghost monotone = { Prim.search rules };

    ghost own = { Prim.search rules };

    fn count(&self) -> usize {
        self.heard.len()
    }

    fn hear(&mut self, message: &[u8]) -> Result<(), Stop> {
        let message = Message::read(message).ok_or(Stop::NotClosedForm)?;
        self.heard.push(message)
    }

    fn ask(&self, message: &[u8]) -> Result<bool, Stop> {
        let message = Message::read(message).ok_or(Stop::NotClosedForm)?;
        Ok(stands_among(self.heard.entries(), message.bytes()))
    }

    fn fall_back(&mut self, n: usize) -> Result<(), Stop> {
        self.heard.truncate(n)
    }
}
