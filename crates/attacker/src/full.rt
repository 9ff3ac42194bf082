// The full attacker joins messages and takes them apart, locks with the keys that it can get at, and opens locks whose
// inverse key it can get at.
ghost use Rattle.std.specs.Prelude.{◌≡◌, true, [], IfOk, Ok};
ghost use Rattle.attacker.specs.Calls.{ask_answer};
ghost use Rattle.attacker.specs.Derivation.{derives, CanMake};
ghost use Rattle.attacker.specs.Worked.{Worked};
ghost use Rattle.attacker.specs.Deciding.{derives_monotone, derives_own};

use crate::Attacker;
use crate::known::Known;
use crate::mark::Mark;
use crate::transcript::Transcript;
use message::closed::Message;
use message::stop::Stop;
use std::alloc::{AllocError, Global};
use std::marker::Model;

// A message that was heard, and how much was known before.
#[derive(Clone, Copy)]
struct Heard {
    message: Message,
    before: Mark,
}

#[derive(Drop)]
pub struct FullAttacker {
    heard: Transcript<Heard>,
    known: Known,
}

// Clauses see the list of the messages that it has heard.
impl Model for FullAttacker {
    ghost use Rattle.std.specs.Prelude.{ℕ, List};
    ghost use Rattle.attacker.specs.Known.{state_of};
    ghost use Rattle.attacker.specs.Marks.{heard_texts, Remembers};

    ghost Value = { List (List ℕ) };

    ghost view = { λ a. heard_texts a.heard };

    ghost invariant = { λ a. Remembers a.heard (state_of a.known) };
}

impl FullAttacker {
    // A full attacker that has heard nothing. Only this call asks for memory.
    #[tactic(auto, using(crate::proofs::Examples::worked))]
    pub fn new(heap: Global) -> Result<FullAttacker, AllocError>
        ensures starts_empty { IfOk result (λ a. a ≡ []) }
        ensures worked { Worked }
    {
        let heard = Transcript::new(heap)?;
        let known = Known::nothing(heap)?;
        Ok(FullAttacker { heard, known })
    }
}

impl Attacker for FullAttacker {
    ghost heard = { λ a. a };

    ghost makes = { λ _ list m. derives list m };

    ghost monotone = { λ a. derives_monotone };

    ghost own = { λ a. derives_own };

    fn count(&self) -> usize {
        self.heard.len()
    }

    fn hear(&mut self, message: &[u8]) -> Result<(), Stop> {
        let message = Message::read(message).ok_or(Stop::NotClosedForm)?;
        let before = self.known.mark();
        self.heard.push(Heard { message, before })?;
        self.known.learn(&message);
        Ok(())
    }

    fn ask(&self, message: &[u8]) -> Result<bool, Stop>
        ensures answer { result ≡ ask_answer derives self.now message.now }
        ensures derived { result ≡ Ok true → CanMake self.now message.now }
        ensures complete { CanMake self.now message.now → result ≡ Ok true }
    {
        let message = Message::read(message).ok_or(Stop::NotClosedForm)?;
        Ok(self.known.can_build(message.bytes()))
    }

    fn fall_back(&mut self, n: usize) -> Result<(), Stop> {
        if let Some(next) = self.heard.entries().get(n) {
            self.known.fall_back(next.before);
        }
        self.heard.truncate(n)
    }
}
