ghost use Rattle.std.specs.Prelude.{◌≡◌, ◌<◌, ◌≤◌, length, Ok};
ghost use Rattle.exchange.specs.Checks.{then, message_of, last_role, with_opening, with_role, with_claim, add_declaration, add_step, add_claim};
ghost use Rattle.exchange.specs.Fields.{step_seen, claim_seen};
ghost use Rattle.exchange.specs.Parts.{step_of, claim_of};
ghost use Rattle.exchange.specs.Reading.{added, push_step};
ghost use Rattle.exchange.specs.Rules.{atoms_of};
ghost use Rattle.exchange.specs.Views.{exchange_of};

use crate::claim::Claim;
use crate::declaration::Declaration;
use crate::exchange::Exchange;
use crate::exchange::asking::is_atom;
use crate::label::Label;
use crate::role::Role;
use crate::step::Step;
use message::stop::Stop;

// Each call needs room for one more of its own kind, which `has_room` has tested; a new atom always has room.
impl Exchange {
    // Declares an atom that is not declared yet.
    pub(crate) fn add_declaration(&mut self, atom: u8, label: &[u8]) -> Result<(), Stop>
        requires short { length label.now ≤ 12 }
        ensures added { added result (exchange_of self.new) ≡ add_declaration (exchange_of self.old) atom label.now }
    {
        if self.declares(atom) {
            return Err(Stop::NotAscending);
        }
        if !is_atom(atom) {
            return Err(Stop::OutOfRange);
        }
        let label = Label::read(label)?;
        self.atoms.push_reserved(Declaration { atom, label });
        Ok(())
    }

    // One more opening message.
    pub(crate) fn add_opening(&mut self, bytes: &[u8]) -> Result<(), Stop>
        requires room { length (exchange_of self.old).opening < 32 }
        ensures added { added result (exchange_of self.new) ≡ then (message_of (atoms_of (exchange_of self.old)) bytes.now) (λ _. Ok (with_opening (exchange_of self.old) bytes.now)) }
    {
        let message = self.read_message(bytes)?;
        self.opening.push_reserved(message);
        Ok(())
    }

    // One more role, with no step yet.
    pub(crate) fn add_role(&mut self)
        requires room { length (exchange_of self.old).roles < 4 }
        ensures added { exchange_of self.new ≡ with_role (exchange_of self.old) }
    {
        self.roles.push_reserved(Role::begin());
    }

    // One more step of the last role, of which `step` has the kind and the form that was read.
    fn push_step(&mut self, step: Step) -> Result<(), Stop>
        requires some { 1 ≤ length (exchange_of self.old).roles }
        requires room { length (last_role (exchange_of self.old)) < 12 }
        ensures added { added result (exchange_of self.new) ≡ push_step (exchange_of self.old) (step_of step) }
    {
        let mut role = self.roles.pop().ok_or(Stop::PartMissing)?;
        role.add(step)?;
        self.roles.push_reserved(role);
        Ok(())
    }

    // One more step of the last role.
    pub(crate) fn add_step(&mut self, step: Step<&[u8]>) -> Result<(), Stop>
        requires some { 1 ≤ length (exchange_of self.old).roles }
        requires room { length (last_role (exchange_of self.old)) < 12 }
        ensures added { added result (exchange_of self.new) ≡ add_step (exchange_of self.old) (step_seen step.entry) }
    {
        let form = self.read_form(step.form())?;
        self.push_step(step.with_form(form))
    }

    // One more claim: of a message, or of a variable that its session's role has, or of a mark.
    pub(crate) fn add_claim(&mut self, claim: Claim<&[u8]>) -> Result<(), Stop>
        requires room { length (exchange_of self.old).claims < 8 }
        ensures added { added result (exchange_of self.new) ≡ add_claim (exchange_of self.old) (claim_seen claim.entry) }
    {
        let claim = self.read_claim(claim)?;
        self.claims.push_reserved(claim);
        Ok(())
    }
}
