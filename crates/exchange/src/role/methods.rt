ghost use Rattle.std.specs.Prelude.{◌≡◌, ◌<◌, true, false, [], ◌∷◌, ◌++◌, map, length, MatchResult, nat_le};
ghost use Rattle.message.specs.declared.stop.Stop.TheVariants.{LimitPassed};
ghost use Rattle.message.specs.Variables.{among};
ghost use Rattle.exchange.specs.Parts.{step_of};
ghost use Rattle.exchange.specs.Roles.{role_of};
ghost use Rattle.exchange.specs.Rules.{role_variables};

use crate::names::Names;
use crate::role::Role;
use crate::step::Step;
use message::form::Form;
use message::row::Row;
use message::stop::Stop;

// What stands in a role's places that have no step yet: a send of the name 00.
fn filler() -> Step {
    Step::Send(Form::read(&[0]).unwrap())
}

impl Role {
    // A role with no step yet.
    pub(crate) fn begin() -> Role
        ensures empty { role_of result ≡ [] }
    {
        Role {
            steps: Row::new(filler()),
            names: Names::none(),
        }
    }

    // The steps in their order.
    pub fn steps(&self) -> &[Step]
        ensures value { map step_of result.now ≡ role_of self.now }
    {
        self.steps.as_slice()
    }

    // The variables of the role's forms, each once, in order of first occurrence.
    pub(crate) fn variables(&self) -> &[u8]
        ensures value { result.now ≡ role_variables (role_of self.now) }
    {
        self.names.list()
    }

    // One more step; refused where the role would have more than 8 variables.
    pub(crate) fn add(&mut self, step: Step) -> Result<(), Stop>
        requires room { length (role_of self.old) < 12 }
        ensures cases { MatchResult result (λ _. (nat_le (length (role_variables (role_of self.old ++ step_of step ∷ []))) 8 ≡ true) × (role_of self.new ≡ role_of self.old ++ step_of step ∷ [])) (λ stop. (nat_le (length (role_variables (role_of self.old ++ step_of step ∷ []))) 8 ≡ false) × (stop ≡ LimitPassed)) }
    {
        let mut names = self.names;
        names.note_all(step.form().bytes())?;
        self.steps.push(step).unwrap();
        self.names = names;
        Ok(())
    }
}
