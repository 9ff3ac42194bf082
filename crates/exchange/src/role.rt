// A role: what one side of an exchange does, line by line.
ghost use Rattle.std.specs.Prelude.{◌≡◌, map};
ghost use Rattle.message.specs.Rows.{items_in};
ghost use Rattle.exchange.specs.Names.{names_in};
ghost use Rattle.exchange.specs.Parts.{step_of};
ghost use Rattle.exchange.specs.Rules.{role_variables};

use crate::names::Names;
use crate::step::Step;
use message::row::Row;

mod methods;

// At most 12 steps, and the variables of their forms.
#[derive(Clone, Copy)]
pub struct Role {
    steps: Row<Step, 12>,
    names: Names,
    ghost named: { names_in names ≡ role_variables (map step_of (items_in steps)) },
}
