ghost use Rattle.std.specs.Prelude.{◌≡◌, ◌<◌, [], ◌∷◌, ◌++◌, map, length};
ghost use Rattle.message.specs.Variables.{among};
ghost use Rattle.exchange.specs.Checks.{is_next};
ghost use Rattle.exchange.specs.Rules.{started};
ghost use Rattle.exchange.specs.Sessions.{binding_of, starts_in, session_of};

use crate::session::{Binding, Session};
use message::row::Row;

impl Session {
    // A session of the role with no starting value yet.
    pub(crate) fn begin(role: u8) -> Session
        ensures role { result.role ≡ role }
        ensures empty { starts_in result ≡ [] }
    {
        let none = Binding {
            variable: 0,
            atom: 0,
        };
        Session {
            role,
            bindings: Row::new(none),
        }
    }

    // The number of the role.
    pub fn role(&self) -> u8
        ensures value { result ≡ (session_of self.now).role }
    {
        self.role
    }

    // The starting values, their variables ascending.
    pub fn bindings(&self) -> &[Binding]
        ensures value { map binding_of result.now ≡ (session_of self.now).starts }
    {
        self.bindings.as_slice()
    }

    // One more starting value.
    pub(crate) fn add(&mut self, binding: Binding)
        requires room { length (starts_in self.old) < 8 }
        ensures role { self.new.role ≡ self.old.role }
        ensures starts { starts_in self.new ≡ starts_in self.old ++ binding_of binding ∷ [] }
    {
        self.bindings.push(binding).unwrap();
    }

    // Whether the variable has a value from the start.
    pub(crate) fn starts(&self, variable: u8) -> bool
        ensures value { result ≡ among variable (started (starts_in self.now)) }
    {
        self.bindings()
            .iter()
            .any(|binding| variable == binding.variable)
    }

    // Whether the variable may follow those that have values: it is larger than the last.
    #[tactic(auto, using(crate::proofs::Pairing::next_is))]
    pub(crate) fn is_next(&self, variable: u8) -> bool
        ensures value { result ≡ is_next (starts_in self.now) variable }
    {
        self.bindings()
            .last()
            .is_none_or(|binding| binding.variable < variable)
    }
}
