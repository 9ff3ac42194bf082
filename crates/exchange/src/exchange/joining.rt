// Sessions: reading one and putting it into the exchange.
ghost use Rattle.std.specs.Prelude.{◌≡◌, ◌<◌, ◌≤◌, [], length, IfOk, Ok};
ghost use Rattle.message.specs.declared.stop.Stop.TheVariants.{OutOfRange};
ghost use Rattle.exchange.specs.Checks.{unless, then, pair_fits, bindings_of, starts_of, add_session};
ghost use Rattle.exchange.specs.Reading.{read_binding, read_starts, added};
ghost use Rattle.exchange.specs.Roles.{role_of};
ghost use Rattle.exchange.specs.Rules.{atoms_of, role_at};
ghost use Rattle.exchange.specs.Sessions.{starts_in};
ghost use Rattle.exchange.specs.Views.{exchange_of};

use crate::exchange::Exchange;
use crate::field::Pairs;
use crate::following::{has_few_new, is_fillable};
use crate::role::Role;
use crate::session::{Binding, Session};
use message::kind::fits_kind;
use message::reader::occurs;
use message::stop::Stop;

impl Exchange {
    // A variable of the role and its atom, after the starting values that the session has.
    fn read_pair(
        &self,
        role: &Role,
        session: &Session,
        variable: u8,
        atom: u8,
    ) -> Result<Binding, Stop>
        ensures value { read_binding result ≡ pair_fits (atoms_of (exchange_of self.now)) (role_of role.now) (starts_in session.now) variable atom }
    {
        if !session.is_next(variable) {
            return Err(Stop::NotAscending);
        }
        if !occurs(variable, role.variables()) {
            return Err(Stop::OutOfRange);
        }
        if !self.declares(atom) {
            return Err(Stop::UndeclaredAtom);
        }
        if !fits_kind(variable, atom) {
            return Err(Stop::WrongKind);
        }
        Ok(Binding { variable, atom })
    }

    // A session of the role, which has this number, with the pairs as its starting values.
    fn read_bindings(&self, number: u8, role: &Role, pairs: Pairs<'_>) -> Result<Session, Stop>
        ensures value { read_starts result ≡ bindings_of (atoms_of (exchange_of self.now)) (role_of role.now) [] pairs.entry.bytes.now }
        ensures number { IfOk result (λ s. s.role ≡ number) }
    {
        let mut session = Session::begin(number);
        let mut left = pairs.bytes;
        while let [variable, atom, rest @ ..] = left {
            let binding = self.read_pair(role, &session, *variable, *atom)?;
            session.add(binding);
            left = rest;
        }
        Ok(session)
    }

    // A session of the role that can follow it.
    fn read_starts(&self, number: u8, role: &Role, pairs: Pairs<'_>) -> Result<Session, Stop>
        ensures value { read_starts result ≡ starts_of (atoms_of (exchange_of self.now)) (role_of role.now) pairs.entry.bytes.now }
        ensures number { IfOk result (λ s. s.role ≡ number) }
    {
        let session = self.read_bindings(number, role, pairs)?;
        if !is_fillable(role, &session) {
            return Err(Stop::UnboundVariable);
        }
        if !has_few_new(role, &session) {
            return Err(Stop::TooManyNewVariables);
        }
        Ok(session)
    }

    // One more session.
    pub(crate) fn add_session(&mut self, number: u8, pairs: Pairs<'_>) -> Result<(), Stop>
        requires room { length (exchange_of self.old).sessions < 8 }
        ensures added { added result (exchange_of self.new) ≡ add_session (exchange_of self.old) number pairs.entry.bytes.now }
    {
        let role = self.roles.get(usize::from(number)).ok_or(Stop::OutOfRange)?;
        let session = self.read_starts(number, role, pairs)?;
        self.sessions.push_reserved(session);
        Ok(())
    }
}
