ghost use Rattle.std.specs.Prelude.{◌≡◌, ◌&&◌, length, nat_lt};
ghost use Rattle.message.specs.Bytes.{is_atom};
ghost use Rattle.message.specs.Variables.{among};
ghost use Rattle.exchange.specs.Checks.{form_of, message_of, add_claim};
ghost use Rattle.exchange.specs.Fields.{claim_seen};
ghost use Rattle.exchange.specs.Reading.{read_form, read_message, with_read};
ghost use Rattle.exchange.specs.Rules.{is_declared, uses_declared, atoms_of, role_variables, role_at, session_at};
ghost use Rattle.exchange.specs.Views.{exchange_of};

use crate::claim::Claim;
use crate::exchange::Exchange;
use message::closed::Message;
use message::form::Form;
use message::kind::Symbol;
use message::reader::occurs;
use message::stop::Stop;

// Whether the byte is an atom.
#[tactic(auto, unfolding(message::specs::Bytes::is_atom))]
pub(crate) fn is_atom(byte: u8) -> bool
    ensures value { result ≡ is_atom byte }
{
    matches!(Symbol::from(byte), Symbol::Atom(_))
}

impl Exchange {
    // Whether the atom is declared.
    pub(crate) fn declares(&self, atom: u8) -> bool
        ensures value { result ≡ among atom (atoms_of (exchange_of self.now)) }
    {
        self.atoms
            .iter()
            .any(|declaration| atom == declaration.atom)
    }

    // Whether the byte is no atom or a declared one.
    fn is_declared(&self, byte: u8) -> bool
        ensures value { result ≡ is_declared (atoms_of (exchange_of self.now)) byte }
    {
        !is_atom(byte) || self.declares(byte)
    }

    // Whether each atom of the bytes is declared.
    fn uses_declared(&self, bytes: &[u8]) -> bool
        ensures value { result ≡ uses_declared (atoms_of (exchange_of self.now)) bytes.now }
    {
        bytes.iter().all(|byte| self.is_declared(*byte))
    }

    // The form that the bytes are, of declared atoms.
    pub(crate) fn read_form(&self, bytes: &[u8]) -> Result<Form, Stop>
        ensures value { read_form result ≡ form_of (atoms_of (exchange_of self.now)) bytes.now }
    {
        let form = Form::read(bytes)?;
        if !self.uses_declared(bytes) {
            return Err(Stop::UndeclaredAtom);
        }
        Ok(form)
    }

    // The message that the bytes are, of declared atoms.
    pub(crate) fn read_message(&self, bytes: &[u8]) -> Result<Message, Stop>
        ensures value { read_message result ≡ message_of (atoms_of (exchange_of self.now)) bytes.now }
    {
        let form = Form::read(bytes)?;
        let message = form.message().ok_or(Stop::VariableInMessage)?;
        if !self.uses_declared(bytes) {
            return Err(Stop::UndeclaredAtom);
        }
        Ok(message)
    }

    // The claim that can be read: its message is of declared atoms, its session and variable are there.
    pub(crate) fn read_claim(&self, claim: Claim<&[u8]>) -> Result<Claim, Stop>
        ensures value { with_read (exchange_of self.now) result ≡ add_claim (exchange_of self.now) (claim_seen claim.entry) }
    {
        match claim {
            Claim::Secret(bytes) => Ok(Claim::Secret(self.read_message(bytes)?)),
            Claim::SessionSecret { session, variable } => {
                if !self.has_session_variable(session, variable) {
                    return Err(Stop::OutOfRange);
                }
                Ok(Claim::SessionSecret { session, variable })
            }
            Claim::Matched { mark } => Ok(Claim::Matched { mark }),
            Claim::MatchedOnce { mark } => Ok(Claim::MatchedOnce { mark }),
        }
    }

    // Whether there is this session, and this variable in a form of its role.
    pub(crate) fn has_session_variable(&self, session: u8, variable: u8) -> bool
        ensures value { result ≡ (nat_lt session (length (exchange_of self.now).sessions) && among variable (role_variables (role_at (exchange_of self.now).roles (session_at (exchange_of self.now).sessions session).role))) }
    {
        self.sessions
            .get(usize::from(session))
            .is_some_and(|session| self.has_role_variable(session.role(), variable))
    }

    // Whether there is this role, and this variable in one of its forms.
    fn has_role_variable(&self, role: u8, variable: u8) -> bool
        ensures value { result ≡ among variable (role_variables (role_at (exchange_of self.now).roles role)) }
    {
        self.roles
            .get(usize::from(role))
            .is_some_and(|role| occurs(variable, role.variables()))
    }
}
