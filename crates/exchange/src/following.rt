// Whether a session can follow its role: each send, begin and end can be filled when it comes, and no receive has more
// than 3 new variables.
ghost use Rattle.std.specs.Prelude.{◌≡◌, Bool, List, map, length};
ghost use Rattle.std.specs.List.{flat_map};
ghost use Rattle.message.specs.Forms.{text};
ghost use Rattle.message.specs.Variables.{among};
ghost use Rattle.exchange.specs.Exchanges.{Step as Does, Binding as Start};
ghost use Rattle.exchange.specs.Moments.{starts_at, steps_before, Asks};
ghost use Rattle.exchange.specs.Parts.{step_of};
ghost use Rattle.exchange.specs.Roles.{role_of};
ghost use Rattle.exchange.specs.Rules.{received_in, is_bound, all_bound, can_fill, new_in, binds_few, throughout, fillable, few_new};
ghost use Rattle.exchange.specs.Sessions.{starts_in};

use crate::role::Role;
use crate::session::Session;
use crate::step::Step;
use message::form::Form;
use message::reader::is_variable;

// A moment of a session: its starting values, and the steps that came before.
#[derive(Clone, Copy)]
struct Moment<'a> {
    session: &'a Session,
    before: &'a [Step],
}

// Whether the variable stands in a form that one of the steps receives.
fn is_received(steps: &[Step], variable: u8) -> bool
    ensures value { result ≡ among variable (flat_map received_in (map step_of steps.now)) }
{
    steps.iter().any(|step| step.receives(variable))
}

impl Moment<'_> {
    // Whether the variable has a value by now.
    fn binds(&self, variable: u8) -> bool
        ensures value { result ≡ is_bound (starts_at self.now) (steps_before self.now) variable }
    {
        self.session.starts(variable) || is_received(self.before, variable)
    }

    // Whether each variable of the bytes has a value by now.
    fn binds_all(&self, bytes: &[u8]) -> bool
        ensures value { result ≡ all_bound (starts_at self.now) (steps_before self.now) bytes.now }
    {
        bytes
            .iter()
            .all(|byte| !is_variable(*byte) || self.binds(*byte))
    }

    // Whether the step can be filled now.
    fn can_fill(&self, step: &Step) -> bool
        ensures value { result ≡ can_fill (starts_at self.now) (steps_before self.now) (step_of step.now) }
    {
        match step {
            Step::Receive(_) => true,
            Step::Send(form) | Step::Begin { form, .. } | Step::End { form, .. } => {
                self.binds_all(form.bytes())
            }
        }
    }

    // How many variables of the form have no value yet.
    fn count_new(&self, form: &Form) -> usize
        ensures value { result ≡ length (new_in (starts_at self.now) (steps_before self.now) (text form.now)) }
    {
        let variables = form.variables();
        variables
            .names()
            .iter()
            .filter(|name| !self.binds(**name))
            .count()
    }

    // Whether the step is no receive with more than 3 new variables.
    fn binds_few(&self, step: &Step) -> bool
        ensures value { result ≡ binds_few (starts_at self.now) (steps_before self.now) (step_of step.now) }
    {
        match step {
            Step::Receive(form) => self.count_new(form) <= 3,
            _ => true,
        }
    }
}

// Whether the test holds of each step of the role, at the moment when it comes.
// Role and session go as two parameters: a struct of both would be made in one place alone, where a session is read.
fn holds_throughout<F: Fn(&Moment<'_>, &Step) -> bool>(
    role: &Role,
    session: &Session,
    test: F,
) -> bool
    requires callable { F.IsAlwaysCallable test }
    ensures value { (rule : List Start → List Does → Does → Bool) → Asks rule (F.post test) → result ≡ throughout rule (role_of role.now) (starts_in session.now) }
{
    let steps = role.steps();
    steps.iter().enumerate().all(|(line, step)| {
        let before = &steps[..line];
        test(&Moment { session, before }, step)
    })
}

// Whether each send, begin and end of the role can be filled when it comes.
pub(crate) fn is_fillable(role: &Role, session: &Session) -> bool
    ensures value { result ≡ fillable (role_of role.now) (starts_in session.now) }
{
    holds_throughout(role, session, |moment, step| moment.can_fill(step))
}

// Whether no receive of the role has more than 3 new variables.
pub(crate) fn has_few_new(role: &Role, session: &Session) -> bool
    ensures value { result ≡ few_new (role_of role.now) (starts_in session.now) }
{
    holds_throughout(role, session, |moment, step| moment.binds_few(step))
}
