// What a role does at one of its lines.
ghost use Rattle.std.specs.Prelude.{◌≡◌};
ghost use Rattle.message.specs.Variables.{among};
ghost use Rattle.exchange.specs.Parts.{step_form, with_form, step_of};
ghost use Rattle.exchange.specs.Rules.{received_in};

use message::form::Form;
use message::reader::occurs;

// The kinds of steps, as a file has them.
pub(crate) const SEND: u8 = 1;

pub(crate) const RECEIVE: u8 = 2;

pub(crate) const BEGIN: u8 = 3;

pub(crate) const END: u8 = 4;

// A step with its form, or with the bytes that its form is still to be read from.
#[derive(Clone, Copy)]
pub enum Step<F = Form> {
    Send(F),
    Receive(F),
    Begin { mark: u8, form: F },
    End { mark: u8, form: F },
}

impl<F: Copy> Step<F> {
    // The form that is sent, received, begun or ended.
    pub(crate) fn form(&self) -> F
        ensures value { result ≡ step_form self.now }
    {
        match *self {
            Step::Send(form) | Step::Receive(form) => form,
            Step::Begin { form, .. } | Step::End { form, .. } => form,
        }
    }

    // The same step with another form.
    pub(crate) fn with_form<G>(&self, form: G) -> Step<G>
        ensures value { result ≡ with_form self.now form }
    {
        match *self {
            Step::Send(_) => Step::Send(form),
            Step::Receive(_) => Step::Receive(form),
            Step::Begin { mark, .. } => Step::Begin { mark, form },
            Step::End { mark, .. } => Step::End { mark, form },
        }
    }
}

impl Step {
    // Whether the step receives a form in which the variable stands.
    pub(crate) fn receives(&self, variable: u8) -> bool
        ensures value { result ≡ among variable (received_in (step_of self.now)) }
    {
        match self {
            Step::Receive(form) => occurs(variable, form.bytes()),
            _ => false,
        }
    }
}
