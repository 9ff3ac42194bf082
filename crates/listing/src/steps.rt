// The lines of roles.
ghost use Rattle.std.specs.Prelude.{map};
ghost use Rattle.exchange.specs.Atoms.{declaration_of};
ghost use Rattle.exchange.specs.Parts.{step_of};
ghost use Rattle.exchange.specs.Roles.{role_of};
ghost use Rattle.listing.specs.Adds.{Adds, declared_in};
ghost use Rattle.listing.specs.Lines.{step_text, step_line, role_lines};
ghost use Rattle.listing.specs.Puts.{Puts};

use crate::listing::Listing;
use crate::parts::Part;
use exchange::declaration::Declaration;
use exchange::role::Role;
use exchange::step::Step;
use std::alloc::AllocError;

impl Listing<'_> {
    // A step: what is done, the mark of a begin or an end, and the form.
    fn put_step(&mut self, step: &Step) -> Result<(), AllocError>
        ensures adds { Adds result self.old self.new (step_text (declared_in self.old) (step_of step.now)) }
    {
        match step {
            Step::Send(form) => {
                self.push_str("send ")?;
                self.put_form(form)
            }
            Step::Receive(form) => {
                self.push_str("receive ")?;
                self.put_form(form)
            }
            Step::Begin { mark, form } => {
                self.push_between("begin ", *mark as usize, " ")?;
                self.put_form(form)
            }
            Step::End { mark, form } => {
                self.push_between("end ", *mark as usize, " ")?;
                self.put_form(form)
            }
        }
    }
}

// A step.
pub fn put_step(text: &mut Vec<u8>, atoms: &[Declaration], step: &Step) -> Result<(), AllocError>
    ensures puts { Puts result text.old.items text.new.items (step_text (map declaration_of atoms.now) (step_of step.now)) }
{
    Listing { text, atoms }.put_step(step)
}

// The line of a step: the number of the line in the role, and the step.
impl Part for Step {
    ghost shown = { λ ds n s. step_line ds n (step_of s) };

    fn put(&self, listing: &mut Listing<'_>, number: usize) -> Result<(), AllocError> {
        listing.push_decimal(number)?;
        listing.push_str(" ")?;
        listing.put_step(self)?;
        listing.push_str("\n")
    }
}

// The lines of a role: its number, and then its steps.
impl Part for Role {
    ghost shown = { λ ds n role. role_lines ds n (role_of role) };

    fn put(&self, listing: &mut Listing<'_>, number: usize) -> Result<(), AllocError> {
        listing.push_between("role ", number, "\n")?;
        listing.put_all(self.steps())
    }
}
