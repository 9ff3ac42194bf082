// The lines of sessions.
ghost use Rattle.std.specs.Prelude.{◌≡◌};
ghost use Rattle.exchange.specs.Sessions.{binding_of, session_of};
ghost use Rattle.listing.specs.Lines.{start_word, start_text, session_line};

use crate::listing::Listing;
use crate::parts::Part;
use exchange::session::{Binding, Session};
use std::alloc::AllocError;

// What stands before a starting value.
fn start_word(number: usize) -> &'static str
    ensures value { result.now ≡ start_word number }
{
    if number == 0 { " with " } else { ", " }
}

// A starting value: a variable and its atom.
impl Part for Binding {
    ghost shown = { λ ds n b. start_text ds n (binding_of b) };

    fn put(&self, listing: &mut Listing<'_>, number: usize) -> Result<(), AllocError> {
        listing.push_str(start_word(number))?;
        listing.put_byte(self.variable)?;
        listing.push_str(" = ")?;
        listing.put_byte(self.atom)
    }
}

// The line of a session: its number, its role and its starting values.
impl Part for Session {
    ghost shown = { λ ds n s. session_line ds n (session_of s) };

    fn put(&self, listing: &mut Listing<'_>, number: usize) -> Result<(), AllocError> {
        listing.push_between("session ", number, " plays role ")?;
        listing.push_decimal(self.role() as usize)?;
        listing.put_all(self.bindings())?;
        listing.push_str("\n")
    }
}
