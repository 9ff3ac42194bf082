// The lines of claims.
ghost use Rattle.exchange.specs.Parts.{claim_of};
ghost use Rattle.listing.specs.Adds.{Adds, declared_in};
ghost use Rattle.listing.specs.Lines.{claim_text, claim_line};

use crate::listing::Listing;
use crate::parts::Part;
use exchange::claim::Claim;
use std::alloc::AllocError;

impl Listing<'_> {
    // What is claimed.
    fn put_claim(&mut self, claim: &Claim) -> Result<(), AllocError>
        ensures adds { Adds result self.old self.new (claim_text (declared_in self.old) (claim_of claim.now)) }
    {
        match claim {
            Claim::Secret(message) => {
                self.put_message(message)?;
                self.push_str(" stays secret")
            }
            Claim::SessionSecret { session, variable } => {
                self.put_byte(*variable)?;
                self.push_between(" of session ", *session as usize, " stays secret")
            }
            Claim::Matched { mark } => {
                self.push_between("each end with mark ", *mark as usize, " has a begin")
            }
            Claim::MatchedOnce { mark } => {
                self.push_between("no more ends with mark ", *mark as usize, " than begins")
            }
        }
    }
}

// The line of a claim: its number, and what is claimed.
impl Part for Claim {
    ghost shown = { λ ds n c. claim_line ds n (claim_of c) };

    fn put(&self, listing: &mut Listing<'_>, number: usize) -> Result<(), AllocError> {
        listing.push_between("claim ", number, ": ")?;
        listing.put_claim(self)?;
        listing.push_str("\n")
    }
}
