// Parts of a listing that stand in a row.
ghost use Rattle.std.specs.Prelude.{ℕ, List};
ghost use Rattle.exchange.specs.Exchanges.{Declaration};
ghost use Rattle.listing.specs.Adds.{Adds, declared_in};
ghost use Rattle.listing.specs.Words.{numbered};

use crate::listing::Listing;
use std::alloc::AllocError;

// What is shown as one part of a row. Its text is made with the declared atoms and its number in the row.
pub(crate) trait Part {
    ghost shown: { List Declaration → ℕ → Self → List ℕ };

    fn put(&self, listing: &mut Listing<'_>, number: usize) -> Result<(), AllocError>
        ensures adds { Adds result listing.old listing.new (shown (declared_in listing.old) number self.now) };
}

impl Listing<'_> {
    // All parts in their order, numbered from 0 on.
    pub(crate) fn put_all<P: Part>(&mut self, parts: &[P]) -> Result<(), AllocError>
        ensures adds { Adds result self.old self.new (numbered (P.Part.shown (declared_in self.old)) 0 parts.now) }
    {
        for (number, part) in parts.iter().enumerate() {
            part.put(self, number)?;
        }
        Ok(())
    }
}
