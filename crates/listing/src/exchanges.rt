// The listing of an exchange.
ghost use Rattle.exchange.specs.Views.{exchange_of};
ghost use Rattle.listing.specs.Listing.{listing_text};
ghost use Rattle.listing.specs.Puts.{Puts};
ghost use Rattle.listing.specs.Worked.{Worked};

use crate::listing::Listing;
use exchange::exchange::Exchange;
use std::alloc::AllocError;

// The lines of all atoms, opening messages, roles, sessions and claims.
fn put_rows(text: &mut Vec<u8>, exchange: &Exchange) -> Result<(), AllocError>
    ensures puts { Puts result text.old.items text.new.items (listing_text (exchange_of exchange.now)) }
{
    let atoms = &exchange.atoms;
    let mut listing = Listing { text, atoms };
    listing.put_all(atoms)?;
    listing.put_all(&exchange.opening)?;
    listing.put_all(&exchange.roles)?;
    listing.put_all(&exchange.sessions)?;
    listing.put_all(&exchange.claims)
}

// The listing.
pub fn put_listing(text: &mut Vec<u8>, exchange: &Exchange) -> Result<(), AllocError>
    ensures puts { Puts result text.old.items text.new.items (listing_text (exchange_of exchange.now)) }
    ensures worked { Worked }
{
    put_rows(text, exchange)
}
