// The exchange that was loaded last.
ghost use Rattle.std.specs.Prelude.{◌≡◌, true, length};
ghost use Rattle.std.specs.Option.{ForSome};
ghost use Rattle.exchange.specs.Files.{file_bytes};
ghost use Rattle.exchange.specs.Rules.{is_fit};
ghost use Rattle.exchange.specs.Views.{exchange_of};

use crate::exchange::Exchange;

pub mod calls;

// An exchange and the size of its file, if one is loaded; and room to read the next one into, so that a file that is
// refused changes nothing. Both have their memory from the beginning, so only the size says whether one is loaded.
#[derive(Drop)]
pub struct Store {
    exchange: Exchange,
    spare: Exchange,
    size: Option<usize>,
    ghost fit: { ForSome size (λ _. is_fit (exchange_of exchange) ≡ true) },
    ghost sized: { ForSome size (λ n. n ≡ length (file_bytes (exchange_of exchange))) },
}
