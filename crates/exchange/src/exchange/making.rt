ghost use Rattle.std.specs.Prelude.{◌≡◌, IfOk};
ghost use Rattle.exchange.specs.Checks.{blank};
ghost use Rattle.exchange.specs.Views.{exchange_of};

use crate::exchange::Exchange;
use std::alloc::{AllocError, Global};

impl Exchange {
    // Nothing yet, with the memory for every exchange that the limits allow.
    pub(crate) fn new(heap: Global) -> Result<Exchange, AllocError>
        ensures empty { IfOk result (λ e. exchange_of e ≡ blank) }
    {
        Ok(Exchange {
            atoms: Vec::with_capacity(heap, 112)?,
            opening: Vec::with_capacity(heap, 32)?,
            roles: Vec::with_capacity(heap, 4)?,
            sessions: Vec::with_capacity(heap, 8)?,
            claims: Vec::with_capacity(heap, 8)?,
        })
    }

    // Takes everything out, and keeps the memory.
    pub(crate) fn clear(&mut self)
        ensures empty { exchange_of self.new ≡ blank }
    {
        self.atoms.clear();
        self.opening.clear();
        self.roles.clear();
        self.sessions.clear();
        self.claims.clear();
    }
}
