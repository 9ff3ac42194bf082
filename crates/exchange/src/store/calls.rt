ghost use Rattle.std.specs.Prelude.{◌≡◌, true, length, IfSome, IfOk, Some, None, ◌≢◌};
ghost use Rattle.std.specs.Option.{option_map};
ghost use Rattle.std.specs.Result as results;
ghost use Rattle.exchange.specs.Answers.{answer_to};
ghost use Rattle.exchange.specs.Checks.{accepted, loads};
ghost use Rattle.exchange.specs.Exchanges.{Exchange as Model};
ghost use Rattle.exchange.specs.Files.{file_bytes};
ghost use Rattle.exchange.specs.Lossless.{Lossless};
ghost use Rattle.exchange.specs.Rules.{Fit, is_fit};
ghost use Rattle.exchange.specs.Stores.{held, held_after, lent, write_answer, written};
ghost use Rattle.exchange.specs.Views.{exchange_of};

use crate::exchange::Exchange;
use crate::loading::read_fields;
use crate::refusal::Refusal;
use crate::store::Store;
use message::stop::Stop;
use std::alloc::{AllocError, Global};
use std::mem;

// How many bytes a file may have.
const LONGEST_FILE: usize = 8192;

impl Store {
    // A store with nothing loaded. Only this call asks for memory.
    pub fn new(heap: Global) -> Result<Store, AllocError>
        ensures empty { IfOk result (λ s. held s ≡ None) }
    {
        Ok(Store {
            exchange: Exchange::new(heap)?,
            spare: Exchange::new(heap)?,
            size: None,
        })
    }

    // The exchange that is loaded, if any.
    pub fn exchange(&self) -> Option<&Exchange>
        ensures value { option_map lent result ≡ held self.now }
        ensures fit { IfSome result (λ e. Fit (lent e)) }
    {
        self.size.map(|_| &self.exchange)
    }

    // Loads a file. Where it is refused, all stands as before.
    pub fn load(&mut self, file: &[u8]) -> Result<(), Refusal>
        ensures answer { result ≡ answer_to (loads file.now) }
        ensures held { held self.new ≡ held_after (held self.old) (loads file.now) }
        ensures exactly { results.MatchResult result (λ _. (x : Model) × Fit x × (file_bytes x ≡ file.now) × (held self.new ≡ Some x)) (λ _. (x : Model) → Fit x → file_bytes x ≢ file.now) }
        ensures lossless { Lossless }
    {
        if file.len() > LONGEST_FILE {
            return Err(Refusal {
                stop: Stop::FileTooLong,
                place: 0,
            });
        }
        self.spare.clear();
        read_fields(&mut self.spare, file)?;
        mem::swap(&mut self.exchange, &mut self.spare);
        self.size = Some(file.len());
        Ok(())
    }

    // Writes the file of the exchange that is loaded at the front of the buffer, and answers how many bytes it has.
    pub fn write(&self, out: &mut [u8]) -> Result<usize, Stop>
        ensures answer { result ≡ write_answer (held self.now) out.old }
        ensures bytes { out.new ≡ written (held self.now) out.old }
        ensures loads_again { IfSome (held self.now) (λ x. loads (file_bytes x) ≡ accepted x) }
    {
        let size = self.size.ok_or(Stop::NoExchange)?;
        if size > out.len() {
            return Err(Stop::BufferTooSmall);
        }
        Ok(self.exchange.write(out))
    }
}
