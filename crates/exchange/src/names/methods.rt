ghost use Rattle.std.specs.Prelude.{◌≡◌, ◌<◌, ◌≤◌, [], length, MatchResult};
ghost use Rattle.message.specs.declared.stop.Stop.TheVariants.{LimitPassed};
ghost use Rattle.message.specs.Variables.{noted, firsts_from};
ghost use Rattle.exchange.specs.Names.{names_in};

use crate::names::Names;
use message::row::Row;
use message::stop::Stop;

impl Names {
    // No variable.
    pub(crate) fn none() -> Names
        ensures empty { names_in result ≡ [] }
    {
        Names { list: Row::new(0) }
    }

    // The variables.
    pub(crate) fn list(&self) -> &[u8]
        ensures value { result.now ≡ names_in self.now }
    {
        self.list.as_slice()
    }

    // Notes the byte if it is a variable that is new; refused where it would be the ninth.
    fn note(&mut self, byte: u8) -> Result<(), Stop>
        ensures noted { MatchResult result (λ _. (length (noted (names_in self.old) byte) ≤ 8) × (names_in self.new ≡ noted (names_in self.old) byte)) (λ stop. (8 < length (noted (names_in self.old) byte)) × (stop ≡ LimitPassed)) }
    {
        self.list.note(byte).map_err(|_| Stop::LimitPassed)
    }

    // Notes the variables of the bytes; refused where there would be more than 8.
    pub(crate) fn note_all(&mut self, bytes: &[u8]) -> Result<(), Stop>
        ensures noted { MatchResult result (λ _. (length (firsts_from (names_in self.old) bytes.now) ≤ 8) × (names_in self.new ≡ firsts_from (names_in self.old) bytes.now)) (λ stop. (8 < length (firsts_from (names_in self.old) bytes.now)) × (stop ≡ LimitPassed)) }
    {
        for byte in bytes {
            self.note(*byte)?;
        }
        Ok(())
    }
}
