// What an attacker has heard, the oldest first.
ghost use Rattle.std.specs.Prelude.{◌≡◌, ◌≤◌, [], ◌∷◌, ◌++◌, length, take, IfOk};
ghost use Rattle.attacker.specs.Calls.{push_answer, pushed, back_answer};

use message::stop::Stop;
use std::alloc::{AllocError, Global};
use std::marker::Model;

// An attacker hears no more messages than these.
pub const MOST_HEARD: usize = 128;

// An entry for each message that was heard. There is room for all from the beginning.
#[derive(Drop)]
pub struct Transcript<T> {
    entries: Vec<T>,
}

// Clauses see the list of the entries.
impl<T> Model for Transcript<T> {
    ghost use Rattle.std.specs.Prelude.{◌≤◌, List, vec_len, vec_capacity};
    ghost use Rattle.attacker.specs.declared.transcript.TheConstants.{MOST_HEARD};

    ghost Value = { List T };

    ghost view = { λ t. t.entries.items };

    ghost invariant = { λ t. record { room : MOST_HEARD ≤ vec_capacity t.entries; few : vec_len t.entries ≤ MOST_HEARD } };
}

impl<T: Drop> Transcript<T> {
    pub fn new(heap: Global) -> Result<Transcript<T>, AllocError>
        ensures starts_empty { IfOk result (λ t. t ≡ []) }
    {
        let entries = Vec::with_capacity(heap, MOST_HEARD)?;
        Ok(Transcript { entries })
    }

    pub fn len(&self) -> usize
        ensures value { result ≡ length self.now }
        ensures few { result ≤ MOST_HEARD }
    {
        self.entries.len()
    }

    pub fn entries(&self) -> &[T]
        ensures value { result.now ≡ self.now }
    {
        &self.entries
    }

    // Puts an entry at the end.
    pub fn push(&mut self, entry: T) -> Result<(), Stop>
        ensures answer { result ≡ push_answer self.old }
        ensures list { self.new ≡ pushed self.old entry }
    {
        if self.len() >= MOST_HEARD {
            return Err(Stop::HeardEnough);
        }
        self.entries.push_reserved(entry);
        Ok(())
    }

    // Keeps the first `n` entries.
    pub fn truncate(&mut self, n: usize) -> Result<(), Stop>
        ensures answer { result ≡ back_answer self.old n }
        ensures list { self.new ≡ take n self.old }
    {
        if n > self.len() {
            return Err(Stop::AboveCount);
        }
        self.entries.truncate(n);
        Ok(())
    }
}
