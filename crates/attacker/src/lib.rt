// Attackers on the shared line: what they have heard, and what they can make of it.
#![tactic(auto)]

ghost use Rattle.std.specs.Prelude.{◌≡◌, ℕ, ◌≤◌, Bool, List, length, take};
ghost use Rattle.attacker.specs.Calls.{hear_answer, heard_after, ask_answer, back_answer};
ghost use Rattle.attacker.specs.Laws.{Monotone, Own};

use message::stop::Stop;

mod among;
mod atoms;
pub mod full;
mod known;
pub mod listening;
mod mark;
pub mod repeater;
mod shape;
#[cfg(test)]
mod tests;
mod transcript;

// All that counts of an attacker: what it has heard, the oldest message first, and the relation "can make", which says
// for each list of messages what can be made from it. The relation stays through every call, and so does the list where
// a call refuses: the calls say so one by one, since a type cannot compare two moments.
pub trait Attacker {
    ghost heard: { Self → List (List ℕ) };

    ghost makes: { Self → List (List ℕ) → List ℕ → Bool };

    // How many messages it has heard, never more than 128.
    fn count(&self) -> usize
        ensures value { result ≡ length (heard self.now) }
        ensures few { result ≤ 128 };

    // Puts a message at the end of the list.
    fn hear(&mut self, message: &[u8]) -> Result<(), Stop>
        ensures answer { result ≡ hear_answer (heard self.old) message.now }
        ensures list { heard self.new ≡ heard_after (heard self.old) message.now }
        ensures relation { makes self.new ≡ makes self.old };

    // Whether it can make the message.
    fn ask(&self, message: &[u8]) -> Result<bool, Stop>
        ensures answer { result ≡ ask_answer (makes self.now) (heard self.now) message.now };

    // Keeps the first `n` messages of the list.
    fn fall_back(&mut self, n: usize) -> Result<(), Stop>
        ensures answer { result ≡ back_answer (heard self.old) n }
        ensures list { heard self.new ≡ take n (heard self.old) }
        ensures relation { makes self.new ≡ makes self.old };

    // Whoever has heard all that another heard can make all that the other can.
    ghost monotone: { (a : Self) → Monotone (makes a) };

    // What was heard can be said again.
    ghost own: { (a : Self) → Own (makes a) };
}
