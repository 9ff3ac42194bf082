// Two attackers that hear the same messages, and what they answer to a command.
ghost use Rattle.std.specs.Prelude.{◌≡◌, [], take};
ghost use Rattle.attacker.specs.Calls.{hear_answer, heard_after, ask_answer, back_answer};
ghost use Rattle.can_make.specs.Answers.{settled};
ghost use Rattle.can_make.specs.Turns.{counted, compared, turn};
ghost use Rattle.command.specs.Saying.{seen};

use crate::answer::Answer;
use attacker::Attacker;
use command::Command;
use message::stop::Stop;

#[derive(Drop)]
pub struct Desk<F: Attacker, R: Attacker> {
    full: F,
    repeater: R,
    // both have heard the same
    ghost together: { F.Attacker.heard full ≡ R.Attacker.heard repeater },
}

// Each call says that the two relations stay: an invariant compares no two moments, and a model's value holds no function.
impl<F: Attacker, R: Attacker> Desk<F, R> {
    // Both attackers begin with nothing heard.
    pub fn new(mut full: F, mut repeater: R) -> Desk<F, R>
        ensures full { F.Attacker.heard result.full ≡ [] }
        ensures repeater { R.Attacker.heard result.repeater ≡ [] }
        ensures full_relation { F.Attacker.makes result.full ≡ F.Attacker.makes full }
        ensures repeater_relation { R.Attacker.makes result.repeater ≡ R.Attacker.makes repeater }
    {
        let _ = full.fall_back(0);
        let _ = repeater.fall_back(0);
        Desk { full, repeater }
    }

    // The answer to the command on a line of that number.
    pub fn answer(&mut self, command: &Command, line: u64) -> Answer
        ensures answer { result ≡ (turn (F.Attacker.makes self.old.full) (R.Attacker.makes self.old.repeater) (F.Attacker.heard self.old.full) (seen command.now) line).0 }
        ensures list { F.Attacker.heard self.new.full ≡ (turn (F.Attacker.makes self.old.full) (R.Attacker.makes self.old.repeater) (F.Attacker.heard self.old.full) (seen command.now) line).1 }
        ensures full_relation { F.Attacker.makes self.new.full ≡ F.Attacker.makes self.old.full }
        ensures repeater_relation { R.Attacker.makes self.new.repeater ≡ R.Attacker.makes self.old.repeater }
    {
        match command {
            Command::Hear(message) => Answer::from(self.hear(message)),
            Command::Ask(message) => Answer::from(self.ask(message)),
            Command::Back(n) => Answer::from(self.fall_back(*n)),
            Command::Nothing => Answer::Nothing,
            Command::Unknown => Answer::NotUnderstood(line),
        }
    }

    // Both hear the message.
    fn hear(&mut self, message: &[u8]) -> Result<Answer, Stop>
        ensures answer { settled result ≡ counted (hear_answer (F.Attacker.heard self.old.full) message.now) (heard_after (F.Attacker.heard self.old.full) message.now) }
        ensures list { F.Attacker.heard self.new.full ≡ heard_after (F.Attacker.heard self.old.full) message.now }
        ensures full_relation { F.Attacker.makes self.new.full ≡ F.Attacker.makes self.old.full }
        ensures repeater_relation { R.Attacker.makes self.new.repeater ≡ R.Attacker.makes self.old.repeater }
    {
        self.full.hear(message)?;
        self.repeater.hear(message)?;
        Ok(Answer::Heard(self.full.count()))
    }

    // Whether each can make the message.
    fn ask(&self, message: &[u8]) -> Result<Answer, Stop>
        ensures answer { settled result ≡ compared (ask_answer (F.Attacker.makes self.now.full) (F.Attacker.heard self.now.full) message.now) (ask_answer (R.Attacker.makes self.now.repeater) (R.Attacker.heard self.now.repeater) message.now) }
    {
        let full = self.full.ask(message)?;
        let repeater = self.repeater.ask(message)?;
        Ok(Answer::Makes { full, repeater })
    }

    // Both keep their first `n` messages.
    fn fall_back(&mut self, n: usize) -> Result<Answer, Stop>
        ensures answer { settled result ≡ counted (back_answer (F.Attacker.heard self.old.full) n) (take n (F.Attacker.heard self.old.full)) }
        ensures list { F.Attacker.heard self.new.full ≡ take n (F.Attacker.heard self.old.full) }
        ensures full_relation { F.Attacker.makes self.new.full ≡ F.Attacker.makes self.old.full }
        ensures repeater_relation { R.Attacker.makes self.new.repeater ≡ R.Attacker.makes self.old.repeater }
    {
        self.full.fall_back(n)?;
        self.repeater.fall_back(n)?;
        Ok(Answer::Heard(self.full.count()))
    }
}
