// What can be done with any attacker, by its calls alone.
ghost use Rattle.std.specs.Prelude.{◌≡◌};
ghost use Rattle.message.specs.Messages.{message_text};
ghost use Rattle.attacker.specs.Listening.{all_answer, all_heard, would_make};
ghost use Rattle.attacker.specs.Texts.{texts};

use crate::Attacker;
use crate::transcript::MOST_HEARD;
use message::closed::Message;
use message::stop::Stop;

// Hears the messages in order; refused, and none is heard, where they would be more than 128 in all.
pub fn hear_all<A: Attacker>(attacker: &mut A, messages: &[Message]) -> Result<(), Stop>
    ensures answer { result ≡ all_answer (A.heard attacker.old) (texts messages.now) }
    ensures list { A.heard attacker.new ≡ all_heard (A.heard attacker.old) (texts messages.now) }
    ensures relation { A.makes attacker.new ≡ A.makes attacker.old }
{
    if messages.len() > MOST_HEARD - attacker.count() {
        return Err(Stop::HeardEnough);
    }
    for message in messages {
        attacker.hear(message.bytes())?;
    }
    Ok(())
}

// Whether the attacker could make the question if it had heard these messages too. It has heard no more afterwards.
pub fn ask_after<A: Attacker>(
    attacker: &mut A,
    messages: &[Message],
    question: &Message,
) -> Result<bool, Stop>
    ensures answer { result ≡ would_make (A.makes attacker.old) (A.heard attacker.old) (texts messages.now) (message_text question.now) }
    ensures list { A.heard attacker.new ≡ A.heard attacker.old }
    ensures relation { A.makes attacker.new ≡ A.makes attacker.old }
{
    let count = attacker.count();
    hear_all(attacker, messages)?;
    let answer = attacker.ask(question.bytes());
    let _ = attacker.fall_back(count);
    answer
}
