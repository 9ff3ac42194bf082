// What is answered to a line.
ghost use Rattle.std.specs.Prelude.{◌≡◌, Some};
ghost use Rattle.can_make.specs.Answers.{words, settled, yes_or_no};

use message::stop::Stop;
use std::fmt;

#[derive(Clone, Copy)]
pub enum Answer {
    // how many messages are heard now
    Heard(usize),
    // whether each of the two attackers can make the message
    Makes { full: bool, repeater: bool },
    // the call was refused
    Refused(Stop),
    // the line of this number is no command
    NotUnderstood(u64),
    // to an empty line or a comment
    Nothing,
}

// A refusal is an answer too.
impl From<Result<Answer, Stop>> for Answer {
    ghost from_gives = { λ res answer. answer ≡ settled res };

    fn from(res: Result<Answer, Stop>) -> Answer {
        res.unwrap_or_else(Answer::Refused)
    }
}

fn yes_or_no(answer: bool) -> &'static str
    ensures value { result.now ≡ yes_or_no answer }
{
    if answer { "yes" } else { "no" }
}

impl fmt::Display for Answer {
    ghost output = { λ a. Some (words a) };

    fn fmt<W: fmt::Write>(&self, f: &mut fmt::Formatter<W>) -> fmt::Result {
        match *self {
            Answer::Heard(count) => write!(f, "heard {count}"),
            Answer::Makes { full, repeater } => {
                let full = yes_or_no(full);
                let repeater = yes_or_no(repeater);
                write!(f, "full {full}, repeater {repeater}")
            }
            Answer::Refused(stop) => write!(f, "refused {}", stop.number()),
            Answer::NotUnderstood(number) => write!(f, "line {number} not understood"),
            Answer::Nothing => Ok(()),
        }
    }
}
