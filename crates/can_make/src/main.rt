// Reads commands, a line each, and prints what two attackers answer: the full one and the repeater.
#![tactic(auto)]

ghost use Rattle.std.specs.Prelude.{◌≡◌, IfOk, OnOk};
ghost use Rattle.can_make.specs.Turns.{turn, unfed};
ghost use Rattle.command.specs.Saying.{command_of};

use answer::Answer;
use attacker::Attacker;
use attacker::full::FullAttacker;
use attacker::repeater::Repeater;
use command::read_command;
use desk::Desk;
use std::alloc::{AllocError, Global};
use std::io;
use std::io::{BufRead, BufReader, BufWriter, Write};

mod answer;
mod desk;

fn main(rt: HostRuntime) -> io::Result<()> {
    let heap = rt.alloc();
    let full = FullAttacker::new(heap)?;
    converse(&rt, Desk::new(full, Repeater::new(heap)?))
}

// Answers line after line, to the end of the input.
fn converse<F: Attacker + Drop, R: Attacker + Drop>(
    rt: &HostRuntime,
    mut desk: Desk<F, R>,
) -> io::Result<()> {
    let mut input = BufReader::new(rt.alloc(), rt.stdin())?;
    let mut output = BufWriter::new(rt.alloc(), rt.stdout())?;
    let mut line = Vec::new(rt.alloc());
    for number in 1..u64::MAX {
        // Answers are held back only while the next line stands ready.
        if !input.buffer().contains(&b'\n') {
            output.flush()?;
        }
        line.clear();
        if input.read_until(b'\n', &mut line)? == 0 {
            break;
        }
        let answer = reply(rt.alloc(), &mut desk, &line, number)?;
        if !matches!(answer, Answer::Nothing) {
            writeln!(output, "{answer}")?;
        }
    }
    output.flush()
}

// The answer to a line as it was read. It fails only for want of memory.
fn reply<F: Attacker, R: Attacker>(
    heap: Global,
    desk: &mut Desk<F, R>,
    line: &[u8],
    number: u64,
) -> Result<Answer, AllocError>
    ensures answer { IfOk result (λ a. a ≡ (turn (F.Attacker.makes desk.old.full) (R.Attacker.makes desk.old.repeater) (F.Attacker.heard desk.old.full) (command_of (unfed line.now)) number).0) }
    ensures list { OnOk result (F.Attacker.heard desk.new.full ≡ (turn (F.Attacker.makes desk.old.full) (R.Attacker.makes desk.old.repeater) (F.Attacker.heard desk.old.full) (command_of (unfed line.now)) number).1) }
    ensures full_relation { F.Attacker.makes desk.new.full ≡ F.Attacker.makes desk.old.full }
    ensures repeater_relation { R.Attacker.makes desk.new.repeater ≡ R.Attacker.makes desk.old.repeater }
{
    let command = read_command(heap, without_feed(line))?;
    Ok(desk.answer(&command, number))
}

// The line without its line feed, which the last line of an input may lack.
fn without_feed(line: &[u8]) -> &[u8]
    ensures value { result.now ≡ unfed line.now }
{
    line.strip_suffix(b"\n").unwrap_or(line)
}
