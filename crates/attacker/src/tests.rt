// Worked examples over any attacker.
use crate::Attacker;
use crate::full::FullAttacker;
use crate::listening::{ask_after, hear_all};
use crate::repeater::Repeater;
use message::closed::Message;
use std::test::Fail;

#[test]
fn a_key_heard_later(rt: HostRuntime) -> Result<(), Fail> {
    let mut full = FullAttacker::new(rt.alloc())?;
    let mut repeater = Repeater::new(rt.alloc())?;
    let lock = Message::read(&[0xF1, 0x60, 0x40]).ok_or("no message")?;
    let key = Message::read(&[0x61]).ok_or("no message")?;
    let data = Message::read(&[0x40]).ok_or("no message")?;
    hear_all(&mut full, &[lock])?;
    hear_all(&mut repeater, &[lock])?;
    assert!(rt; ask_after(&mut full, &[key], &data)?);
    assert!(rt; !ask_after(&mut repeater, &[key], &data)?);
    assert!(rt; !full.ask(data.bytes())?);
    assert!(rt; full.count() == 1);
    Ok(())
}
