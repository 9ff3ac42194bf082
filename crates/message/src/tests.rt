// Worked examples.
use crate::closed::Message;
use crate::form::Form;
use crate::kind::inverse;
use crate::reader::same_bytes;
use crate::row::{Full, Row};
use crate::values::Values;
use std::test::Fail;

#[test]
fn reads_forms(rt: HostRuntime) {
    assert!(rt; Form::read(&[0xF1, 0x60, 0x40]).is_ok());
    assert!(rt; Form::read(&[0xF1, 0x40, 0x40]).is_err());
    assert!(rt; Form::read(&[0xF0, 0x40]).is_err());
    assert!(rt; Form::read(&[0x40; 25]).is_err());
}

#[test]
fn fills_a_locked_form(rt: HostRuntime) -> Result<(), Fail> {
    let form = Form::read(&[0xF1, 0xB0, 0xA0])?;
    let mut values = Values::none();
    assert!(rt; values.bind(0xB0, 0x50));
    assert!(rt; !values.bind(0xA0, 0x50));
    assert!(rt; form.fill(&values).is_none());
    assert!(rt; values.bind(0xA0, 0x40));
    let message = form.fill(&values).ok_or("a variable has no value")?;
    assert!(rt; same_bytes(message.bytes(), &[0xF1, 0x50, 0x40]));
    Ok(())
}

#[test]
fn unbinds_a_variable(rt: HostRuntime) {
    let mut values = Values::none();
    assert!(rt; values.bind(0xA0, 0x40));
    assert_eq!(rt; values.value(0xA0), Some(0x40));
    values.unbind(0xA0);
    assert_eq!(rt; values.value(0xA0), None);
}

#[test]
fn compares_by_bytes(rt: HostRuntime) -> Result<(), Fail> {
    let lock = Form::read(&[0xF1, 0x60, 0x40])?;
    let other = Form::read(&[0xF1, 0x60, 0x41])?;
    assert!(rt; lock == Form::read(&[0xF1, 0x60, 0x40])?);
    assert!(rt; !(lock == other));
    let message = Message::read(lock.bytes()).ok_or("no message")?;
    assert!(rt; message == message && message.form() == lock);
    Ok(())
}

#[test]
fn lists_variables_once(rt: HostRuntime) -> Result<(), Fail> {
    let form = Form::read(&[0xF0, 0xA1, 0xF0, 0xA0, 0xA1])?;
    assert!(rt; same_bytes(form.variables().names(), &[0xA1, 0xA0]));
    Ok(())
}

#[test]
fn inverts_keys(rt: HostRuntime) {
    assert_eq!(rt; inverse(0x50), Some(0x50));
    assert_eq!(rt; inverse(0x60), Some(0x61));
    assert_eq!(rt; inverse(0x61), Some(0x60));
    assert_eq!(rt; inverse(0x40), None);
}

#[test]
fn keeps_a_row(rt: HostRuntime) -> Result<(), Fail> {
    let mut row: Row<u8, 3> = Row::from_slice(0, &[7, 8])?;
    row.push(9)?;
    assert_eq!(rt; row.push(10), Err(Full));
    assert!(rt; same_bytes(row.as_slice(), &[7, 8, 9]));
    let mut other: Row<u8, 3> = Row::new(1);
    assert!(rt; !(row == other));
    other.push(7)?;
    other.push(8)?;
    other.push(9)?;
    assert!(rt; row == other);
    let long: Result<Row<u8, 3>, Full> = Row::from_slice(0, &[7, 8, 9, 10]);
    assert!(rt; long.is_err());
    Ok(())
}

#[test]
fn keeps_its_filler_behind_the_items(rt: HostRuntime) -> Result<(), Fail> {
    let mut row: Row<u8, 3> = Row::new(5);
    row.push(7)?;
    assert!(rt; same_bytes(row.memory(), &[7, 5, 5]));
    assert!(rt; same_bytes(row.as_slice(), &[7]));
    Ok(())
}

#[test]
fn notes_variables_once(rt: HostRuntime) -> Result<(), Fail> {
    let mut row: Row<u8, 1> = Row::new(0);
    row.note(0x40)?;
    row.note(0xA0)?;
    row.note(0xA0)?;
    assert_eq!(rt; row.note(0xA1), Err(Full));
    assert!(rt; same_bytes(row.as_slice(), &[0xA0]));
    Ok(())
}
