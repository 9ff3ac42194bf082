// A worked example: the texts of a loaded exchange's forms, messages and steps.
use crate::forms::{put_form, put_message};
use crate::steps::put_step;
use exchange::step::Step;
use exchange::store::Store;
use std::test::Fail;

// The worked example of the page on files, but with an opening message, a variable in role 1, and one session less.
const FILE: [u8; 69] = [
    0x01, 0x00, 0x04, 0x40, 0x62, 0x6C, 0x6B, // atom 40, a datum, shown as blk
    0x01, 0x00, 0x03, 0x50, 0x6B, 0x73, // atom 50, a shared key, shown as ks
    0x02, 0x00, 0x05, 0xF0, 0x40, 0xF1, 0x50, 0x40, // the opening message (blk,{blk}ks)
    0x03, 0x00, 0x00, // role 0
    0x04, 0x00, 0x03, 0x03, 0x01, 0x40, // begins, mark 1, blk
    0x04, 0x00, 0x04, 0x01, 0xF1, 0x50, 0x40, // sends {blk}ks
    0x03, 0x00, 0x00, // role 1
    0x04, 0x00, 0x04, 0x02, 0xF1, 0x50, 0xA0, // receives {?data0}ks
    0x04, 0x00, 0x03, 0x04, 0x01, 0xA0, // ends, mark 1, ?data0
    0x05, 0x00, 0x01, 0x00, // session 0 plays role 0
    0x05, 0x00, 0x01, 0x01, // session 1 plays role 1
    0x06, 0x00, 0x02, 0x04, 0x01, // claim 0: kind 4, mark 1
    0x7F, 0x00, 0x00, // the end
];

#[test]
fn shows_parts_of_an_exchange(rt: HostRuntime) -> Result<(), Fail> {
    let mut store = Store::new(rt.alloc())?;
    store.load(&FILE)?;
    let exchange = store.exchange().ok_or("nothing is loaded")?;
    let atoms = &exchange.atoms;
    let mut text = Vec::new(rt.alloc());

    let opening = exchange.opening.first().ok_or("no opening message")?;
    put_message(&mut text, atoms, opening)?;
    assert_eq!(rt; text.as_slice(), b"(blk,{blk}ks)".as_slice());
    text.clear();

    let role = exchange.roles.get(1).ok_or("no role 1")?;
    let Some(Step::Receive(form)) = role.steps().first() else {
        return Err(Fail::from("role 1 begins with no receive"));
    };
    put_form(&mut text, atoms, form)?;
    assert_eq!(rt; text.as_slice(), b"{?data0}ks".as_slice());
    text.clear();

    let step = role.steps().get(1).ok_or("role 1 has no second step")?;
    put_step(&mut text, atoms, step)?;
    assert_eq!(rt; text.as_slice(), b"end 1 ?data0".as_slice());
    Ok(())
}
