use crate::*;
use key::Key;
use ring::Fault;
use scheme::SessionFault;
use std::test::Fail;

// The number of a refusal, which is what callers see.
fn number_of(fault: SessionFault) -> u8 {
    Fault::from(fault).number
}

// Ends an order that came back, and answers the refusal's number.
fn returned(back: Returned) -> u8 {
    let Returned { fault, order } = back;
    order.end();
    number_of(fault)
}

// Withdraws an order. An error is the refusal's number.
fn withdrawn(session: &mut Session<'_, '_>, order: Order) -> Result<(), u8> {
    session.withdraw(order).map_err(returned)
}

// Announces a hash and withdraws its order.
fn tried(session: &mut Session<'_, '_>, hash: &[u8]) -> Result<(), u8> {
    let order = session.announce(hash).map_err(number_of)?;
    withdrawn(session, order)
}

// Announces a hash and signs it: the sample's squared length and whether the sign changed.
fn signed(
    session: &mut Session<'_, '_>,
    hash: u8,
    sample: [i16; 8],
    area: &mut [i32],
) -> Result<(u32, bool), u8> {
    let mut scratch = [7i64; 16];
    let order = session.announce(&[hash]).map_err(number_of)?;
    session
        .sign(order, &sample, area, &mut scratch)
        .map_err(returned)
}

#[test]
fn orders(rt: HostRuntime) -> Result<(), Fail> {
    let key = Key::resting();
    let mut log = [7u8; 2];
    let mut session = Session::open(&key, &mut log);
    assert_eq!(rt; tried(&mut session, &[1, 2]), Err(1));
    assert_eq!(rt; tried(&mut session, &[1]), Ok(()));
    assert_eq!(rt; withdrawn(&mut session, Order { number: 1 }), Err(21));
    let Ok(order) = session.announce(&[1]) else {
        return Err(Fail::new("no order"));
    };
    let number = order.number();
    let standing = session.count().standing;
    let second = tried(&mut session, &[2]);
    assert_eq!(rt; withdrawn(&mut session, order), Ok(()));
    assert_eq!(rt; number, 1);
    assert_eq!(rt; standing, true);
    assert_eq!(rt; second, Err(20));
    Ok(())
}

#[test]
fn targets(rt: HostRuntime) -> Result<(), Fail> {
    let key = Key::resting();
    let mut log = [7u8; 1];
    let mut short = [9u8; 7];
    let mut area = [9u8; 8];
    let mut scratch = [7i64; 16];
    let mut session = Session::open(&key, &mut log);
    let Ok(order) = session.announce(&[0x11]) else {
        return Err(Fail::new("no order"));
    };
    let refused = session.target(&order, &mut short, &mut scratch).is_err();
    let aimed = session.target(&order, &mut area, &mut scratch).is_ok();
    assert_eq!(rt; withdrawn(&mut session, order), Ok(()));
    assert!(rt; refused && aimed);
    assert_eq!(rt; area, [1, 0, 0, 0, 0, 0, 0, 0]);
    assert_eq!(rt; scratch, [0; 16]);
    Ok(())
}

// A log with room for two signatures.
#[test]
fn signatures(rt: HostRuntime) {
    let key = Key::resting();
    let mut log = [7u8; 2];
    let mut short = [9i32; 7];
    let mut area = [9i32; 8];
    let mut session = Session::open(&key, &mut log);
    let one = [1, 0, 0, 0, 0, 0, 0, 0];
    assert_eq!(rt; signed(&mut session, 0x11, one, &mut short), Err(1));
    assert_eq!(rt; session.count().standing, true);
    assert_eq!(rt; withdrawn(&mut session, Order { number: 1 }), Ok(()));
    assert_eq!(rt; signed(&mut session, 0x11, one, &mut area), Ok((1, true)));
    assert_eq!(rt; area, [1, 0, 0, 0, 0, 0, 0, 0]);
    assert_eq!(rt; tried(&mut session, &[0x11]), Err(23));
    let far = [0, 0, 0, 0, 4, 0, 0, 0];
    assert_eq!(rt; signed(&mut session, 0, far, &mut area), Ok((16, false)));
    assert_eq!(rt; area, [0, 0, 0, 0, -2, 0, 0, 0]);
    assert_eq!(rt; tried(&mut session, &[1]), Err(22));
    assert_eq!(rt; session.count().issued, 2);
    assert_eq!(rt; log, [0x11, 0]);
}
