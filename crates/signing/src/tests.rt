use crate::*;
use key::Key;
use ring::{Fault, Layer};

// What the resting key answers to a hash and a sample that is given by its two constants, with the
// constants of the signature.
fn signed(hash: u8, x0: i16, x1: i16) -> Result<(u32, bool, i32, i32), Fault> {
    let key = Key::resting();
    let mut area = [7i32; 8];
    let mut scratch = [7i64; 16];
    let sample = [x0, 0, 0, 0, x1, 0, 0, 0];
    let (squares, changed) = sign_sample(&key, &[hash], &sample, &mut area, &mut scratch)?;
    Ok((squares, changed, area[0], area[4]))
}

fn fault(number: u8) -> Result<(u32, bool, i32, i32), Fault> {
    Err(Fault {
        number,
        layer: Layer::Session,
        place: 0,
    })
}

#[test]
fn targets(rt: HostRuntime) {
    let key = Key::resting();
    let mut area = [7u8; 8];
    let mut scratch = [7i64; 16];
    assert!(rt; write_target(&key, &[0x11], &mut area, &mut scratch[0..15]).is_err());
    assert_eq!(rt; area, [7; 8]);
    assert!(rt; write_target(&key, &[0x11], &mut area, &mut scratch).is_ok());
    assert_eq!(rt; area, [1, 0, 0, 0, 0, 0, 0, 0]);
    assert_eq!(rt; scratch, [0; 16]);
}

#[test]
fn signatures(rt: HostRuntime) {
    assert_eq!(rt; signed(0x11, 1, 0), Ok((1, true, 1, 0)));
    assert_eq!(rt; signed(0x11, 1, 2), Ok((5, false, 0, 0)));
    assert_eq!(rt; signed(0x11, 1, 1), fault(7));
    assert_eq!(rt; signed(0x11, 1, 4), fault(8));
    assert_eq!(rt; signed(0x00, 0, 4), Ok((16, false, 0, -2)));
    assert_eq!(rt; signed(0x01, 1, 1), fault(9));
}
