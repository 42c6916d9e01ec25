use crate::*;
use key::Form;
use ring::{Fault, Layer};

// The verdict for the resting form.
fn answer(hash: &[u8], signature: &[i32], words: &mut [i64]) -> Result<u32, Fault> {
    verify(&Form::resting(), hash, signature, words).map_err(Fault::from)
}

// The refusal with this number.
fn fault(number: u8) -> Result<u32, Fault> {
    Err(Fault {
        number,
        layer: Layer::Check,
        place: 0,
    })
}

// v = (−1, 1) gives N = 1, and v = (1, −1) has the other sign. N is L with v1 = 4, and above it with v1 = 4 + X.
#[test]
fn verdicts(rt: HostRuntime) {
    let mut words = [7i64; 16];
    let length = answer(&[0x11], &[1, 0, 0, 0, 0, 0, 0, 0], &mut words);
    assert_eq!(rt; length, Ok(1));
    assert_eq!(rt; words, [0; 16]);
    let refusal = answer(&[0x11], &[0, 0, 0, 0, 1, 0, 0, 0], &mut words);
    assert_eq!(rt; refusal, fault(9));
    let length = answer(&[0], &[0, 0, 0, 0, -2, 0, 0, 0], &mut words);
    assert_eq!(rt; length, Ok(16));
    let refusal = answer(&[0x20], &[0, 0, 0, 0, -2, 0, 0, 0], &mut words);
    assert_eq!(rt; refusal, fault(8));
    let refusal = answer(&[0], &[0; 8], &mut words);
    assert_eq!(rt; refusal, fault(9));
}

#[test]
fn limits(rt: HostRuntime) {
    let mut words = [7i64; 16];
    let refusal = answer(&[0], &[0, 0, 0, 524_287, 0, 0, 0, 0], &mut words);
    assert_eq!(rt; refusal, fault(8));
    let refusal = answer(&[0], &[0, 0, 0, 524_288, 0, 0, 0, 0], &mut words);
    assert_eq!(rt; refusal, fault(3));
    let refusal = answer(&[0], &[0, 0, 0, 0, 0, 0, 0, -524_288], &mut words);
    assert_eq!(rt; refusal, fault(3));
}

#[test]
fn lengths(rt: HostRuntime) {
    let mut words = [7i64; 17];
    let refusal = answer(&[0], &[524_288; 8], &mut words);
    assert_eq!(rt; refusal, fault(1));
    assert_eq!(rt; words, [0; 17]);
    let refusal = answer(&[0, 0], &[0; 8], &mut [7i64; 16]);
    assert_eq!(rt; refusal, fault(1));
    let refusal = answer(&[0], &[0; 7], &mut [7i64; 16]);
    assert_eq!(rt; refusal, fault(1));
}
