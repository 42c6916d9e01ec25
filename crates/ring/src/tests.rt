use crate::*;
use std::test::Fail;

#[test]
fn products(rt: HostRuntime) {
    let mut out = [9i64; 4];
    assert!(rt; product(&[1, -2, 3, -4], &[5, 6, -7, 8], &mut out).is_ok());
    assert_eq!(rt; out, [66, -56, 28, 20]);
    // X · X³ = X⁴ = −1
    assert!(rt; product(&[0, 1, 0, 0], &[0, 0, 0, 1], &mut out).is_ok());
    assert_eq!(rt; out, [-1, 0, 0, 0]);
}

#[test]
fn lengths(rt: HostRuntime) {
    let mut out = [9i64; 4];
    assert!(rt; product(&[1, 2, 3], &[1, 2, 3], &mut out).is_err());
    assert!(rt; sum(&[1, 2, 3, 4], &[1, 2, 3, 4], &mut out[0..3]).is_err());
    assert!(rt; adjoint(&[1; 5], &mut out).is_err());
    assert_eq!(rt; out, [9; 4]);
}

#[test]
fn adjoints(rt: HostRuntime) {
    let mut out = [0i64; 4];
    assert!(rt; adjoint(&[1, 2, -3, 4], &mut out).is_ok());
    assert_eq!(rt; out, [1, -4, 3, -2]);
}

#[test]
fn turns(rt: HostRuntime) -> Result<(), Fail> {
    let numbers = [1i64, 2, 3, 4];
    assert!(rt; Turned::new(&numbers, 4).is_err());
    let Ok(strip) = Turned::new(&numbers, 3) else {
        return Err(Fail::new("refused"));
    };
    assert_eq!(rt; strip.at(0).ok(), Some(-2));
    assert_eq!(rt; strip.at(2).ok(), Some(-4));
    assert_eq!(rt; strip.at(3).ok(), Some(1));
    assert!(rt; strip.at(4).is_err());
    Ok(())
}
