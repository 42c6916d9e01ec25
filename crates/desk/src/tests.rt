use crate::*;
use key::Key;
use ring::Fault;
use scheme::SessionFault;
use session::Session;

// An error is the refusal's number.
fn refusal<T: Drop>(answer: Result<T, SessionFault>) -> Result<(), u8> {
    match answer {
        Ok(_) => Ok(()),
        Err(fault) => Err(Fault::from(fault).number),
    }
}

// Each byte as a hash, announced and withdrawn.
fn serve<'k, 'l>(session: Session<'k, 'l>, hashes: &[u8]) -> Session<'k, 'l> {
    let mut desk = Desk::new(session);
    for hash in hashes {
        let _ = desk.withdraw();
        let _ = desk.announce(&[*hash]);
    }
    desk.close()
}

#[test]
fn one_order(rt: HostRuntime) {
    let key = Key::resting();
    let mut log = [7u8; 2];
    let session = serve(Session::open(&key, &mut log), &[1, 2, 3]);
    let mut desk = Desk::new(session);
    let idle = desk.withdraw().map(refusal);
    let short = refusal(desk.announce(&[]));
    let first = refusal(desk.announce(&[0x11]));
    let second = refusal(desk.announce(&[0x12]));
    let mut area = [5u8; 8];
    let aimed = desk.target(&mut area, &mut [9; 16]).map(refusal);
    let refused = desk.sign(&[0; 8], &mut [0; 8], &mut [9; 15]).map(refusal);
    let standing = desk.session.count().standing;
    let session = desk.close();
    assert_eq!(rt; idle, None);
    assert_eq!(rt; short, Err(1));
    assert_eq!(rt; first, Ok(()));
    assert_eq!(rt; second, Err(20));
    assert_eq!(rt; aimed, Some(Ok(())));
    assert!(rt; area[0] < 2);
    assert_eq!(rt; refused, Some(Err(1)));
    assert_eq!(rt; standing, true);
    assert_eq!(rt; session.count().standing, false);
}
