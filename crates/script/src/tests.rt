use crate::*;
use ring::{Class, Fault, Layer};
use std::alloc::{AllocError, Global};
use std::test::Fail;

fn shown(heap: Global, line: &str) -> Result<String, AllocError> {
    let line = read_line(heap, line)?;
    format!(in heap; "{line:?}")
}

fn text(heap: Global, reply: Reply) -> Result<String, AllocError> {
    reply_text(heap, &reply)
}

#[test]
fn operands(rt: HostRuntime) -> Result<(), Fail> {
    for (line, wanted) in [
        ("key 00ff", "Key([0, 255])"),
        ("load -", "Load([])"),
        ("verify 1a 2b3c", "Verify([26], [43, 60])"),
        ("open 0016776960", "Open(16776960)"),
        ("announce 7f", "Announce([127])"),
        ("sign 0001fffe7fff8000", "Sign([1, -2, 32767, -32768])"),
        ("sign -", "Sign([])"),
    ] {
        assert_eq!(rt; shown(rt.alloc(), line)?.as_str(), wanted);
    }
    Ok(())
}

#[test]
fn verbs(rt: HostRuntime) -> Result<(), Fail> {
    for (line, wanted) in [
        ("", "Skipped"),
        ("# key", "Skipped"),
        ("form", "Form"),
        ("target", "Target"),
        ("withdraw", "Withdraw"),
        ("count", "Count"),
        ("log", "Log"),
        ("close", "Close"),
    ] {
        assert_eq!(rt; shown(rt.alloc(), line)?.as_str(), wanted);
    }
    Ok(())
}

#[test]
fn bad_operands(rt: HostRuntime) -> Result<(), Fail> {
    for line in [
        "key 0F",
        "key 0",
        "key ",
        "key --",
        "sign 00",
        "open 16776961",
        "open 18446744073709551617",
        "open +1",
        "open -",
    ] {
        assert_eq!(rt; shown(rt.alloc(), line)?.as_str(), "Bad", "{line}");
    }
    Ok(())
}

#[test]
fn bad_words(rt: HostRuntime) -> Result<(), Fail> {
    for line in [
        "keys 00",
        "key",
        "form 00",
        "form ",
        " form",
        "key  00",
        "verify 00",
        "verify 00 00 00",
        "Form",
    ] {
        assert_eq!(rt; shown(rt.alloc(), line)?.as_str(), "Bad", "{line}");
    }
    Ok(())
}

#[test]
fn answers(rt: HostRuntime) -> Result<(), Fail> {
    let heap = rt.alloc();
    assert_eq!(rt; text(heap, Reply::Done)?.as_str(), "ok");
    assert_eq!(rt; text(heap, Reply::Loaded(Class::Two))?.as_str(), "ok 2 256");
    let bytes = vec![in heap; 0x0f, 0xa0]?;
    assert_eq!(rt; text(heap, Reply::Bytes(bytes))?.as_str(), "ok 0fa0");
    assert_eq!(rt; text(heap, Reply::Bytes(Vec::new(heap)))?.as_str(), "ok -");
    assert_eq!(rt; text(heap, Reply::Number(120))?.as_str(), "ok 120");
    let bits = vec![in heap; 0, 1, 7]?;
    assert_eq!(rt; text(heap, Reply::Target(bits))?.as_str(), "ok 011");
    Ok(())
}

#[test]
fn flags(rt: HostRuntime) -> Result<(), Fail> {
    let heap = rt.alloc();
    for (kept, wanted) in [(true, "ok 9 kept 01"), (false, "ok 9 changed 01")] {
        let signed = Reply::Signed {
            length: 9,
            kept,
            signature: vec![in heap; 1]?,
        };
        assert_eq!(rt; text(heap, signed)?.as_str(), wanted);
    }
    for (standing, wanted) in [(false, "ok 2 5 idle"), (true, "ok 2 5 standing")] {
        let counted = Reply::Counted {
            issued: 2,
            capacity: 5,
            standing,
        };
        assert_eq!(rt; text(heap, counted)?.as_str(), wanted);
    }
    Ok(())
}

#[test]
fn refusals(rt: HostRuntime) -> Result<(), Fail> {
    let heap = rt.alloc();
    let fault = Fault {
        number: 3,
        layer: Layer::Key,
        place: 17,
    };
    assert_eq!(rt;
        text(heap, Reply::Refused(fault))?.as_str(),
        "refused 3 key 17"
    );
    assert_eq!(rt; text(heap, Reply::BadLine)?.as_str(), "bad line");
    assert_eq!(rt; text(heap, Reply::NoOrder)?.as_str(), "no order");
    assert_eq!(rt; text(heap, Reply::NoSession)?.as_str(), "no session");
    assert_eq!(rt; text(heap, Reply::SessionOpen)?.as_str(), "session open");
    assert_eq!(rt; text(heap, Reply::NoMemory)?.as_str(), "no memory");
    Ok(())
}
