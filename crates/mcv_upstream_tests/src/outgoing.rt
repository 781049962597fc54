//! Bytes that wait to be written.

use mcv_outgoing::Outgoing;
use std::process::Abort;
use std::test::Fail;

/// These bytes wait.
fn check(rt: &impl Abort, outgoing: &Outgoing, wanted: &[u8]) {
    let found = outgoing.bytes();
    assert!(rt; found == wanted, "{found:?}");
}

#[test]
fn bytes_wait_in_their_order(rt: HostRuntime) -> Result<(), Fail> {
    let mut outgoing = Outgoing::new(rt.alloc());
    check(&rt, &outgoing, b"");
    outgoing.push(b"get a\r\n")?;
    outgoing.push(b"get b\r\n")?;
    check(&rt, &outgoing, b"get a\r\nget b\r\n");
    outgoing.wrote(5);
    check(&rt, &outgoing, b"\r\nget b\r\n");
    outgoing.push(b"get c\r\n")?;
    outgoing.withdraw(9);
    check(&rt, &outgoing, b"\r\nget b");
    outgoing.wrote(7);
    check(&rt, &outgoing, b"");
    Ok(())
}

#[test]
fn nothing_waits_once_all_is_cleared(rt: HostRuntime) -> Result<(), Fail> {
    let mut outgoing = Outgoing::new(rt.alloc());
    outgoing.push(b"get a\r\n")?;
    outgoing.wrote(1);
    outgoing.clear();
    check(&rt, &outgoing, b"");
    outgoing.push(b"get b\r\n")?;
    check(&rt, &outgoing, b"get b\r\n");
    Ok(())
}

/// Ten thousand bytes are written by thousands, so that the room of those before is given back in between.
#[test]
fn written_bytes_do_not_come_again(rt: HostRuntime) -> Result<(), Fail> {
    let mut outgoing = Outgoing::new(rt.alloc());
    for number in 0..10_u8 {
        let piece = [number; 1_000];
        outgoing.push(piece.as_slice())?;
    }
    for number in 0..10_u8 {
        let found = outgoing.bytes();
        let piece = [number; 1_000];
        assert!(rt; found.starts_with(piece.as_slice()), "{number} isn't first");
        assert!(rt;
            found.len() == 1_000 * (10 - usize::from(number)),
            "not all the others"
        );
        outgoing.wrote(1_000);
    }
    check(&rt, &outgoing, b"");
    Ok(())
}
