//! Texts that are read, and texts at fault. In the tables `^` is a LF and `~` a CR.

use mcv_base::Position;
use mcv_cert::{CertFault, Certificate, Pair, Place, Reason, read_certificate};
use std::alloc::{AllocError, Global};
use std::process::Abort;
use std::test::Fail;

/// The bytes of a column.
fn unfolded(alloc: Global, column: &str) -> Result<Vec<u8>, AllocError> {
    let mut bytes = Vec::new(alloc);
    for byte in column.as_bytes() {
        let meant = match *byte {
            b'^' => b'\n',
            b'~' => b'\r',
            other => other,
        };
        bytes.push(meant)?;
    }
    Ok(bytes)
}

/// Texts of certificates.
const READ: &str = "mcv-cert 1^end^
mcv-cert 1^0 = 0 1 all 0 0.0^0 = 0 1 all 1 0.1^end^
mcv-cert 1^0 = 0 1.0 twin 0.0^0 = 0 1.1 twin 0.1^end^
mcv-cert 1^0 = 0 0.1 same 0 1^0 = 0 0.1 same 1 1^0 = 0 0.1.0 all 0 1 2 -^end^
mcv-cert 1^0 =a%25%20%FF= 3 - never^0 =b 2 - never^18446744073709551615 = 0 0 same 18446744073709551615 18446744073709551615^end^
mcv-cert 2 60^end^
mcv-cert 2 18446744073709551615^0 = 0 0 1 all 0 0.0^0 = 0 1 1 all 0 0.0^0 = 1 0 1 never^end^";

/// Whether a certificate is written as this text, and has as many pairs as it says.
fn is_written(alloc: Global, certificate: &Certificate, text: &[u8]) -> Result<bool, Fail> {
    let again = certificate.text(alloc)?;
    Ok(again.as_slice() == text && certificate.len() == certificate.pairs().len())
}

/// The same of the certificate that is read from a row.
fn is_written_again(alloc: Global, row: &str) -> Result<bool, Fail> {
    let text = unfolded(alloc, row)?;
    let certificate = read_certificate(alloc, text.as_slice())?;
    is_written(alloc, &certificate, text.as_slice())
}

#[test]
fn texts_are_read_and_written_again(rt: HostRuntime) -> Result<(), Fail> {
    for row in READ.lines() {
        assert!(rt; is_written_again(rt.alloc(), row)?, "{row}");
    }
    Ok(())
}

/// Texts with the number of their fault and the line of it.
const REFUSED: &str = "|1 1
mcv-cert 1|1 1
mcv-cert 01^end^|1 1
mcv-cert 1^|1 2
mcv-cert 1^end|1 2
mcv-cert 1^end^x|1 3
mcv-cert 1^end^^|1 3
mcv-cert 1~^end^|1 1
mcv-cert 2^end^|1 1
mcv-cert 2 ^end^|1 1
mcv-cert 2 0^end^|1 1
mcv-cert 2 01^end^|1 1
mcv-cert 2 18446744073709551616^end^|1 1
mcv-cert 2 60^0 = 0 1 never^end^|1 2
mcv-cert 1^0 = 0 0 1 never^end^|1 2
mcv-cert 2 60^0 = 1 0 1 never^0 = 0 1 1 never^end^|2 3
mcv-cert 1^0 = 0 1 all 0 0.0^0 = 0 1 all 0 0.0^0 = 0 1 all 1 0.1^end^|2 3
mcv-cert 1^0 = 0 1 all 0 0.0^0 = 0 1 all 1 0.1^|1 4
mcv-cert 1^1 = 0 1 never^0 = 0 1 never^0 = 0 01 never^end^|2 3
mcv-cert 1^0 = 0 01 never^end^|1 2
mcv-cert 1^0 =%41 0 1 never^end^|1 2
mcv-cert 1^0 =%c3 0 1 never^end^|1 2
mcv-cert 1^0 =% 0 1 never^end^|1 2
mcv-cert 1^0 =  0 1 never^end^|1 2
mcv-cert 1^0 = 0 1  never^end^|1 2
mcv-cert 1^0 = 0 1 never ^end^|1 2
mcv-cert 1^0 = 0 1 never~^end^|1 2
mcv-cert 1^+0 = 0 1 never^end^|1 2
mcv-cert 1^0 0 1 never^end^|1 2
mcv-cert 1^18446744073709551616 = 0 1 never^end^|1 2
mcv-cert 1^0 = 0 1. never^end^|1 2
mcv-cert 1^0 = 0 -.1 never^end^|1 2
mcv-cert 1^0 = 0 1 same 0^end^|1 2
mcv-cert 1^0 = 0 1 all 0^end^|1 2
mcv-cert 1^0 = 0 1 some 0 1^end^|1 2";

/// The fault of a text, if it has one: its number and its line.
fn fault_of(alloc: Global, text: &[u8]) -> Result<String, AllocError> {
    match read_certificate(alloc, text) {
        Ok(_) => String::from_str(alloc, "none"),
        Err(CertFault::Memory) => String::from_str(alloc, "out of memory"),
        Err(CertFault::Text(fault)) => {
            let number = fault.number();
            let line = fault.line();
            format!(in alloc; "{number} {line}")
        }
    }
}

/// Whether the text of a row has the fault that it wants.
fn is_reported(alloc: Global, row: &str) -> Result<bool, Fail> {
    let (text, expected) = row.split_once('|').ok_or("a row")?;
    let text = unfolded(alloc, text)?;
    let reported = fault_of(alloc, text.as_slice())?;
    Ok(reported.as_str() == expected)
}

#[test]
fn the_first_line_at_fault_is_reported(rt: HostRuntime) -> Result<(), Fail> {
    for row in REFUSED.lines() {
        assert!(rt; is_reported(rt.alloc(), row)?, "{row}");
    }
    Ok(())
}

/// The reason that each server at an index has its leg.
fn all(alloc: Global, index: usize) -> Result<Reason, AllocError> {
    let mut legs = Vec::new(alloc);
    legs.push(Position::at(alloc, &[0, index])?)?;
    Ok(Reason::All(index, legs))
}

/// The pair of the leaf 1 with this reason.
fn pair(alloc: Global, reason: Reason) -> Result<Pair, AllocError> {
    Ok(Pair::new(place(alloc)?, reason))
}

fn push_next(
    rt: &impl Abort,
    alloc: Global,
    certificate: &mut Certificate,
    index: usize,
) -> Result<(), Fail> {
    let pair = pair(alloc, all(alloc, index)?)?;
    assert!(rt; certificate.takes(&pair), "it rises");
    assert!(rt; pair.reason.index() == index, "the index");
    certificate.push(pair)?;
    Ok(())
}

/// The leaf 1 of the first route, in the first era, for the class of the empty word.
fn place(alloc: Global) -> Result<Place, AllocError> {
    Ok(Place {
        route: 0,
        class: Vec::new(alloc),
        era: 0,
        get_era: 0,
        leaf: Position::at(alloc, &[1])?,
    })
}

#[test]
fn a_certificate_takes_pairs_that_rise(rt: HostRuntime) -> Result<(), Fail> {
    let alloc = rt.alloc();
    let mut certificate = Certificate::new(alloc, 0);
    push_next(&rt, alloc, &mut certificate, 0)?;
    push_next(&rt, alloc, &mut certificate, 1)?;
    assert!(rt;
        !certificate.takes(&pair(alloc, Reason::Never)?),
        "it falls"
    );
    let expected = b"mcv-cert 1\n0 = 0 1 all 0 0.0\n0 = 0 1 all 1 0.1\nend\n";
    assert!(rt; is_written(alloc, &certificate, expected)?, "the text");
    Ok(())
}
