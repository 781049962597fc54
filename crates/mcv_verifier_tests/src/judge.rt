//! Certificates beside one block. Gets go to the leaf 1 with the servers 7 and 8 by its hash; every delete that has a
//! reply has sent the legs 0.0 to 0.3.

ghost use Rattle.std.specs.Prelude.{◌≡◌, ◌<◌, ◌∷◌, [], length, All};
ghost use Rattle.mcv_judge.specs.Faults.{AreLegsRising};
ghost use Rattle.mcv_judge.specs.PairsInMemory.{legs_of};

use crate::built::check_number;
use mcv_base::{Position, ServerId};
use mcv_cert::{Certificate, read_certificate};
use mcv_judge::{Block, Leg, Spot, judge};
use std::alloc::{AllocError, Global};
use std::process::Abort;
use std::test::Fail;

/// The number of the first fault of a certificate, 0 where there is none.
fn number_reported<'a>(
    class: &'a [u8],
    readable: &'a [Leg<'a>],
    acknowledged: &'a [Leg<'a>],
    certificate: &Certificate,
) -> u8
    requires readable { AreLegsRising (legs_of readable.now) }
    requires indexed { All (λ l. 0 < length l.servers) (legs_of readable.now) }
    requires acknowledged { AreLegsRising (legs_of acknowledged.now) }
{
    let blocks = [Block {
        spot: Spot {
            route: 0,
            class,
            era: 0,
            get_era: 0,
        },
        readable,
        acknowledged,
        can_be_acknowledged: true,
    }];
    match judge(&blocks, certificate.pairs()) {
        Ok(()) => 0,
        Err(fault) => fault.number(),
    }
}

const BOTH: [ServerId; 2] = [ServerId(7), ServerId(8)];

const OTHERS: [ServerId; 2] = [ServerId(7), ServerId(9)];

const SEVEN: [ServerId; 1] = [ServerId(7)];

const EIGHT: [ServerId; 1] = [ServerId(8)];

/// What is reported where the leaf and the legs have these positions.
fn reported_at<'a>(
    certificate: &Certificate,
    leaf: &'a Position,
    first: &'a Position,
    second: &'a Position,
    third: &'a Position,
    fourth: &'a Position,
) -> u8
    requires first { first.now ≡ 0 ∷ 0 ∷ [] }
    requires second { second.now ≡ 0 ∷ 1 ∷ [] }
    requires third { third.now ≡ 0 ∷ 2 ∷ [] }
    requires fourth { fourth.now ≡ 0 ∷ 3 ∷ [] }
{
    let readable = [Leg {
        position: leaf,
        symbol: 0,
        servers: &BOTH,
    }];
    let acknowledged = [
        Leg {
            position: first,
            symbol: 1,
            servers: &SEVEN,
        },
        Leg {
            position: second,
            symbol: 1,
            servers: &EIGHT,
        },
        Leg {
            position: third,
            symbol: 0,
            servers: &OTHERS,
        },
        Leg {
            position: fourth,
            symbol: 0,
            servers: &BOTH,
        },
    ];
    number_reported(b"", &readable, &acknowledged, certificate)
}

/// What is reported of a certificate.
fn reported(alloc: Global, certificate: &Certificate) -> Result<u8, AllocError> {
    let leaf = Position::at(alloc, &[1])?;
    let first = Position::at(alloc, &[0, 0])?;
    let second = Position::at(alloc, &[0, 1])?;
    let third = Position::at(alloc, &[0, 2])?;
    let fourth = Position::at(alloc, &[0, 3])?;
    Ok(reported_at(certificate, &leaf, &first, &second, &third, &fourth))
}

/// What is reported of the certificate with this text.
fn text_judged(alloc: Global, text: &[u8]) -> Result<u8, Fail> {
    let certificate = read_certificate(alloc, text)?;
    Ok(reported(alloc, &certificate)?)
}

/// The text of a certificate with the pairs of a row, each ended by a `^`.
fn certificate_of(alloc: Global, row: &str) -> Result<Vec<u8>, AllocError> {
    let mut text = Vec::new(alloc);
    text.extend_from_slice(b"mcv-cert 1\n")?;
    for byte in row.as_bytes() {
        text.push(if *byte == b'^' { b'\n' } else { *byte })?;
    }
    text.extend_from_slice(b"end\n")?;
    Ok(text)
}

/// What is reported of the certificate with these pairs.
fn judged(alloc: Global, pairs: &str) -> Result<u8, Fail> {
    let text = certificate_of(alloc, pairs)?;
    text_judged(alloc, text.as_slice())
}

/// Pairs with the number of the first fault.
const ROWS: &str = "0 = 0 1 all 0 0.0^0 = 0 1 all 1 0.1^|0
0 = 0 1 same 0 0.2^0 = 0 1 all 1 0.1^|0
0 = 0 1 twin 0.3^|0
|1
0 = 0 1 all 0 0.0^|1
0 = 0 1 all 1 0.4^|1
0 =a 0 1 never^|1
0 = 0 0 never^0 = 0 1 never^|2
0 = 0 1 all 0 0.0^0 = 0 1 all 1 0.1^0 = 0 1 same 2 0.2^|2
0 = 0 1 twin 0.3^0 = 0 1 same 1 0.3^|2
0 = 0 1 twin 0.3^1 = 0 1 never^|2
0 = 0 1 twin 0.4^|3
0 = 0 1 all 0 0.1 0.4^|3
0 = 0 1 all 0 0.1^0 = 0 1 same 1 0.4^|4
0 = 0 1 all 0 0.0 0.0^|4
0 = 0 1 all 0 0.0^0 = 0 1 same 1 0.2^|4
0 = 0 1 twin 0.2^|4
0 = 0 1 never^|5";

fn check_row(rt: &impl Abort, alloc: Global, row: &str) -> Result<(), Fail> {
    let (pairs, number) = row.split_once('|').ok_or("a row")?;
    check_number(rt, row, judged(alloc, pairs)?, number.parse::<u8>()?);
    Ok(())
}

#[test]
fn the_first_fault_is_reported(rt: HostRuntime) -> Result<(), Fail> {
    for row in ROWS.lines() {
        check_row(&rt, rt.alloc(), row)?;
    }
    Ok(())
}
