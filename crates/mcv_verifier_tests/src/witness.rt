//! Findings, true ones with their texts, and false ones.

use crate::built::{check_true, halves, routes};
use mcv_base::{Op, Outcome, Position, ServerId};
use mcv_cert::Place;
use mcv_pools::Choice;
use mcv_route::Routes;
use mcv_witness::{Finding, LegOutcome, confirm};
use std::alloc::Global;
use std::process::Abort;
use std::test::Fail;

/// A configuration a line: a warm-up; the next pool after an error; a delete that isn't waited for; one that is sent to
/// the other pool by a shadow alone; a delete under another salt; a pool of its own for gets; a warm-up behind the
/// policy of a prefix; a warm-up beside another route; a warm-up before a migration; a pool of its own for incr; a
/// default that replies as another pool.
const CONFIGS: &str = "\
{\"pools\":{\"A\":{\"servers\":[\"a:11211\"]},\"B\":{\"servers\":[\"b:11211\"]}},\"route\":{\"type\":\"WarmUpRoute\",\"cold\":\"PoolRoute|A\",\"warm\":\"PoolRoute|B\"}}
{\"pools\":{\"A\":{\"servers\":[\"a:11211\"]},\"B\":{\"servers\":[\"b:11211\"]}},\"route\":{\"type\":\"FailoverRoute\",\"children\":[\"PoolRoute|A\",\"PoolRoute|B\"]}}
{\"pools\":{\"A\":{\"servers\":[\"a:11211\"]},\"B\":{\"servers\":[\"b:11211\"]}},\"route\":{\"type\":\"OperationSelectorRoute\",\"operation_policies\":{\"delete\":{\"type\":\"AllAsyncRoute\",\"children\":[{\"type\":\"FailoverRoute\",\"children\":[{\"type\":\"AllSyncRoute\",\"children\":[\"PoolRoute|A\",\"ErrorRoute\"]},\"PoolRoute|B\"]}]}},\"default_policy\":{\"type\":\"MissFailoverRoute\",\"children\":[\"PoolRoute|A\",\"PoolRoute|B\"]}}}
{\"pools\":{\"A\":{\"servers\":[\"a:11211\"]},\"B\":{\"servers\":[\"b:11211\"]}},\"route\":{\"type\":\"OperationSelectorRoute\",\"operation_policies\":{\"delete\":{\"type\":\"PoolRoute\",\"pool\":\"A\",\"shadows\":[{\"target\":\"PoolRoute|B\",\"index_range\":[0,0]}]}},\"default_policy\":{\"type\":\"MissFailoverRoute\",\"children\":[\"PoolRoute|A\",\"PoolRoute|B\"]}}}
{\"pools\":{\"A\":{\"servers\":[\"a:11211\",\"b:11211\"]},\"B\":{\"servers\":[\"a:11211\",\"b:11211\"]}},\"route\":{\"type\":\"OperationSelectorRoute\",\"operation_policies\":{\"delete\":{\"type\":\"PoolRoute\",\"pool\":\"B\",\"hash\":{\"hash_func\":\"Ch3\",\"salt\":\"x\"}}},\"default_policy\":\"PoolRoute|A\"}}
{\"pools\":{\"A\":{\"servers\":[\"a:11211\"]},\"B\":{\"servers\":[\"b:11211\"]}},\"route\":{\"type\":\"OperationSelectorRoute\",\"operation_policies\":{\"delete\":\"PoolRoute|A\",\"get\":\"PoolRoute|A\",\"gets\":\"PoolRoute|B\"}}}
{\"pools\":{\"A\":{\"servers\":[\"a:11211\"]},\"B\":{\"servers\":[\"b:11211\"]}},\"routes\":[{\"aliases\":[\"/a/b/\"],\"route\":{\"type\":\"PrefixSelectorRoute\",\"policies\":{\"ab\":{\"type\":\"WarmUpRoute\",\"cold\":\"PoolRoute|A\",\"warm\":\"PoolRoute|B\"}},\"wildcard\":\"NullRoute\"}}]}
{\"pools\":{\"A\":{\"servers\":[\"a:11211\"]},\"B\":{\"servers\":[\"b:11211\"]}},\"routes\":[{\"aliases\":[\"/a/a/\"],\"route\":\"PoolRoute|A\"},{\"aliases\":[\"/b/b/\"],\"route\":{\"type\":\"WarmUpRoute\",\"cold\":\"PoolRoute|A\",\"warm\":\"PoolRoute|B\"}}]}
{\"pools\":{\"A\":{\"servers\":[\"a:11211\"]},\"B\":{\"servers\":[\"b:11211\"]}},\"route\":{\"type\":\"MigrateRoute\",\"from\":{\"type\":\"WarmUpRoute\",\"cold\":\"PoolRoute|A\",\"warm\":\"PoolRoute|B\"},\"to\":\"PoolRoute|A\",\"start_time\":1000,\"interval\":3600}}
{\"pools\":{\"A\":{\"servers\":[\"a:11211\"]},\"B\":{\"servers\":[\"b:11211\"]}},\"route\":{\"type\":\"OperationSelectorRoute\",\"operation_policies\":{\"delete\":\"PoolRoute|A\",\"incr\":\"PoolRoute|B\"},\"default_policy\":\"PoolRoute|A\"}}
{\"pools\":{\"A\":{\"servers\":[\"a:11211\"]},\"B\":{\"servers\":[\"b:11211\"]}},\"route\":{\"type\":\"OperationSelectorRoute\",\"operation_policies\":{\"delete\":\"PoolRoute|A\"},\"default_policy\":{\"type\":\"AllInitialRoute\",\"children\":[\"PoolRoute|B\",\"PoolRoute|A\"]}}}";

/// The number of a configuration, a finding, and its text. Of the finding the route, the class word (`-` for the empty one),
/// the era, the key, the leaf, the index, the number of the server, the choice, the operation, and the outcomes of the get
/// and of the delete.
const TRUE: &str = "\
0 0 - 0 /././! 1 0 1 0 get 0=miss,1=hit 0=deleted => lost b:11211 / route 0 / class = / era 0 / key /././! / get 0=miss 1=hit / delete 0=deleted
1 0 - 0 /././! 1 0 1 0 get 0=error,1=hit 0=deleted => lost b:11211 / route 0 / class = / era 0 / key /././! / get 0=error 1=hit / delete 0=deleted
2 0 - 0 /././! 1.1 0 1 0 get 1.0=miss,1.1=hit - => lost b:11211 / route 0 / class = / era 0 / key /././! / get 1.0=miss 1.1=hit / delete -
3 0 - 0 /././! 1.1 0 1 0 get 1.0=miss,1.1=hit 0=deleted => lost b:11211 / route 0 / class = / era 0 / key /././! / get 1.0=miss 1.1=hit / delete 0=deleted
4 0 - 0 /././! 1 0 0 1,0 get 1=hit 0=deleted => lost a:11211 / route 0 / class = / era 0 / key /././! / index Ch3/x/2=1 / index Ch3//2=0 / get 1=hit / delete 0=deleted
5 0 - 0 /././! 2 0 1 0 gets 2=hit 0=deleted => lost b:11211 / route 0 / class = / era 0 / key /././! / gets 2=hit / delete 0=deleted
6 0 ab 0 /a/b/ab 0.1 0 1 0 get 0.0=miss,0.1=hit 0.0=deleted => lost b:11211 / route 0 / class =ab / era 0 / key /a/b/ab / get 0.0=miss 0.1=hit / delete 0.0=deleted
7 1 - 0 /b/b/! 1 0 1 0 get 0=miss,1=hit 0=absent => lost b:11211 / route 1 / class = / era 0 / key /b/b/! / get 0=miss 1=hit / delete 0=absent
8 0 - 0 /././! 0.1 0 1 0 gets 0.0=miss,0.1=hit 0.0=deleted => lost b:11211 / route 0 / class = / era 0 / key /././! / gets 0.0=miss 0.1=hit / delete 0.0=deleted
9 0 - 0 /././! 1 0 1 0 incr 1=number 0=deleted => lost b:11211 / route 0 / class = / era 0 / key /././! / incr 1=number / delete 0=deleted
10 0 - 0 /././! 1.0 0 1 0 decr 1.0=number,1.1=absent 0=deleted => lost b:11211 / route 0 / class = / era 0 / key /././! / decr 1.0=number 1.1=absent / delete 0=deleted";

/// False findings, each with what is wrong.
const FALSE: &str = "\
0 0 - 0 /././! 1 0 0 0 get 0=miss,1=hit 0=deleted => another server
0 0 a 0 /././! 1 0 1 0 get 0=miss,1=hit 0=deleted => a class that there isn't
6 0 - 0 /a/b/ab 0.1 0 1 0 get 0.0=miss,0.1=hit 0.0=deleted => the class of other keys
6 0 ab 0 /a/b/ac 0.1 0 1 0 get 0.0=miss,0.1=hit 0.0=deleted => a key of another class
0 0 - 0 /././! 1 1 1 0 get 0=miss,1=hit 0=deleted => another index
4 0 - 0 /././! 1 0 0 1,1 get 1=hit 0=deleted => another index by the choice
4 0 - 0 /././! 1 0 0 0,0 get 1=hit 0=deleted => a choice by which the delete reaches the server
4 0 - 0 /././! 1 0 0 2,0 get 1=hit 0=deleted => a choice out of range
0 0 - 0 /././! 1 0 1 0 get 0=miss 0=deleted => no hit
0 0 - 0 /././! 1 0 1 0 get 0=hit,1=hit 0=deleted => a get that doesn't move on
0 0 - 0 /././! 1 0 1 0 get 0=miss,1=hit 0=deleted,1=deleted => a delete that isn't sent
0 0 - 0 /././! 1 0 1 0 get 0=miss,1=hit - => no reply to the delete
0 0 - 0 /././! 1 0 1 0 get 0=miss,1=hit 0=error => an error to the delete
0 0 - 0 /././! 1 0 1 0 get 1=hit,0=miss 0=deleted => outcomes out of order
0 0 - 0 /././! 1 0 1 0 delete 0=miss,1=hit 0=deleted => a delete that reads
0 0 - 1 /././! 1 0 1 0 get 0=miss,1=hit 0=deleted => an era that there isn't
8 0 - 1 /././! 0.1 0 1 0 get 0.0=miss,0.1=hit 0.0=deleted => an era in which the delete is sent to both
0 1 - 0 /././! 1 0 1 0 get 0=miss,1=hit 0=deleted => a route that there isn't
7 0 - 0 /a/a/! 1 0 1 0 get 0=miss,1=hit 0=deleted => a leaf of another route
7 1 - 0 /a/a/! 1 0 1 0 get 0=miss,1=hit 0=deleted => a key of another route
0 0 - 0 /././ 1 0 1 0 get 0=miss,1=hit 0=deleted => no key
0 0 - 0 /././! 0 0 0 0 get 0=hit 0=deleted => a leaf that the delete reaches
5 0 - 0 /././! 2 0 1 0 get 2=hit 0=deleted => a get that another pool answers
5 0 - 0 /././! 1 0 0 0 gets 1=hit 0=deleted => gets that another pool answers
5 0 - 0 /././! 2 0 0 0 gets 2=hit 0=deleted => gets from another server
5 0 a 0 /././! 2 0 1 0 gets 2=hit 0=deleted => gets in a class that there isn't
5 0 - 0 /././! 2 0 1 0 gets - 0=deleted => gets without a hit
6 0 ab 0 /a/b/ab 0.1 0 0 0 get 0.0=miss,0.1=hit 0.0=deleted => another server behind a prefix
6 0 ab 0 /a/b/ab 0.1 0 1 0 get 0.0=miss 0.0=deleted => no hit behind a prefix
0 0 - 0 /././! 1 0 1 0 incr 0=absent,1=number 0=deleted => an incr that goes on after a miss
9 0 - 0 /././! 1 0 1 0 decr 1=number 0=deleted => a decr that another pool answers";

/// Numbers with this sign between them.
fn numbers(alloc: Global, text: &str, sign: char) -> Result<Vec<usize>, Fail> {
    let mut numbers = Vec::new(alloc);
    for word in text.split(sign) {
        numbers.push(word.parse::<usize>()?)?;
    }
    Ok(numbers)
}

fn position(alloc: Global, text: &str) -> Result<Position, Fail> {
    let steps = numbers(alloc, text, '.')?;
    Ok(Position::at(alloc, steps.as_slice())?)
}

fn outcome(word: &str) -> Outcome {
    match word {
        "hit" | "number" | "deleted" => Outcome::Good,
        "miss" | "absent" => Outcome::Soft,
        _ => Outcome::Error,
    }
}

/// Adds a leg with its outcome: a position, `=` and a word.
fn push_outcome(alloc: Global, legs: &mut Vec<LegOutcome>, leg: &str) -> Result<(), Fail> {
    let (at, word) = leg.split_once('=').ok_or("an outcome")?;
    let position = position(alloc, at)?;
    let outcome = outcome(word);
    Ok(legs.push(LegOutcome { position, outcome })?)
}

/// Adds legs with their outcomes; `-` is none.
fn push_outcomes(alloc: Global, legs: &mut Vec<LegOutcome>, text: &str) -> Result<(), Fail> {
    if text != "-" {
        for leg in text.split(',') {
            push_outcome(alloc, legs, leg)?;
        }
    }
    Ok(())
}

fn op(word: &str) -> Op {
    match word {
        "get" => Op::Get,
        "gets" => Op::Gets,
        "incr" => Op::Incr,
        "decr" => Op::Decr,
        _ => Op::Delete,
    }
}

/// The word of a case at an index.
fn word(case: &str, index: usize) -> Result<&str, Fail> {
    Ok(case.split(' ').nth(index).ok_or("a word")?)
}

fn class(word: &str) -> &[u8] {
    if word == "-" { b"" } else { word.as_bytes() }
}

/// A finding without a key, read at the root.
fn empty(alloc: Global) -> Finding {
    Finding {
        place: Place {
            route: 0,
            class: Vec::new(alloc),
            era: 0,
            get_era: 0,
            leaf: Position::root(alloc),
        },
        key: Vec::new(alloc),
        at: 0,
        server: ServerId(0),
        choice: Choice::new(Vec::new(alloc)),
        op: Op::Get,
        gets: Vec::new(alloc),
        deletes: Vec::new(alloc),
        window: 0,
    }
}

/// Takes in where the finding of a case is.
fn set_place(alloc: Global, finding: &mut Finding, case: &str) -> Result<(), Fail> {
    finding.place.route = word(case, 1)?.parse::<usize>()?;
    finding
        .place
        .class
        .extend_from_slice(class(word(case, 2)?))?;
    finding.place.era = word(case, 3)?.parse::<usize>()?;
    finding.place.get_era = finding.place.era;
    finding.key.extend_from_slice(word(case, 4)?.as_bytes())?;
    finding.place.leaf = position(alloc, word(case, 5)?)?;
    Ok(())
}

/// Takes in what the finding of a case reads, and the choice.
fn set_read(alloc: Global, finding: &mut Finding, case: &str) -> Result<(), Fail> {
    finding.at = word(case, 6)?.parse::<usize>()?;
    finding.server = ServerId(word(case, 7)?.parse::<u32>()?);
    finding.choice = Choice::new(numbers(alloc, word(case, 8)?, ',')?);
    finding.op = op(word(case, 9)?);
    Ok(())
}

/// Takes in the outcomes of the finding of a case.
fn set_outcomes(alloc: Global, finding: &mut Finding, case: &str) -> Result<(), Fail> {
    push_outcomes(alloc, &mut finding.gets, word(case, 10)?)?;
    push_outcomes(alloc, &mut finding.deletes, word(case, 11)?)
}

/// The finding of a case, whose first word is the number of its configuration.
fn finding(alloc: Global, case: &str) -> Result<Finding, Fail> {
    let mut finding = empty(alloc);
    set_place(alloc, &mut finding, case)?;
    set_read(alloc, &mut finding, case)?;
    set_outcomes(alloc, &mut finding, case)?;
    Ok(finding)
}

/// The configuration of this number.
fn config(number: &str) -> Result<&'static str, Fail> {
    let number = number.parse::<usize>()?;
    Ok(CONFIGS.lines().nth(number).ok_or("a configuration")?)
}

/// The finding of a case is true and has this text, or is false for this reason.
fn check_finding(
    rt: &impl Abort,
    alloc: Global,
    routes: &Routes,
    case: &str,
    is_true: bool,
) -> Result<(), Fail> {
    let (line, wanted) = halves(case)?;
    let finding = finding(alloc, line)?;
    if is_true {
        return check_true(rt, alloc, routes, &finding, wanted);
    }
    assert!(rt; !confirm(routes, &finding), "{case}");
    Ok(())
}

fn check_case(rt: &impl Abort, alloc: Global, case: &str, is_true: bool) -> Result<(), Fail> {
    let routes = routes(rt, alloc, config(word(case, 0)?)?)?;
    check_finding(rt, alloc, &routes, case, is_true)
}

#[test]
fn what_breaks_coverage_is_confirmed(rt: HostRuntime) -> Result<(), Fail> {
    for case in TRUE.lines() {
        check_case(&rt, rt.alloc(), case, true)?;
    }
    Ok(())
}

#[test]
fn what_does_not_is_refused(rt: HostRuntime) -> Result<(), Fail> {
    for case in FALSE.lines() {
        check_case(&rt, rt.alloc(), case, false)?;
    }
    Ok(())
}
