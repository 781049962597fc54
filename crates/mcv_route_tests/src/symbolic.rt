//! What can be read and what is acknowledged, a row a case; each pool has one server.

use crate::routes::{check_found, halves, rest_of_a, spelled};
use mcv_base::{Op, Outcome, Position, Rest};
use mcv_route::Route;
use mcv_rules::PlannedLeg;
use mcv_symbolic::{Case, LegAnswer};
use std::alloc::AllocError;
use std::process::Abort;

fn push(rt: &impl Abort, text: &mut String, piece: &str) {
    text.push_str(piece).expect(rt, "memory");
}

fn push_places(rt: &impl Abort, text: &mut String, legs: &[&PlannedLeg]) {
    for leg in legs {
        let steps = leg.position.steps();
        write!(text, "{steps:?}").expect(rt, "memory");
    }
}

/// The calls of an operation on this rest.
fn case<'a>(rt: &(impl AllocGlobal + Abort), route: &'a Route, op: Op, rest: &'a Rest) -> Case<'a> {
    Case::new(rt.alloc(), route, op, rest, None).expect(rt, "memory")
}

/// Adds the positions from which a get can read.
fn push_readable(rt: &(impl AllocGlobal + Abort), text: &mut String, route: &Route, rest: &Rest) {
    let get = case(rt, route, Op::Get, rest);
    let legs = get.readable(rt.alloc()).expect(rt, "memory");
    push_places(rt, text, &legs);
}

/// Adds the positions to which every delete that has a reply has been sent, and whether one can be acknowledged.
fn push_acknowledged(
    rt: &(impl AllocGlobal + Abort),
    text: &mut String,
    route: &Route,
    rest: &Rest,
) -> Result<(), AllocError> {
    let delete = Case::new(rt.alloc(), route, Op::Delete, rest, None)?;
    let legs = delete.acknowledged_legs(rt.alloc())?;
    push_places(rt, text, &legs);
    let can = delete.can_acknowledge();
    write!(text, " {can}").expect(rt, "memory");
    Ok(())
}

const ROWS: &str = "\
EabF | [1][2] [1] true
aNbF | [0] [0] true
aEsbf | [1] [0, 0][1] true
aEbfi | [0] [0][1, 1] true
abcfi | [0] [0][1, 0] true
Nam | [1]  true
aNs |  [0] true
aEs |  [0] false
C | [] [] true
E |   false";

#[test]
fn sets_are_those_of_the_rows(rt: HostRuntime) {
    check_rows(&rt, ROWS, Table::Sets);
}

fn push_shown(rt: &impl Abort, text: &mut String, answers: &[LegAnswer<'_>]) {
    for answer in answers {
        let steps = answer.leg.position.steps();
        let outcome = answer.outcome;
        write!(text, "{steps:?}{outcome:?}").expect(rt, "memory");
    }
}

/// Adds the answers by which a hit of this leaf is a get's answer, `-` where none do, and a semicolon.
fn push_hit(rt: &(impl AllocGlobal + Abort), text: &mut String, get: &Case<'_>, child: usize) {
    let leaf = Position::at(rt.alloc(), &[child]).expect(rt, "memory");
    match get.hit_of(rt.alloc(), &leaf).expect(rt, "memory") {
        Some(answers) => push_shown(rt, text, &answers),
        None => push(rt, text, "-"),
    }
    push(rt, text, ";");
}

const HITS: &str = "\
abw | [0]Good;[0]Soft[1]Good;
abs | [0]Good[1]Good;[0]Good[1]Good;
abf | [0]Good;[0]Error[1]Good;
abm | [0]Good;[0]Soft[1]Good;
abi | [0]Good;-;
aNs | -;-;
Nbf | -;-;
Ebf | -;[1]Good;";

#[test]
fn hits_are_those_of_the_rows(rt: HostRuntime) {
    check_rows(&rt, HITS, Table::Hits);
}

/// Adds the answers by which a hit of each of the first two children is a get's answer.
fn push_hits(rt: &(impl AllocGlobal + Abort), text: &mut String, route: &Route, rest: &Rest) {
    let get = case(rt, route, Op::Get, rest);
    push_hit(rt, text, &get, 0);
    push_hit(rt, text, &get, 1);
}

/// Adds the answers of a delete where all legs answer so.
fn push_answers(
    rt: &(impl AllocGlobal + Abort),
    text: &mut String,
    delete: &Case<'_>,
    outcome: Outcome,
) {
    let legs = delete.answers(rt.alloc(), outcome).expect(rt, "memory");
    push_shown(rt, text, &legs);
}

/// Adds the answers of a delete where all legs answer Good, and where all answer Error.
fn push_both(rt: &(impl AllocGlobal + Abort), text: &mut String, route: &Route, rest: &Rest) {
    let delete = case(rt, route, Op::Delete, rest);
    push_answers(rt, text, &delete, Outcome::Good);
    push(rt, text, " ");
    push_answers(rt, text, &delete, Outcome::Error);
}

const ALIKE: &str = "\
abs | [0]Good[1]Good [0]Error[1]Error
abf | [0]Good [0]Error[1]Error
abi | [0]Good [0]Error
C | []Good []Error";

#[test]
fn answers_alike_are_those_of_the_rows(rt: HostRuntime) {
    check_rows(&rt, ALIKE, Table::Alike);
}

/// What the rows of a table are of: where a get reads and what is acknowledged, the answers by which a hit of each of the
/// first two children is a get's answer, or the answers of a delete where all legs answer alike.
#[derive(Clone, Copy)]
enum Table {
    Sets,
    Hits,
    Alike,
}

/// What a table has for a route.
fn found(rt: &(impl AllocGlobal + Abort), route: &Route, table: Table) -> String {
    let rest = rest_of_a(rt);
    let mut text = String::new(rt.alloc());
    match table {
        Table::Sets => {
            push_readable(rt, &mut text, route, &rest);
            push(rt, &mut text, " ");
            push_acknowledged(rt, &mut text, route, &rest).expect(rt, "memory");
        }
        Table::Hits => push_hits(rt, &mut text, route, &rest),
        Table::Alike => push_both(rt, &mut text, route, &rest),
    }
    text
}

/// A row is the letters of a route, and what its table has for it.
fn check_row(rt: &(impl AllocGlobal + Abort), row: &str, table: Table) {
    let (letters, wanted) = halves(rt, row);
    let route = spelled(rt, letters);
    check_found(rt, row, found(rt, &route, table).as_str(), wanted);
}

fn check_rows(rt: &(impl AllocGlobal + Abort), rows: &str, table: Table) {
    for row in rows.lines() {
        check_row(rt, row, table);
    }
}
