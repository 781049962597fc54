//! The text of a finding.

ghost use Rattle.std.specs.Prelude.{◌≡◌, ◌++◌, [], codes, decimal, slice_get, unwrap_or, IfOk, OnOk};
ghost use Rattle.std.specs.List.{flat_map};
ghost use Rattle.mcv_base.specs.Operation.{op_name};
ghost use Rattle.mcv_cert.specs.Escape.{escaped};
ghost use Rattle.mcv_witness.specs.Finding.{finding_of, outcomes_of};
ghost use Rattle.mcv_witness.specs.Text.{answer_text, answers_text, done_word, eras_text, finding_text, func_name, index_line, index_lines, index_text, line, lost_line, number_word, outcome_word, read_word, salt_byte};

use crate::finding::{Finding, LegOutcome};
use mcv_base::{Op, Outcome, ServerId, push_number};
use mcv_cert::push_escaped;
use mcv_pools::{Choice, HashFunc, Symbol};
use mcv_route::Routes;
use std::alloc::{AllocError, Global};

/// The text of a finding: what is lost, where, by which key and indexes, and what was answered.
pub fn finding_text(
    alloc: Global,
    finding: &Finding,
    routes: &Routes,
) -> Result<Vec<u8>, AllocError>
    ensures { IfOk result (λ text. text.items ≡ finding_text routes.now (finding_of finding.now)) }
{
    let mut text = Vec::new(alloc);
    push_lost(&mut text, finding, routes)?;
    push_number_line(&mut text, b"route", finding.place.route)?;
    push_class(&mut text, finding.place.class.as_slice())?;
    push_eras(&mut text, finding)?;
    push_key(&mut text, finding.key.as_slice())?;
    push_indexes(&mut text, &finding.choice, routes.symbols().as_slice())?;
    push_answers_line(&mut text, finding.op, finding.gets.as_slice())?;
    push_answers_line(&mut text, Op::Delete, finding.deletes.as_slice())?;
    Ok(text)
}

/// The text of a server, empty where it isn't in the table.
fn server_text(routes: &Routes, server: ServerId) -> &[u8]
    ensures { result.now ≡ unwrap_or (slice_get routes.now.servers server.0) [] }
{
    match routes.servers().text(server) {
        Some(text) => text.as_bytes(),
        None => b"",
    }
}

/// Adds the line of the server.
fn push_lost(text: &mut Vec<u8>, finding: &Finding, routes: &Routes) -> Result<(), AllocError>
    ensures { OnOk result (text.new.items ≡ text.old.items ++ lost_line routes.now (finding_of finding.now)) }
{
    text.extend_from_slice(b"lost ")?;
    text.extend_from_slice(server_text(routes, finding.server))?;
    text.extend_from_slice(b"\n")
}

/// Adds the line of a word and a number.
fn push_number_line(text: &mut Vec<u8>, word: &[u8], number: usize) -> Result<(), AllocError>
    ensures { OnOk result (text.new.items ≡ text.old.items ++ line word.now (decimal number)) }
{
    text.extend_from_slice(word)?;
    text.extend_from_slice(b" ")?;
    push_number(text, number)?;
    text.extend_from_slice(b"\n")
}

/// Adds the line of the delete's era, and with a window of the get's.
fn push_eras(text: &mut Vec<u8>, finding: &Finding) -> Result<(), AllocError>
    ensures { let f = finding_of finding.now in OnOk result (text.new.items ≡ text.old.items ++ line (codes "era") (eras_text f.window f.place.spot)) }
{
    let window = finding.window;
    if window == 0 {
        return push_number_line(text, b"era", finding.place.era);
    }
    text.extend_from_slice(b"era ")?;
    push_number(text, finding.place.era)?;
    text.extend_from_slice(b" ")?;
    push_number(text, finding.place.get_era)?;
    text.extend_from_slice(b"\n")?;
    Ok(())
}

fn push_class(text: &mut Vec<u8>, class: &[u8]) -> Result<(), AllocError>
    ensures { OnOk result (text.new.items ≡ text.old.items ++ line (codes "class") (codes "=" ++ escaped class.now)) }
{
    text.extend_from_slice(b"class =")?;
    push_escaped(text, class)?;
    text.extend_from_slice(b"\n")
}

fn push_key(text: &mut Vec<u8>, key: &[u8]) -> Result<(), AllocError>
    ensures { OnOk result (text.new.items ≡ text.old.items ++ line (codes "key") (escaped key.now)) }
{
    text.extend_from_slice(b"key ")?;
    push_escaped(text, key)?;
    text.extend_from_slice(b"\n")
}

// ---- indexes

/// Adds a byte of a salt: as in a word, but `/` and `=` escaped too.
#[tactic(auto, using(crate::proofs::EscapedByte::escaped_one))]
fn push_salt_byte(text: &mut Vec<u8>, byte: u8) -> Result<(), AllocError>
    ensures { OnOk result (text.new.items ≡ text.old.items ++ salt_byte byte) }
{
    match byte {
        b'/' => text.extend_from_slice(b"%2F"),
        b'=' => text.extend_from_slice(b"%3D"),
        _ => push_escaped(text, &[byte]),
    }
}

fn push_salt(text: &mut Vec<u8>, salt: &[u8]) -> Result<(), AllocError>
    ensures { OnOk result (text.new.items ≡ text.old.items ++ flat_map salt_byte salt.now) }
{
    for byte in salt {
        push_salt_byte(text, *byte)?;
    }
    Ok(())
}

fn func_name(func: HashFunc) -> &'static [u8]
    ensures { result.now ≡ func_name func }
{
    match func {
        HashFunc::Ch3 => b"Ch3",
        HashFunc::Crc32 => b"Crc32",
    }
}

fn push_index_text(text: &mut Vec<u8>, symbol: &Symbol, index: usize) -> Result<(), AllocError>
    ensures { OnOk result (text.new.items ≡ text.old.items ++ index_text symbol.now index) }
{
    text.extend_from_slice(func_name(symbol.func()))?;
    text.extend_from_slice(b"/")?;
    push_salt(text, symbol.salt())?;
    text.extend_from_slice(b"/")?;
    push_number(text, symbol.n())?;
    text.extend_from_slice(b"=")?;
    push_number(text, index)
}

/// Adds the line of a symbol that is over more than one server.
fn push_index(text: &mut Vec<u8>, symbol: &Symbol, index: usize) -> Result<(), AllocError>
    ensures { OnOk result (text.new.items ≡ text.old.items ++ index_line symbol.now index) }
{
    if symbol.n() <= 1 {
        return Ok(());
    }
    text.extend_from_slice(b"index ")?;
    push_index_text(text, symbol, index)?;
    text.extend_from_slice(b"\n")
}

/// Adds those of all symbols.
fn push_indexes(text: &mut Vec<u8>, choice: &Choice, symbols: &[Symbol]) -> Result<(), AllocError>
    ensures { OnOk result (text.new.items ≡ text.old.items ++ index_lines choice.now 0 symbols.now) }
{
    for (number, symbol) in symbols.iter().enumerate() {
        push_index(text, symbol, choice.index(number))?;
    }
    Ok(())
}

// ---- answers

fn read_word(outcome: Outcome) -> &'static [u8]
    ensures { result.now ≡ read_word outcome }
{
    match outcome {
        Outcome::Good => b"hit",
        Outcome::Soft => b"miss",
        Outcome::Error => b"error",
    }
}

fn done_word(outcome: Outcome) -> &'static [u8]
    ensures { result.now ≡ done_word outcome }
{
    match outcome {
        Outcome::Good => b"deleted",
        Outcome::Soft => b"absent",
        Outcome::Error => b"error",
    }
}

fn number_word(outcome: Outcome) -> &'static [u8]
    ensures { result.now ≡ number_word outcome }
{
    match outcome {
        Outcome::Good => b"number",
        Outcome::Soft => b"absent",
        Outcome::Error => b"error",
    }
}

fn outcome_word(op: Op, outcome: Outcome) -> &'static [u8]
    ensures { result.now ≡ outcome_word op outcome }
{
    if op.is_reading() {
        read_word(outcome)
    } else if op.is_adjusting() {
        number_word(outcome)
    } else {
        done_word(outcome)
    }
}

fn push_answer(text: &mut Vec<u8>, op: Op, leg: &LegOutcome) -> Result<(), AllocError>
    ensures { OnOk result (text.new.items ≡ text.old.items ++ answer_text op (leg.now.position, leg.now.outcome)) }
{
    leg.position.push_text(text)?;
    text.extend_from_slice(b"=")?;
    text.extend_from_slice(outcome_word(op, leg.outcome))
}

/// Adds the answers with single spaces between them.
fn push_answers(text: &mut Vec<u8>, op: Op, legs: &[LegOutcome]) -> Result<(), AllocError>
    ensures { OnOk result (text.new.items ≡ text.old.items ++ answers_text op (outcomes_of legs.now)) }
{
    let Some((first, others)) = legs.split_first() else {
        return text.extend_from_slice(b"-");
    };
    push_answer(text, op, first)?;
    for leg in others {
        text.extend_from_slice(b" ")?;
        push_answer(text, op, leg)?;
    }
    Ok(())
}

fn push_answers_line(text: &mut Vec<u8>, op: Op, legs: &[LegOutcome]) -> Result<(), AllocError>
    ensures { OnOk result (text.new.items ≡ text.old.items ++ line (op_name op) (answers_text op (outcomes_of legs.now))) }
{
    text.extend_from_slice(op.name().as_bytes())?;
    text.extend_from_slice(b" ")?;
    push_answers(text, op, legs)?;
    text.extend_from_slice(b"\n")
}
