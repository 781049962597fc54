//! The indexes at which no acknowledged leg has a server.

ghost use Rattle.std.specs.BTreeSet.{contains};
ghost use Rattle.std.specs.Prelude.{◌≡◌, ◌||◌, [], Some, IfOk, OnOk, if◌then◌else◌, map, nat_eq};
ghost use Rattle.mcv_judge.specs.PairsInMemory.{numbers};
ghost use Rattle.mcv_judge.specs.Reason.{has_server};
ghost use Rattle.mcv_make.specs.FreeIndexes.{Slot as SlotValue, free_indexes, is_taken, least_free, slot_cmp};

use mcv_base::ServerId;
use mcv_pools::{Choice, Symbol};
use mcv_rules::PlannedLeg;
use std::alloc::{AllocError, Global};
use std::collections::BTreeSet;

/// An index of a symbol, by the symbol's number.
type Slot = (usize, usize);

/// Adds the indexes of the symbol at which the servers have the server.
fn insert_slots(
    taken: &mut BTreeSet<Slot>,
    symbol: usize,
    servers: &[ServerId],
    server: ServerId,
) -> Result<(), AllocError>
    ensures { OnOk result ((q : SlotValue) → contains slot_cmp taken.new q ≡ (contains slot_cmp taken.old q || has_server q.0 (Some server.0) q.1 (record { position = []; symbol = symbol; servers = numbers servers.now }))) }
{
    for (index, own) in servers.iter().enumerate() {
        if own.0 == server.0 {
            taken.insert((symbol, index))?;
        }
    }
    Ok(())
}

/// The indexes at which one of the legs has the server.
fn taken_slots(
    alloc: Global,
    legs: &[&PlannedLeg],
    server: ServerId,
) -> Result<BTreeSet<Slot>, AllocError>
    ensures { IfOk result (λ t. (q : SlotValue) → contains slot_cmp t q ≡ is_taken (map (λ l. l.now) legs.now) server.0 q.0 q.1) }
{
    let mut taken = BTreeSet::new(alloc);
    for leg in legs {
        insert_slots(&mut taken, leg.symbol, &leg.servers, server)?;
    }
    Ok(taken)
}

/// The least of a symbol's n indexes that isn't taken, and 0 where all are.
fn least_free(taken: &BTreeSet<Slot>, symbol: usize, n: usize) -> usize
    ensures { result ≡ least_free (λ j. contains slot_cmp taken.now (symbol, j)) 0 n }
{
    for index in 0..n {
        if !taken.contains(&(symbol, index)) {
            return index;
        }
    }
    0
}

/// The index of a symbol: `at` for the symbol `own`, else the least free one.
fn index_for(taken: &BTreeSet<Slot>, symbol: usize, n: usize, own: usize, at: usize) -> usize
    ensures { result ≡ (if nat_eq symbol own then at else least_free (λ j. contains slot_cmp taken.now (symbol, j)) 0 n) }
{
    if symbol == own {
        at
    } else {
        least_free(taken, symbol, n)
    }
}

/// Of each symbol the least index at which no leg of it has the server; of the symbol `own` the index `at`.
pub fn free_choice(
    alloc: Global,
    symbols: &[Symbol],
    legs: &[&PlannedLeg],
    server: ServerId,
    own: usize,
    at: usize,
) -> Result<Choice, AllocError>
    ensures { IfOk result (λ c. c ≡ free_indexes (map (λ l. l.now) legs.now) server.0 own at 0 symbols.now) }
{
    let taken = taken_slots(alloc, legs, server)?;
    let mut indexes = Vec::with_capacity(alloc, symbols.len())?;
    for (number, symbol) in symbols.iter().enumerate() {
        indexes.push(index_for(&taken, number, symbol.n(), own, at))?;
    }
    Ok(Choice::new(indexes))
}
