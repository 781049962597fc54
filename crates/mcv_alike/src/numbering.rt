//! The numbers that servers and symbols have in other routes.

ghost use Rattle.std.specs.Prelude.{◌≡◌, ◌<◌, IfOk, IfSome, IsTrue, length, map};
ghost use Rattle.mcv_judge.specs.PairsInMemory.{numbers};
ghost use Rattle.mcv_route.specs.Routes.{RoutesValue};
ghost use Rattle.mcv_alike.specs.Numbers.{AreServerNumbers, AreSymbolNumbers, IsNumbering, IsOver, IsSymbolNumber};
ghost use Rattle.mcv_alike.specs.Alike.{server_text};
ghost use Rattle.mcv_alike.specs.Plans.{AreOnePool, AreOneServers, AreOneSymbol};

use mcv_base::ServerId;
use mcv_route::Routes;
use std::alloc::{AllocError, Global};

/// For each server and each symbol of routes its number in other routes.
#[derive(Drop)]
pub struct Numbering {
    pub(crate) servers: Vec<u32>,
    /// With the symbol's number of servers.
    pub(crate) symbols: Vec<(usize, usize)>,
}

/// The numbers that the servers and symbols of the old routes have in the new ones; None where one of them isn't there.
pub fn numbered(alloc: Global, old: &Routes, new: &Routes) -> Result<Option<Numbering>, AllocError>
    ensures { IfOk result (λ found. IfSome found (IsNumbering old.now new.now)) }
{
    let Some(servers) = server_numbers(alloc, old, new)? else {
        return Ok(None);
    };
    let Some(symbols) = symbol_numbers(alloc, old, new)? else {
        return Ok(None);
    };
    Ok(Some(Numbering { servers, symbols }))
}

fn server_numbers(alloc: Global, old: &Routes, new: &Routes) -> Result<Option<Vec<u32>>, AllocError>
    ensures { IfOk result (λ found. IfSome found (λ table. AreServerNumbers old.now new.now table.items)) }
{
    let mut table = Vec::new(alloc);
    for number in 0..old.servers().len() {
        let Some(found) = server_number(old, new, number) else {
            return Ok(None);
        };
        table.push(found)?;
    }
    Ok(Some(table))
}

/// The number that a server of the old routes has in the new ones.
fn server_number(old: &Routes, new: &Routes, number: usize) -> Option<u32>
    ensures { IfSome result (λ found. server_text old.now number ≡ server_text new.now found) }
{
    if number > u32::MAX as usize {
        return None;
    }
    let text = old.servers().text(ServerId(number as u32))?;
    let found = new.servers().find(text)?;
    Some(found.0)
}

fn symbol_numbers(
    alloc: Global,
    old: &Routes,
    new: &Routes,
) -> Result<Option<Vec<(usize, usize)>>, AllocError>
    ensures { IfOk result (λ found. IfSome found (λ table. AreSymbolNumbers old.now new.now table.items)) }
{
    let mut table = Vec::new(alloc);
    for number in 0..old.symbols().len() {
        let Some(found) = symbol_number(old, new, number) else {
            return Ok(None);
        };
        table.push(found)?;
    }
    Ok(Some(table))
}

/// The number that a symbol of the old routes has in the new ones, and how many servers it is over.
fn symbol_number(old: &Routes, new: &Routes, number: usize) -> Option<(usize, usize)>
    ensures { IfSome result (IsSymbolNumber old.now new.now number) }
{
    let symbol = old.symbols().get(number)?;
    let found = new.symbols().find(symbol)?;
    Some((found, symbol.n()))
}

impl Numbering {
    /// Whether the new symbol is the old one.
    pub fn is_symbol(&self, old: usize, new: usize) -> bool
        ensures { (r n : RoutesValue) → IsNumbering r n self.now → IsTrue result → AreOneSymbol r n old new }
    {
        let Some(found) = self.symbols.get(old) else {
            return false;
        };
        found.0 == new
    }

    /// Whether the old symbol is over so many servers.
    fn is_over(&self, symbol: usize, count: usize) -> bool
        ensures { (r n : RoutesValue) → IsNumbering r n self.now → IsTrue result → IsOver r symbol count }
    {
        let Some(found) = self.symbols.get(symbol) else {
            return false;
        };
        found.1 == count
    }

    /// Whether the new pool, by its symbol and its servers, is the old one.
    pub fn is_pool(&self, old: usize, olds: &[ServerId], new: usize, news: &[ServerId]) -> bool
        ensures { (r n : RoutesValue) → IsNumbering r n self.now → IsTrue result → AreOnePool r n old (numbers olds.now) new (numbers news.now) }
    {
        if !self.is_symbol(old, new) {
            return false;
        }
        if !self.is_over(old, olds.len()) {
            return false;
        }
        self.are_servers(olds, news)
    }

    /// Whether the new servers are the old ones, in the same order.
    fn are_servers(&self, olds: &[ServerId], news: &[ServerId]) -> bool
        ensures { (r n : RoutesValue) → IsNumbering r n self.now → IsTrue result → AreOneServers r n (numbers olds.now) (numbers news.now) }
    {
        if olds.len() != news.len() {
            return false;
        }
        for index in 0..olds.len() {
            if !self.is_server(olds[index], news[index]) {
                return false;
            }
        }
        true
    }

    fn is_server(&self, old: ServerId, new: ServerId) -> bool
        ensures { (r n : RoutesValue) → IsNumbering r n self.now → IsTrue result → server_text r old.0 ≡ server_text n new.0 }
    {
        let Some(found) = self.servers.get(old.0 as usize) else {
            return false;
        };
        *found == new.0
    }
}
