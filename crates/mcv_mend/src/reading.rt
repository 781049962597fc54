//! The routes that a text names, with their aliases.

ghost use Rattle.std.specs.Prelude.{◌≡◌, IfErr, IfOk, IsTrue, map};
ghost use Rattle.mcv_config.specs.Config.{Faulty};
ghost use Rattle.mcv_input.specs.Fault.{AreNamedBy};
ghost use Rattle.mcv_mend.specs.Aliases.{aliases_value, bytes_of, route_aliases};
ghost use Rattle.mcv_names.specs.Fault.{Refuses};

use mcv_base::Prefix;
use mcv_config::{Config, ReadFault, read_config};
use mcv_route::Routes;
use std::alloc::{AllocError, Global};

/// Routes, and the routing prefixes that select each of them.
#[derive(Drop)]
pub struct Reading {
    pub routes: Routes,
    pub aliases: Vec<Vec<Vec<u8>>>,
}

/// The routes that a text names, or a fault in it.
pub fn read_named(alloc: Global, text: &[u8]) -> Result<Reading, ReadFault>
    ensures named { IfOk result (λ reading. AreNamedBy text.now reading.routes) }
    ensures aliases { IfOk result (λ reading. aliases_value reading.aliases.items ≡ route_aliases reading.routes) }
    ensures fault { IfErr result (λ fault. Refuses fault (Faulty text.now)) }
{
    let config = read_config(alloc, text)?;
    let aliases = aliases_of(alloc, &config)?;
    let routes = Routes::build(alloc, config)?;
    Ok(Reading { routes, aliases })
}

/// The aliases of each route of a configuration.
fn aliases_of(alloc: Global, config: &Config) -> Result<Vec<Vec<Vec<u8>>>, AllocError>
    ensures { IfOk result (λ all. aliases_value all.items ≡ map (λ e. e.aliases) config.now.entries) }
{
    let mut all = Vec::new(alloc);
    for entry in &config.parts().entries {
        let own = copied(alloc, entry.aliases.as_slice())?;
        all.push(own)?;
    }
    Ok(all)
}

/// The bytes of prefixes, in memory of their own.
fn copied(alloc: Global, prefixes: &[Prefix]) -> Result<Vec<Vec<u8>>, AllocError>
    ensures { IfOk result (λ all. map bytes_of all.items ≡ prefixes.now) }
{
    let mut all = Vec::new(alloc);
    for prefix in prefixes {
        let own = Vec::from_slice(alloc, prefix.as_bytes())?;
        all.push(own)?;
    }
    Ok(all)
}

/// Whether the routes are selected by the same prefixes.
pub fn are_same_aliases(one: &Reading, other: &Reading) -> bool
    ensures { IsTrue result → aliases_value one.now.aliases.items ≡ aliases_value other.now.aliases.items }
{
    one.aliases == other.aliases
}
