//! All routes of a configuration, with the tables of servers and symbols that their leaves name.

ghost use Rattle.std.specs.Prelude.{◌≡◌, ◌<◌, [], ◌∷◌, Some, None, IfOk, length, map, option_map, position, slice_get, true};
ghost use Rattle.std.specs.List.{All, flat_map};
ghost use Rattle.mcv_base.specs.Server.{is_server};
ghost use Rattle.mcv_config.specs.ConfigValue.{IsSoundRoute, named_of};
ghost use Rattle.mcv_route.specs.Aliases.{first_alias, AreSelected};
ghost use Rattle.mcv_route.specs.NamedRoutes.{routes_named};
ghost use Rattle.mcv_route.specs.Eras.{breaks, breaks_of, era_at, since_at, IsBreakTable};
ghost use Rattle.mcv_route.specs.Limits.{AreWithinLimits};
ghost use Rattle.mcv_route.specs.Places.{is_alias, leaf_in, route_of_prefix};
ghost use Rattle.mcv_route.specs.Routes.{IsSoundRoutes, within};
ghost use Rattle.mcv_route.specs.RoutesView.{entry_view};
ghost use Rattle.mcv_route.specs.View.{pool_view, view};
ghost use Rattle.mcv_route.specs.Walk.{IsBuilt, list_view};

use crate::build::{build_route, shared_lists};
use crate::children::child_of;
use crate::moments::{passed_breaks, push_breaks, table_of};
use crate::tree::{Leaf, Route};
use mcv_base::{Moment, Position, Prefix, ServerId};
use mcv_config::{Config, ConfigParts, Entry};
use mcv_pools::{Servers, Symbols};
use std::alloc::{AllocError, Global};
use std::marker::Model;
use std::sync::Arc;

/// A route with the routing prefixes that select it.
#[derive(Drop)]
struct AliasedRoute {
    aliases: Vec<Prefix>,
    route: Route,
}

/// The routes of a configuration, by their numbers from 0. Clauses see a `RoutesValue`.
#[derive(Drop)]
pub struct Routes {
    servers: Servers,
    symbols: Symbols,
    entries: Vec<AliasedRoute>,
    /// The breaks of all entries, in rising order.
    break_table: Vec<Moment>,
    window: u64,
}

impl Model for Routes {
    ghost use Rattle.mcv_route.specs.Routes.{RoutesValue};
    ghost use Rattle.mcv_route.specs.Codes.{routes_code};

    ghost Value = { RoutesValue };

    ghost coded = { routes_code };

    ghost use Rattle.mcv_route.specs.RoutesView.{routes_view, AreSound};

    ghost view = { routes_view };

    ghost invariant = { AreSound };
}

impl Routes {
    /// The routes that a configuration names, its symbols numbered in the order in which the walk of the
    /// routes meets them. An error where memory runs out.
    pub fn build(alloc: Global, config: Config) -> Result<Routes, AllocError>
        ensures { IfOk result (λ r. r ≡ routes_named config) }
    {
        let ConfigParts {
            servers,
            pools,
            entries,
        } = config.into_parts();
        let lists = shared_lists(alloc, pools)?;
        let mut symbols = Symbols::new(alloc);
        let entries = build_entries(alloc, entries, lists.as_slice(), &mut symbols)?;
        let moments = all_breaks(alloc, entries.as_slice())?;
        let break_table = table_of(alloc, moments)?;
        Ok(Routes {
            servers,
            symbols,
            entries,
            break_table,
            window: 0,
        })
    }

    /// The same routes, looked at within this window.
    pub fn within(self, window: u64) -> Routes
        ensures { result ≡ within window self }
    {
        let Routes {
            servers,
            symbols,
            entries,
            break_table,
            window: _,
        } = self;
        Routes {
            servers,
            symbols,
            entries,
            break_table,
            window,
        }
    }

    /// How far apart, in seconds, a delete and a get are looked at; 0: in one era alone.
    pub fn window(&self) -> u64
        ensures { result ≡ self.now.window }
    {
        self.window
    }

    /// The table of servers: each text is a host, a colon and a port.
    pub fn servers(&self) -> &Servers
        ensures value { result.now ≡ self.now.servers }
        ensures texts { All (λ text. is_server text ≡ true) self.now.servers }
        ensures sound { IsSoundRoutes self.now }
        ensures limits { AreWithinLimits self.now }
    {
        &self.servers
    }

    /// The table of symbols: each is over one server or more.
    pub fn symbols(&self) -> &Symbols
        ensures value { result.now ≡ self.now.symbols }
        ensures some { All (λ s. 0 < s.n) self.now.symbols }
        ensures sound { IsSoundRoutes self.now }
        ensures limits { AreWithinLimits self.now }
    {
        &self.symbols
    }

    /// The number of the first route that has the routing prefix among its aliases.
    pub fn route_of(&self, prefix: &Prefix) -> Option<usize>
        ensures { result ≡ route_of_prefix prefix.now self.now.entries }
    {
        first_of_prefix(self.entries.as_slice(), prefix)
    }

    /// The first routing prefix that selects the route of this number; None where there is no such route.
    pub fn first_alias(&self, number: usize) -> Option<&Prefix>
        ensures value { option_map (λ p. p.now) result ≡ first_alias self.now number }
        ensures selected { AreSelected self.now.entries }
    {
        self.entries.get(number)?.aliases.first()
    }

    /// The route of a number.
    pub fn route(&self, number: usize) -> Option<&Route>
        ensures { option_map (λ r. view r.now) result ≡ option_map (λ e. e.tree) (slice_get self.now.entries number) }
    {
        let entry = self.entries.get(number)?;
        Some(&entry.route)
    }

    /// The leaf at a position of a route, where a PoolRoute is there.
    pub fn leaf_at(&self, route: usize, position: &Position) -> Option<&Leaf>
        ensures { option_map (λ l. pool_view l.now) result ≡ leaf_in self.now route position.now }
    {
        let mut here = self.route(route)?;
        for step in position.steps() {
            here = child_of(here, *step)?;
        }
        match here {
            Route::Pool { leaf, shadows: _ } => Some(leaf),
            _ => None,
        }
    }

    /// The moments at which what some handle sends changes, in rising order, each once.
    pub fn breaks(&self) -> &[Moment]
        ensures { IsBreakTable (breaks_of self.now) (map (λ m. m.0) result.now) }
    {
        self.break_table.as_slice()
    }

    /// The last break of the routes at the moment or before it, which opened the moment's era; None in the
    /// first era.
    pub fn since(&self, moment: Moment) -> Option<Moment>
        ensures { option_map (λ m. m.0) result ≡ since_at (breaks_of self.now) moment.0 }
    {
        let table = self.break_table.as_slice();
        let number = passed_breaks(table, moment);
        if number == 0 {
            return None;
        }
        Some(self.break_table[number - 1])
    }

    /// The number of the moment's era: how many breaks are at the moment or before it.
    pub fn era_of(&self, moment: Moment) -> usize
        ensures { result ≡ era_at (breaks_of self.now) moment.0 }
    {
        passed_breaks(self.break_table.as_slice(), moment)
    }
}

/// The breaks of all entries, in their order.
fn all_breaks(alloc: Global, entries: &[AliasedRoute]) -> Result<Vec<u64>, AllocError>
    ensures { IfOk result (λ moments. moments.items ≡ flat_map (λ e. breaks e.tree) (map entry_view entries.now)) }
{
    let mut moments = Vec::new(alloc);
    for entry in entries {
        push_breaks(&mut moments, &entry.route)?;
    }
    Ok(moments)
}

/// The routes that the entries name, each with the entry's aliases.
fn build_entries(
    alloc: Global,
    entries: Vec<Entry>,
    lists: &[Arc<Vec<ServerId>>],
    symbols: &mut Symbols,
) -> Result<Vec<AliasedRoute>, AllocError>
    requires filled { All (λ servers. 0 < length servers) (map list_view lists.now) }
    requires sound { All (λ e. IsSoundRoute (map list_view lists.now) (named_of e.route)) entries.items }
    ensures aliases { IfOk result (λ rs. map (λ r. r.aliases.items) rs.items ≡ map (λ e. e.aliases.items) entries.items) }
    ensures routes { IfOk result (λ rs. IsBuilt (map list_view lists.now) symbols.old (map (λ e. named_of e.route) entries.items)
        symbols.new (map (λ r. view r.route) rs.items)) }
{
    let mut built = Vec::with_capacity(alloc, entries.len())?;
    for entry in entries {
        built.push(build_entry(alloc, entry, lists, symbols)?)?;
    }
    Ok(built)
}

fn build_entry(
    alloc: Global,
    entry: Entry,
    lists: &[Arc<Vec<ServerId>>],
    symbols: &mut Symbols,
) -> Result<AliasedRoute, AllocError>
    requires filled { All (λ servers. 0 < length servers) (map list_view lists.now) }
    requires sound { IsSoundRoute (map list_view lists.now) (named_of entry.route) }
    ensures aliases { IfOk result (λ r. r.aliases.items ≡ entry.aliases.items) }
    ensures route { IfOk result (λ r. IsBuilt (map list_view lists.now) symbols.old (named_of entry.route ∷ []) symbols.new (view r.route ∷ [])) }
{
    let route = build_route(alloc, &entry.route, lists, symbols)?;
    Ok(AliasedRoute {
        aliases: entry.aliases,
        route,
    })
}

fn first_of_prefix(entries: &[AliasedRoute], prefix: &Prefix) -> Option<usize>
    ensures { result ≡ position (λ e. is_alias prefix.now (entry_view e)) entries.now }
{
    entries.iter().position(|entry| has_alias(entry, prefix))
}

fn has_alias(entry: &AliasedRoute, prefix: &Prefix) -> bool
    ensures { result ≡ is_alias prefix.now (entry_view entry.now) }
{
    entry
        .aliases
        .iter()
        .any(|alias| alias.as_bytes() == prefix.as_bytes())
}
