//! A finding with the configuration that it is of.

ghost use Rattle.std.specs.Prelude.{◌≡◌, IfOk, option_map, slice_get, slice_index};
ghost use Rattle.mcv_route.specs.View.{pool_view};

use mcv_base::{Position, ServerId};
use mcv_places::{handle_at, server_at};
use mcv_pools::Choice;
use mcv_route::{Leaf, Routes};
use mcv_witness::Finding;
use serde_json::Value;
use std::alloc::{AllocError, Global};

/// A finding with the configuration that it is of: its JSON value, and the routes that it names.
#[derive(Clone, Copy)]
pub struct Scene<'a> {
    pub document: &'a Value,
    pub routes: &'a Routes,
    pub finding: &'a Finding,
}

impl<'a> Scene<'a> {
    ghost use Rattle.mcv_explain.specs.Scene.{handle_pointer, leg_index, leg_server, lost_server, pool_at, scene_of, server_pointer, server_text};

    /// The leaf of the finding's route at a position.
    fn leaf_at(&self, position: &Position) -> Option<&'a Leaf>
        ensures { option_map (λ l. pool_view l.now) result ≡ pool_at (scene_of self.now) position.now }
    {
        self.routes.leaf_at(self.finding.place.route, position)
    }

    /// The index that the finding gives the leaf at a position.
    pub fn leg_index(&self, position: &Position) -> usize
        ensures { result ≡ leg_index (scene_of self.now) position.now }
    {
        match self.leaf_at(position) {
            Some(leaf) => self.finding.choice.index(leaf.symbol),
            None => 0,
        }
    }

    /// The text of a server; empty where it isn't in the table.
    fn server_text(&self, server: ServerId) -> &'a [u8]
        ensures { result.now ≡ server_text (scene_of self.now) server.0 }
    {
        match self.routes.servers().text(server) {
            Some(text) => text.as_bytes(),
            None => b"",
        }
    }

    /// The text of the server to which the leg at a position goes.
    pub fn leg_server(&self, position: &Position) -> &'a [u8]
        ensures { result.now ≡ leg_server (scene_of self.now) position.now }
    {
        let Some(leaf) = self.leaf_at(position) else {
            return b"";
        };
        match chosen(leaf, &self.finding.choice) {
            Some(server) => self.server_text(server),
            None => b"",
        }
    }

    /// The text of the server that is lost.
    pub fn lost_server(&self) -> &'a [u8]
        ensures { result.now ≡ lost_server (scene_of self.now) }
    {
        self.server_text(self.finding.server)
    }

    /// The pointer of the handle at a position; empty where there is none.
    pub fn handle_pointer(&self, alloc: Global, position: &Position) -> Result<Vec<u8>, AllocError>
        ensures { IfOk result (λ pointer. pointer.items ≡ handle_pointer (scene_of self.now) position.now) }
    {
        match handle_at(alloc, self.document, self.finding.place.route, position)? {
            Some(pointer) => Ok(pointer),
            None => Ok(Vec::new(alloc)),
        }
    }

    /// The pointer of the server to which the leg at a position goes; empty where there is none.
    pub fn server_pointer(&self, alloc: Global, position: &Position) -> Result<Vec<u8>, AllocError>
        ensures { IfOk result (λ pointer. pointer.items ≡ server_pointer (scene_of self.now) position.now) }
    {
        let index = self.leg_index(position);
        match server_at(
            alloc,
            self.document,
            self.finding.place.route,
            position,
            index,
        )? {
            Some(pointer) => Ok(pointer),
            None => Ok(Vec::new(alloc)),
        }
    }
}

/// The server of a leaf that the choice picks.
fn chosen(leaf: &Leaf, choice: &Choice) -> Option<ServerId>
    ensures { option_map (λ s. s.0) result ≡ slice_get (pool_view leaf.now).servers (slice_index choice.now (pool_view leaf.now).symbol) }
{
    leaf.servers.get(choice.index(leaf.symbol)).copied()
}
