//! Where a leaf is. What it means: `place_of` of specs/Place.antt.

ghost use Rattle.std.specs.Prelude.{◌≡◌, IfOk};
ghost use Rattle.mcv_cert.specs.Place.{place_cmp, place_of};

use mcv_base::Position;
use std::alloc::{AllocError, Global};
use std::cmp::Ordering;

/// Where a leaf is: of which route, for the rests of which class, with a delete in which era and a get in which, and at
/// which position.
#[derive(Drop)]
pub struct Place {
    /// The number of the route, from 0.
    pub route: usize,
    /// The bytes of the class word.
    pub class: Vec<u8>,
    /// The number of the delete's era, from 0.
    pub era: usize,
    /// The number of the get's era, from 0.
    pub get_era: usize,
    /// The position of the leaf in the tree of the route.
    pub leaf: Position,
}

impl Place {
    /// How the two come in a certificate: by route, class, eras and leaf.
    #[tactic(auto, unfolding(crate::specs::Place::place_cmp))]
    pub fn compare(&self, other: &Place) -> Ordering
        ensures { result ≡ place_cmp (place_of self.now) (place_of other.now) }
    {
        self.route
            .cmp(&other.route)
            .then(self.class.as_slice().cmp(other.class.as_slice()))
            .then(self.era.cmp(&other.era))
            .then(self.get_era.cmp(&other.get_era))
            .then(self.leaf.steps().cmp(other.leaf.steps()))
    }

    /// A second value of the same place.
    pub fn copy(&self, alloc: Global) -> Result<Place, AllocError>
        ensures { IfOk result (λ p. place_of p ≡ place_of self.now) }
    {
        Ok(Place {
            route: self.route,
            class: Vec::from_slice(alloc, self.class.as_slice())?,
            era: self.era,
            get_era: self.get_era,
            leaf: self.leaf.copy(alloc)?,
        })
    }
}
