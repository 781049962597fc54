//! The blocks of a configuration: what a certificate is judged against, and what one is made from.
//!
//! A block is what a route has for the rests of a class, with a delete in one era and a read in another that is near: the
//! legs from which a get, gets, incr or decr can be answered, those that every delete that has a reply has sent, and whether
//! a delete can be acknowledged (specs/Blocks.antt). `route_classes` and `nears_of` name the places at which there is one,
//! and `Sets` gives what a block has of an era, so blocks can be made and dropped one at a time; `slide` goes with the sets
//! from era to era. What certificates have to do with coverage are laws (specs/Coverage.antt).
#![tactic(auto)]

mod classes;
mod laws;
mod legs;
mod nears;
mod sets;
mod sliding;

pub use classes::{RouteClass, route_classes};
pub use laws::{covered_has_reasons, justified_is_covered, one_list_of_blocks};
pub use nears::nears_of;
pub use sets::Sets;
pub use sliding::{DeleteEra, SlidingSets, slide};
