//! What a certificate compared, in numbers.

ghost use Rattle.std.specs.Prelude.{◌≡◌, ◌++◌, ℕ, List, None, OnOk, map, option_map};
ghost use Rattle.mcv_cert.specs.Pair.{pair_of};
ghost use Rattle.mcv_cert.specs.Place.{place_of};
ghost use Rattle.mcv_explain.specs.Compared.{class_count, compared, compared_words, counted_words, is_as_before, is_same_class, is_same_leaf, leaf_count};
ghost use Rattle.mcv_route.specs.Eras.{IsBreakTable, breaks_of};

use crate::pieces::{number_text, push_pieces};
use mcv_base::Moment;
use mcv_cert::{Certificate, Pair, Place};
use mcv_route::Routes;
use std::alloc::{AllocError, Global};

/// Adds the sentence that says what a certificate compared. On an error part of it may be there.
pub fn push_compared(
    alloc: Global,
    text: &mut Vec<u8>,
    routes: &Routes,
    certificate: &Certificate,
) -> Result<(), AllocError>
    ensures { OnOk result ((table : List ℕ) × IsBreakTable (breaks_of routes.now) table
        × (text.new.items ≡ text.old.items ++ compared certificate.now table)) }
{
    let table = routes.breaks();
    push_counts(alloc, text, certificate, table)
}

/// The same with the table of breaks.
fn push_counts(
    alloc: Global,
    text: &mut Vec<u8>,
    certificate: &Certificate,
    table: &[Moment],
) -> Result<(), AllocError>
    ensures { OnOk result (text.new.items ≡ text.old.items ++ compared certificate.now (map (λ m. m.0) table.now)) }
{
    let pairs = certificate.pairs();
    let leaves = number_text(alloc, leaf_count(pairs))?;
    let classes = number_text(alloc, class_count(pairs))?;
    let eras = number_text(alloc, table.len() + 1)?;
    let counted = counted_words(certificate.window());
    push_compared_words(
        text,
        leaves.as_slice(),
        classes.as_slice(),
        eras.as_slice(),
        counted,
    )
}

#[tactic(auto, unfolding(crate::specs::Compared::counted_words))]
fn counted_words(window: u64) -> &'static [u8]
    ensures { result.now ≡ counted_words window }
{
    if window == 0 {
        b"; a leaf is counted once for each class and era.\n"
    } else {
        b"; a leaf is counted once for each class, era of the delete and era of the get.\n"
    }
}

#[tactic(auto, unfolding(crate::specs::Compared::compared_words))]
fn push_compared_words(
    text: &mut Vec<u8>,
    leaves: &[u8],
    classes: &[u8],
    eras: &[u8],
    counted: &[u8],
) -> Result<(), AllocError>
    ensures { OnOk result (text.new.items ≡ text.old.items ++ compared_words leaves.now classes.now eras.now counted.now) }
{
    push_pieces(
        text,
        &[
            b"\nCompared: readable leaves ",
            leaves,
            b", classes ",
            classes,
            b", eras ",
            eras,
            counted,
        ],
    )
}

/// Whether the two places are of one route and class.
fn is_same_class(place: &Place, other: &Place) -> bool
    ensures { result ≡ is_same_class (place_of place.now).spot (place_of other.now).spot }
{
    place.route == other.route && place.class.as_slice() == other.class.as_slice()
}

/// Whether the two are one place.
fn is_same_leaf(place: &Place, other: &Place) -> bool
    ensures { result ≡ is_same_leaf (place_of place.now) (place_of other.now) }
{
    is_same_class(place, other)
        && place.era == other.era
        && place.get_era == other.get_era
        && place.leaf.is(&other.leaf)
}

/// How many leaves there are, each counted once for each class and era; the pairs are sorted.
fn leaf_count(pairs: &[Pair]) -> usize
    ensures { result ≡ leaf_count (map pair_of pairs.now) }
{
    let mut count = 0;
    let mut before: Option<&Place> = None;
    for pair in pairs {
        let is_new = match before {
            Some(place) => !is_same_leaf(place, &pair.place),
            None => true,
        };
        if is_new {
            count += 1;
        }
        before = Some(&pair.place);
    }
    count
}

/// How many classes there are, those of each route; the pairs are sorted.
fn class_count(pairs: &[Pair]) -> usize
    ensures { result ≡ class_count (map pair_of pairs.now) }
{
    let mut count = 0;
    let mut before: Option<&Place> = None;
    for pair in pairs {
        let is_new = match before {
            Some(place) => !is_same_class(place, &pair.place),
            None => true,
        };
        if is_new {
            count += 1;
        }
        before = Some(&pair.place);
    }
    count
}
