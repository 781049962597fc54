//! A pair of a certificate: a leaf that can be read, and why a delete reaches its server.

ghost use Rattle.std.specs.Prelude.{◌≡◌, ◌<◌, ◌^◌, All};
ghost use Rattle.mcv_cert.specs.Fits.{FitsPair, FitsPair-prop, FitsPosition, FitsReason, FitsSpot};
ghost use Rattle.mcv_cert.specs.Place.{place_of};
ghost use Rattle.mcv_cert.specs.Reason.{index_of, names_legs, reason_of};

use crate::place::Place;
use mcv_base::Position;
use std::cmp::Ordering;

/// Why each delete that is acknowledged was sent to a leaf's server. Positions are those of delete legs,
/// indexes those of the leaf's symbol, from 0.
#[derive(Drop)]
pub enum Reason {
    /// No delete can be acknowledged.
    Never,
    /// The leg has the leaf's symbol and its servers.
    Twin(Position),
    /// The leg has the leaf's symbol, and at the index the leaf's server.
    Same(usize, Position),
    /// The legs have one symbol, a leg for each of its indexes, and each has at its own index the server that
    /// the leaf has at the index named.
    All(usize, Vec<Position>),
}

impl Reason {
    /// The index of the leaf that the reason speaks of; 0 for `Never` and `Twin`, which speak of all.
    pub fn index(&self) -> usize
        ensures { result ≡ index_of (reason_of self.now) }
    {
        match self {
            Reason::Never | Reason::Twin(_) => 0,
            Reason::Same(index, _) | Reason::All(index, _) => *index,
        }
    }

    /// Whether a leg is named where one has to be: `All` names one or more.
    pub(crate) fn names_legs(&self) -> bool
        ensures { result ≡ names_legs (reason_of self.now) }
    {
        match self {
            Reason::All(_, legs) => !legs.is_empty(),
            _ => true,
        }
    }
}

/// A line of a certificate.
#[derive(Drop)]
pub struct Pair {
    pub place: Place,
    pub reason: Reason,
    // Its numbers have 64 bits, and the class bytes: what is written of it can be read.
    ghost fits: { FitsPair (place_of place) (reason_of reason) } by { FitsPair-prop (place_of place) (reason_of reason) },
}

impl Pair {
    ghost use Rattle.mcv_cert.specs.Pair.{pair_cmp, pair_of};

    /// The pair of a leaf's place and a reason for it.
    pub fn new(place: Place, reason: Reason) -> Self
        ensures place { result.place ≡ place }
        ensures reason { result.reason ≡ reason }
    {
        place_fits(&place);
        reason_fits(&reason);
        Pair { place, reason }
    }

    /// How the two come in a certificate: by route, class, eras, leaf and index.
    pub fn compare(&self, other: &Pair) -> Ordering
        ensures { result ≡ pair_cmp (pair_of self.now) (pair_of other.now) }
    {
        self.place
            .compare(&other.place)
            .then(self.reason.index().cmp(&other.reason.index()))
    }
}

// What the types of the numbers of a place and a reason say. A number in a position is seen where its steps are read.

fn number_fits(number: usize)
    ensures { number < 2 ^ 64 }
{
    let _ = number;
}

fn bytes_fit(bytes: &[u8])
    ensures { All (λ b. b < 256) bytes.now }
{
    let _ = bytes;
}

fn steps_fit(steps: &[usize])
    ensures { FitsPosition steps.now }
{
    let _ = steps;
}

fn place_fits(place: &Place)
    ensures spot { FitsSpot (place_of place.now).spot }
    ensures leaf { FitsPosition place.now.leaf }
{
    number_fits(place.route);
    bytes_fit(&place.class);
    number_fits(place.era);
    number_fits(place.get_era);
    steps_fit(place.leaf.steps());
}

fn positions_fit(positions: &[Position])
    ensures { All FitsPosition positions.now }
{
    for position in positions {
        steps_fit(position.steps());
    }
}

fn reason_fits(reason: &Reason)
    ensures { FitsReason (reason_of reason.now) }
{
    match reason {
        Reason::Never => {}
        Reason::Twin(leg) => steps_fit(leg.steps()),
        Reason::Same(index, leg) => {
            number_fits(*index);
            steps_fit(leg.steps());
        }
        Reason::All(index, legs) => {
            number_fits(*index);
            positions_fit(legs);
        }
    }
}
