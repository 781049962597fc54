//! Certificates.

ghost use Rattle.std.specs.Prelude.{◌≡◌, ◌==◌, ◌++◌, ◌∷◌, [], ◌&&◌, ◌<◌, ◌^◌, true, length, map, All, IfOk, OnErr, OnOk};
ghost use Rattle.mcv_cert.specs.Pair.{AreRising, CertificateValue, IsCertificate, has_eras, is_behind, names_legs, pair_of, reason_of};
ghost use Rattle.mcv_cert.specs.Place.{place_of};
ghost use Rattle.mcv_cert.specs.Text.{certificate_text};

use crate::pair::Pair;
use crate::place::Place;
use crate::write::{push_first, push_pairs};
use std::alloc::{AllocError, Global};
use std::marker::Model;

/// Pairs that rise strictly by route, class, eras, leaf and index, for a window: how far apart, in seconds, a delete and
/// a get are looked at. Clauses see a `CertificateValue`.
#[derive(Drop)]
pub struct Certificate {
    window: u64,
    pairs: Vec<Pair>,
}

impl Model for Certificate {
    ghost use Rattle.std.specs.Prelude.{map};
    ghost use Rattle.mcv_cert.specs.Pair.{CertificateValue, IsCertificate, pair_of};

    ghost Value = { CertificateValue };

    ghost view = { λ c. record { window = c.window; pairs = map pair_of c.pairs.items } };

    ghost invariant = { λ c. IsCertificate (record { window = c.window; pairs = map pair_of c.pairs.items }) };
}

impl Certificate {
    /// A certificate for this window, without pairs.
    pub fn new(alloc: Global, window: u64) -> Self
        ensures { result ≡ record { window = window; pairs = [] } }
    {
        Certificate {
            window,
            pairs: Vec::new(alloc),
        }
    }

    /// The certificate of pairs whose order is known, for this window.
    pub fn of(window: u64, pairs: Vec<Pair>) -> Self
        requires { IsCertificate (record { window = window; pairs = map pair_of pairs.items }) }
        ensures { result ≡ record { window = window; pairs = map pair_of pairs.items } }
    {
        Certificate { window, pairs }
    }

    /// The window, in seconds.
    pub fn window(&self) -> u64
        ensures value { result ≡ self.now.window }
        ensures small { self.now.window < 2 ^ 64 }
    {
        self.window
    }

    /// Whether the pair may come next: its eras are those of the window, an `All` names a leg, and it comes behind
    /// those that are there.
    pub fn takes(&self, pair: &Pair) -> bool
        ensures { result ≡ (has_eras self.now.window (place_of pair.now.place).spot && names_legs (reason_of pair.now.reason) && is_behind self.now.pairs (pair_of pair.now)) }
    {
        has_eras(self.window, &pair.place)
            && pair.reason.names_legs()
            && is_behind(&self.pairs, pair)
    }

    /// Adds a pair behind the others. An error leaves the certificate as it was.
    pub fn push(&mut self, pair: Pair) -> Result<(), AllocError>
        requires eras { has_eras self.old.window (place_of pair.place).spot ≡ true }
        requires legs { names_legs (reason_of pair.reason) ≡ true }
        requires behind { is_behind self.old.pairs (pair_of pair) ≡ true }
        ensures added { OnOk result (self.new ≡ record { window = self.old.window; pairs = self.old.pairs ++ pair_of pair ∷ [] }) }
        ensures unchanged { OnErr result (self.new ≡ self.old) }
    {
        self.pairs.push(pair)?;
        Ok(())
    }

    /// The pairs in their order.
    pub fn pairs(&self) -> &[Pair]
        ensures value { map pair_of result.now ≡ self.now.pairs }
        ensures sound { IsCertificate self.now }
    {
        self.pairs.as_slice()
    }

    /// The number of pairs.
    pub fn len(&self) -> usize
        ensures value { result ≡ length self.now.pairs }
        ensures small { length self.now.pairs < 2 ^ 63 }
    {
        self.pairs.len()
    }

    /// The text, which has no limit of its own; `read_certificate` reads it where it is within its limit.
    pub fn text(&self, alloc: Global) -> Result<Vec<u8>, AllocError>
        ensures { IfOk result (λ text. text.items ≡ certificate_text self.now.window self.now.pairs) }
    {
        let mut text = Vec::new(alloc);
        push_first(&mut text, self.window)?;
        text.extend_from_slice(b"\n")?;
        push_pairs(&mut text, self.window, &self.pairs)?;
        text.extend_from_slice(b"end\n")?;
        Ok(text)
    }
}

/// Whether the eras are those of the window: with none they are one.
fn has_eras(window: u64, place: &Place) -> bool
    ensures { result ≡ has_eras window (place_of place.now).spot }
{
    window != 0 || place.get_era == place.era
}

/// Whether the pair comes behind pairs that rise.
fn is_behind(pairs: &[Pair], pair: &Pair) -> bool
    requires { AreRising (map pair_of pairs.now) }
    ensures { result ≡ is_behind (map pair_of pairs.now) (pair_of pair.now) }
{
    match pairs.last() {
        None => true,
        Some(last) => last.compare(pair).is_lt(),
    }
}
