//! The eras of routes, by their numbers, and their laws.

ghost use Rattle.std.specs.Prelude.{◌≡◌, ◌+◌, ◌<◌, ◌≤◌, ◌↔◌, ℕ, suc, IsTrue, None, Option, option_map};
ghost use Rattle.mcv_route.specs.Eras.{AreNearEras, ErasAreOpenedByBreaks, ErasSayWhatHasPassed, HasEra, IsEraOf, IsNear, IsNearEra, MomentsAreNear, MomentsHaveEras, NearByBreaks, NearGrows, NearIsSymmetric, SinceIsTheLastBreak};

use crate::routes::Routes;
use mcv_base::Moment;

/// How many eras the routes have: one more than breaks. They are numbered from 0.
pub fn era_count(routes: &Routes) -> usize
    ensures { (era : ℕ) → (era < result) ↔ HasEra routes.now era }
{
    routes.breaks().len() + 1
}

/// The break that opened the era of this number; None for the first one, and for a number that no era has.
pub fn opened(routes: &Routes, era: usize) -> Option<Moment>
    ensures some { HasEra routes.now era → IsEraOf routes.now era (option_map (λ m. m.0) result) }
    ensures none { (HasEra routes.now era → ⊥) → result ≡ None }
{
    if era == 0 {
        return None;
    }
    routes.breaks().get(era - 1).copied()
}

/// What `Routes::since` gives is the last break, moments after the same break are in one era, the break that
/// opened an era says which breaks have passed, and what `Routes::since` gives opened the era that
/// `Routes::era_of` numbers.
pub fn eras_are_opened_by_breaks()
    ensures last { SinceIsTheLastBreak }
    ensures one_era { ErasAreOpenedByBreaks }
    ensures passed { ErasSayWhatHasPassed }
    ensures moments { MomentsHaveEras }
{}

/// Whether the break that ends an era isn't at 0, and a later one is less than `window` after it.
fn reaches(end: Moment, start: Moment, window: u64) -> bool
    requires { end.0 ≤ start.0 }
    ensures { IsTrue result ↔ (0 < end.0) × (start.0 < end.0 + window) }
{
    0 < end.0 && start.0 - end.0 < window
}

/// Whether an era and one that isn't before it, the number of which is one more than `before`, are near.
fn near_later(routes: &Routes, era: usize, before: usize, window: u64) -> bool
    requires { era ≤ before }
    ensures { (since read : Option ℕ) → IsEraOf routes.now era since → IsEraOf routes.now (suc before) read → IsTrue result ↔ IsNear routes.now window since read }
{
    let breaks = routes.breaks();
    let Some(start) = breaks.get(before) else {
        return false;
    };
    reaches(breaks[era], *start, window)
}

/// Whether two eras of these numbers are near: a moment of the one and a moment of the other are at most `window`
/// seconds apart, or both are one.
pub fn near(routes: &Routes, era: usize, other: usize, window: u64) -> bool
    ensures { (since read : Option ℕ) → IsEraOf routes.now era since → IsEraOf routes.now other read → IsTrue result ↔ IsNear routes.now window since read }
{
    if era == other {
        return true;
    }
    if era < other {
        near_later(routes, era, other - 1, window)
    } else {
        near_later(routes, other, era - 1, window)
    }
}

/// The eras that are near one: those from `first` on, and before `end`.
#[derive(Clone, Copy)]
pub struct NearEras {
    pub first: usize,
    pub end: usize,
}

/// The first era that is near this one.
fn first_near(routes: &Routes, era: usize, window: u64) -> usize
    requires { HasEra routes.now era }
    ensures first { result ≤ era }
    ensures near { (other : ℕ) → result ≤ other → other ≤ era → IsNearEra routes.now window era other }
    ensures all { (other : ℕ) → IsNearEra routes.now window era other → result ≤ other }
{
    let mut first = era;
    while 0 < first && near(routes, era, first - 1, window) {
        first -= 1;
    }
    first
}

/// The number of the era behind the last one that is near this one.
fn end_near(routes: &Routes, era: usize, window: u64) -> usize
    requires { HasEra routes.now era }
    ensures end { era < result }
    ensures near { (other : ℕ) → era ≤ other → other < result → IsNearEra routes.now window era other }
    ensures all { (other : ℕ) → IsNearEra routes.now window era other → other < result }
{
    let count = era_count(routes);
    let mut last = era;
    while last + 1 < count && near(routes, era, last + 1, window) {
        last += 1;
    }
    last + 1
}

/// The eras that are near this one. Takes time in proportion to their number.
pub fn near_eras(routes: &Routes, era: usize, window: u64) -> NearEras
    requires { HasEra routes.now era }
    ensures { AreNearEras routes.now window era result.first result.end }
{
    NearEras {
        first: first_near(routes, era, window),
        end: end_near(routes, era, window),
    }
}

/// Two moments at most so many seconds apart are in near eras. Eras are near by their breaks, and near is symmetric. With
/// no time none is near another.
pub fn eras_are_near()
    ensures moments { MomentsAreNear }
    ensures breaks { NearByBreaks }
    ensures symmetric { NearIsSymmetric }
    ensures grows { NearGrows }
{}
