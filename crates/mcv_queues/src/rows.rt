//! Legs by number, and the links by which they form heaps.

ghost use Rattle.std.specs.Prelude.{◌≡◌, ◌<◌, ◌≤◌, ◌+◌, ◌^◌, ℕ, None, Some, OnOk, IfOk, IfSome, cond, length, option_map, option_copied, slice_get, vec_len};
ghost use Rattle.mcv_queues.specs.Flights.{AreWaiting};
ghost use Rattle.mcv_queues.specs.Forest.{cut, freed, raised, right_of, turned, unless};
ghost use Rattle.mcv_queues.specs.Heap.{parted, next_or};
ghost use Rattle.mcv_queues.specs.Numbers.{put};
ghost use Rattle.mcv_queues.specs.Legs.{is_in_flight, with_state, with_record, with_content};
ghost use Rattle.mcv_queues.specs.Rows.{at, links, legs, room, content_of, row_waits_for, seen_of};

use crate::heap::{Step, parted};
use crate::leg::{Leg, State};
use crate::number_hasher::NumberHasher;
use std::alloc::{AllocError, Global};
use std::collections::HashMap;
use std::hash::BuildHasherDefault;

/// The number, unless it is this one.
pub(crate) fn unless(number: Option<u64>, other: u64) -> Option<u64>
    ensures { result ≡ unless number other }
{
    match number {
        Some(number) if number == other => None,
        _ => number,
    }
}

/// The numbers of the legs below a leg in its heap, and of the one above it.
#[derive(Clone, Copy)]
pub(crate) struct Link {
    pub left: Option<u64>,
    pub right: Option<u64>,
    pub up: Option<u64>,
}

/// The server, the state and the links of a leg.
#[derive(Clone, Copy)]
pub(crate) struct Seen {
    pub server: usize,
    pub state: State,
    pub link: Link,
}

#[derive(Drop)]
pub(crate) struct Row<T> {
    pub leg: Leg<T>,
    pub link: Link,
}

impl<T: Drop> Row<T> {
    /// Counts its leg at its server's number, where it waits.
    fn count_in(&self, counts: &mut [usize])
        requires { (s : ℕ) → IfSome (slice_get counts.old s) (λ count. count + 1 < 2 ^ 64) }
        ensures len { length counts.new ≡ length counts.old }
        ensures counts { (s : ℕ) → slice_get counts.new s ≡ option_map (λ count. cond (row_waits_for s self.now) (count + 1) count) (slice_get counts.old s) }
    {
        let server = self.leg.server.0 as usize;
        if self.leg.state.is_waiting() && server < counts.len() {
            counts[server] += 1;
        }
    }
}

/// Legs by number.
#[derive(Drop)]
pub(crate) struct Rows<T> {
    rows: HashMap<u64, Row<T>, BuildHasherDefault<NumberHasher>>,
}

impl<T: Drop> Rows<T> {
    pub fn new(alloc: Global) -> Rows<T>
        ensures { at result ≡ (λ n. None) }
    {
        Rows {
            rows: HashMap::with_hasher(alloc, BuildHasherDefault::new()),
        }
    }

    /// Makes room for this many more legs.
    pub fn reserve(&mut self, additional: usize) -> Result<(), AllocError>
        ensures at { at self.new ≡ at self.old }
        ensures ok { OnOk result (additional ≤ room self.new) }
        ensures room { room self.old ≤ room self.new }
    {
        self.rows.reserve(additional)
    }

    /// Puts a leg at a number, where there is room.
    pub fn fill(&mut self, number: u64, leg: Leg<T>)
        requires { 0 < room self.old }
        ensures at { at self.new ≡ put (at self.old) number (Some (record { leg = leg; link = record { left = None; right = None; up = None } })) }
        ensures room { room self.old ≤ room self.new + 1 }
    {
        let link = Link {
            left: None,
            right: None,
            up: None,
        };
        let _ = self.rows.insert(number, Row { leg, link });
    }

    /// Takes the leg at a number out.
    pub fn remove(&mut self, number: u64) -> Option<T>
        ensures at { at self.new ≡ put (at self.old) number None }
        ensures content { result ≡ option_map content_of (at self.old number) }
        ensures room { room self.old ≤ room self.new }
    {
        self.rows.remove(&number).map(|row| row.leg.content)
    }

    /// What is seen of the leg at a number.
    pub fn seen(&self, number: u64) -> Option<Seen>
        ensures { result ≡ option_map seen_of (at self.now number) }
    {
        self.rows.get(&number).map(|row| Seen {
            server: row.leg.server.0 as usize,
            state: row.leg.state,
            link: row.link,
        })
    }

    /// The leg at a number hangs from another one.
    pub fn raise(&mut self, number: u64, up: Option<u64>)
        ensures links { links self.new ≡ raised (links self.old) number up }
        ensures legs { legs self.new ≡ legs self.old }
        ensures room { room self.new ≡ room self.old }
    {
        if let Some(row) = self.rows.get_mut(&number) {
            row.link.up = up;
        }
    }

    /// The first half of a step of making two trees one: what hung at the left of `upper` hangs at its right, and the lesser
    /// one of what hung there and of `lower` at its left. Gives where the next step is; None where this one is the last.
    pub fn part(&mut self, upper: u64, lower: u64) -> Option<Step>
        ensures step { result ≡ parted upper lower (right_of (links self.old upper)) }
        ensures above { IfSome result (λ step. upper < step.next) }
        ensures links { links self.new ≡ turned (links self.old) upper (Some (next_or lower result)) }
        ensures legs { legs self.new ≡ legs self.old }
        ensures room { room self.new ≡ room self.old }
    {
        let row = self.rows.get_mut(&upper)?;
        let step = parted(upper, lower, row.link.right);
        row.link.right = row.link.left;
        row.link.left = Some(match step {
            Some(step) => step.next,
            None => lower,
        });
        step
    }

    /// Nothing hangs from the leg at a number, and it hangs from none.
    pub fn free(&mut self, number: u64)
        ensures links { links self.new ≡ freed (links self.old) number }
        ensures legs { legs self.new ≡ legs self.old }
        ensures room { room self.new ≡ room self.old }
    {
        if let Some(row) = self.rows.get_mut(&number) {
            row.link = Link {
                left: None,
                right: None,
                up: None,
            };
        }
    }

    /// The child doesn't hang from the leg at a number any more.
    pub fn cut_one(&mut self, number: u64, child: u64)
        ensures links { links self.new ≡ cut (links self.old) (Some number) child }
        ensures legs { legs self.new ≡ legs self.old }
        ensures room { room self.new ≡ room self.old }
    {
        if let Some(row) = self.rows.get_mut(&number) {
            row.link.left = unless(row.link.left, child);
            row.link.right = unless(row.link.right, child);
        }
    }

    /// The leg at a number.
    pub fn leg(&self, number: u64) -> Option<&Leg<T>>
        ensures { option_copied result ≡ legs self.now number }
    {
        self.rows.get(&number).map(|row| &row.leg)
    }

    /// How many legs wait for each of so many servers, in the order of the servers' numbers.
    pub fn waiting(&self, alloc: Global, servers: usize) -> Result<Vec<usize>, AllocError>
        ensures len { IfOk result (λ counts. vec_len counts ≡ servers) }
        ensures counted { IfOk result (λ counts. (s : ℕ) → IfSome (slice_get counts.items s) (λ count. ∥ AreWaiting (legs self.now) s count ∥₁)) }
    {
        let mut counts = vec![in alloc; 0; servers]?;
        for row in self.rows.values() {
            row.count_in(counts.as_mut_slice());
        }
        Ok(counts)
    }

    /// Whether the leg at a number is in flight.
    pub fn is_in_flight(&self, number: u64) -> bool
        ensures { result ≡ is_in_flight (legs self.now number) }
    {
        match self.rows.get(&number) {
            Some(row) => row.leg.state.is_flight(),
            None => false,
        }
    }

    /// Changes the state of the leg at a number. Gives what was seen of it before.
    pub fn restate(&mut self, number: u64, state: State) -> Option<Seen>
        ensures seen { result ≡ option_map seen_of (at self.old number) }
        ensures legs { legs self.new ≡ with_state (legs self.old) number state }
        ensures links { links self.new ≡ links self.old }
        ensures room { room self.new ≡ room self.old }
    {
        let row = self.rows.get_mut(&number)?;
        let seen = Seen {
            server: row.leg.server.0 as usize,
            state: row.leg.state,
            link: row.link,
        };
        row.leg.state = state;
        Some(seen)
    }

    /// Changes the number of the record of the leg at a number.
    pub fn set_record(&mut self, number: u64, seq: u64)
        ensures legs { legs self.new ≡ with_record (legs self.old) number seq }
        ensures links { links self.new ≡ links self.old }
        ensures room { room self.new ≡ room self.old }
    {
        if let Some(row) = self.rows.get_mut(&number) {
            row.leg.record = Some(seq);
        }
    }

    /// Changes the content of the leg at a number.
    pub fn set_content(&mut self, number: u64, content: T)
        ensures legs { legs self.new ≡ with_content (legs self.old) number content }
        ensures links { links self.new ≡ links self.old }
        ensures room { room self.new ≡ room self.old }
    {
        if let Some(row) = self.rows.get_mut(&number) {
            row.leg.content = content;
        }
    }
}
