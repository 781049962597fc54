//! The calls of `Queues`: legs come, change their state, and go.
//!
//! Each call looks up a few rows of the map; one that changes a leg's state besides takes O(log n) of them, n being the
//! legs of its group, counted over all calls.

ghost use Rattle.std.specs.Prelude.{◌≡◌, ◌<◌, ◌≤◌, ◌+◌, ◌-◌, ◌^◌, ℕ, true, false, None, Some, OnOk, OnErr, IfOk, IfErr, IfSome, option_map, option_copied, nat_eq, cond, slice_get, vec_len};
ghost use Rattle.mcv_queues.specs.Numbers.{put, IsLeast, leg_number};
ghost use Rattle.mcv_queues.specs.Legs.{IsSentTo, is_in_flight, is_in_flight_to, is_flight, rests_at, with_state, with_stored, with_content, leg_content};
ghost use Rattle.mcv_queues.specs.Flights.{AreFlying, AreWaiting};
ghost use Rattle.mcv_queues.specs.Groups.{IsFirstHeld, is_in};
ghost use Rattle.mcv_queues.specs.declared.roots.Group.TheVariants.{WaitingFor, SpooledFor, HeldLegs, RefusedLegs, LegsInReplay};
ghost use Rattle.mcv_queues.specs.Queues.{legs, room, in_flight, servers};

use crate::fault::QueueFault;
use crate::leg::{Leg, State};
use crate::queues::Queues;
use crate::roots::Roots;
use crate::rows::Rows;
use mcv_base::{LegId, ServerId};
use std::alloc::{AllocError, Global};

impl<T: Drop> Queues<T> {
    /// Queues for this many servers, numbered from 0, without legs. An error is that memory ran out.
    pub fn new(alloc: Global, count: usize) -> Result<Queues<T>, AllocError>
        ensures legs { IfOk result (λ queues. (n : ℕ) → legs queues n ≡ None) }
        ensures flights { IfOk result (λ queues. (s : ℕ) → in_flight queues s ≡ 0) }
        ensures servers { IfOk result (λ queues. servers queues ≡ count) }
    {
        let roots = Roots::new(alloc, count)?;
        Ok(Queues {
            rows: Rows::new(alloc),
            roots,
        })
    }

    /// Makes room for this many more legs, so that each `push` has it. An error is that memory ran out; the legs are those
    /// that were there also then.
    pub fn reserve(&mut self, additional: usize) -> Result<(), AllocError>
        ensures legs { legs self.new ≡ legs self.old }
        ensures flights { (s : ℕ) → in_flight self.new s ≡ in_flight self.old s }
        ensures servers { servers self.new ≡ servers self.old }
        ensures ok { OnOk result (additional ≤ room self.new) }
        ensures room { room self.old ≤ room self.new }
    {
        self.rows.reserve(additional)
    }

    /// The leg with this number, if it is there.
    pub fn get(&self, leg: LegId) -> Option<&Leg<T>>
        ensures { option_copied result ≡ legs self.now leg.0 }
    {
        self.rows.leg(leg.0)
    }

    /// Whether this leg is in flight, sent or in replay; false where it isn't there.
    pub fn is_in_flight(&self, leg: LegId) -> bool
        ensures { result ≡ is_in_flight (legs self.now leg.0) }
    {
        self.rows.is_in_flight(leg.0)
    }

    /// How many servers there are.
    pub fn servers(&self) -> usize
        ensures { result ≡ servers self.now }
    {
        self.roots.servers.len()
    }

    /// A new leg waits for its server. The leg's number has to be free, but need not be the greatest.
    pub fn push(&mut self, leg: LegId, server: ServerId, content: T)
        requires room { 0 < room self.old }
        requires new { legs self.old leg.0 ≡ None }
        requires server { server.0 < servers self.old }
        ensures legs { legs self.new ≡ put (legs self.old) leg.0 (Some (record { server = server; state = State.Waiting; «record» = None; content = content })) }
        ensures flights { (s : ℕ) → in_flight self.new s ≡ in_flight self.old s }
        ensures servers { servers self.new ≡ servers self.old }
        ensures room { room self.old ≤ room self.new + 1 }
    {
        self.rows.fill(
            leg.0,
            Leg {
                server,
                state: State::Waiting,
                record: None,
                content,
            },
        );
        self.rows
            .enter_new(&mut self.roots, server.0 as usize, leg.0);
    }

    /// Changes what its caller keeps of a leg, if the leg is there.
    pub fn set_content(&mut self, leg: LegId, content: T)
        ensures legs { legs self.new ≡ with_content (legs self.old) leg.0 content }
        ensures flights { (s : ℕ) → in_flight self.new s ≡ in_flight self.old s }
        ensures servers { servers self.new ≡ servers self.old }
        ensures room { room self.new ≡ room self.old }
    {
        self.rows.set_content(leg.0, content);
    }

    /// A leg that isn't in flight gets a state in which it isn't either.
    fn settle(&mut self, number: u64, state: State)
        requires there { is_in_flight (legs self.old number) ≡ false }
        requires state { is_flight state ≡ false }
        ensures legs { legs self.new ≡ with_state (legs self.old) number state }
        ensures flights { (s : ℕ) → in_flight self.new s ≡ in_flight self.old s }
        ensures servers { servers self.new ≡ servers self.old }
        ensures room { room self.new ≡ room self.old }
    {
        self.rows.change_state(&mut self.roots, number, state);
    }

    /// A leg of a server that isn't in flight gets a state in which it is.
    fn send_out(&mut self, server: usize, number: u64, state: State)
        requires there { rests_at server (legs self.old number) ≡ true }
        requires free { in_flight self.old server + 1 < 2 ^ 64 }
        requires state { is_flight state ≡ true }
        ensures legs { legs self.new ≡ with_state (legs self.old) number state }
        ensures flights { (s : ℕ) → in_flight self.new s ≡ cond (nat_eq server s) (in_flight self.old server + 1) (in_flight self.old s) }
        ensures servers { servers self.new ≡ servers self.old }
        ensures room { room self.new ≡ room self.old }
    {
        self.rows.change_state(&mut self.roots, number, state);
        self.roots.fly(server);
    }

    /// A leg that is in flight gets a state in which it isn't.
    fn bring_back(&mut self, number: u64, state: State)
        requires there { is_in_flight (legs self.old number) ≡ true }
        requires state { is_flight state ≡ false }
        ensures legs { legs self.new ≡ with_state (legs self.old) number state }
        ensures flights { (s : ℕ) → in_flight self.new s ≡ cond (is_in_flight_to s (legs self.old number)) (in_flight self.old s - 1) (in_flight self.old s) }
        ensures servers { servers self.new ≡ servers self.old }
        ensures room { room self.new ≡ room self.old }
    {
        let server = self.rows.change_state(&mut self.roots, number, state);
        self.roots.land(server);
    }

    /// A leg in flight was performed, or needs no more: it isn't there any more. Gives what its caller kept of it.
    pub fn gone(&mut self, leg: LegId) -> Option<T>
        requires there { is_in_flight (legs self.old leg.0) ≡ true }
        ensures legs { legs self.new ≡ put (legs self.old) leg.0 None }
        ensures content { result ≡ option_map leg_content (legs self.old leg.0) }
        ensures flights { (s : ℕ) → in_flight self.new s ≡ cond (is_in_flight_to s (legs self.old leg.0)) (in_flight self.old s - 1) (in_flight self.old s) }
        ensures servers { servers self.new ≡ servers self.old }
        ensures room { room self.old ≤ room self.new }
    {
        let server = self.rows.leave(&mut self.roots, leg.0);
        self.roots.land(server);
        self.rows.remove(leg.0)
    }

    /// As `gone`, of a leg that was sent to this server, which lies in no heap.
    pub fn sent_gone(&mut self, leg: LegId, server: ServerId) -> Option<T>
        requires { IsSentTo server.0 (legs self.old leg.0) }
        ensures legs { legs self.new ≡ put (legs self.old) leg.0 None }
        ensures content { result ≡ option_map leg_content (legs self.old leg.0) }
        ensures flights { (s : ℕ) → in_flight self.new s ≡ cond (is_in_flight_to s (legs self.old leg.0)) (in_flight self.old s - 1) (in_flight self.old s) }
        ensures servers { servers self.new ≡ servers self.old }
        ensures room { room self.old ≤ room self.new }
    {
        self.roots.land(server.0 as usize);
        self.rows.remove(leg.0)
    }

    /// Sends the first leg that waits for a server: the one with the least number. `Busy` while so many of the server's legs
    /// are in flight, else `NothingWaiting` where none waits, also for a server that isn't in the table; nothing changes then.
    pub fn next(&mut self, server: ServerId, limit: usize) -> Result<LegId, QueueFault>
        ensures first { IfOk result (λ leg. IsLeast (is_in (legs self.old) (WaitingFor server.0)) (Some leg.0)) }
        ensures legs { IfOk result (λ leg. legs self.new ≡ with_state (legs self.old) leg.0 State.Sent) }
        ensures flights { OnOk result ((s : ℕ) → in_flight self.new s ≡ cond (nat_eq server.0 s) (in_flight self.old server.0 + 1) (in_flight self.old s)) }
        ensures free { OnOk result (in_flight self.old server.0 < limit) }
        ensures busy { IfErr result (λ fault. fault ≡ QueueFault.Busy → limit ≤ in_flight self.old server.0) }
        ensures nothing { IfErr result (λ fault. fault ≡ QueueFault.NothingWaiting → (in_flight self.old server.0 < limit) × IsLeast (is_in (legs self.old) (WaitingFor server.0)) None) }
        ensures err { OnErr result (self.new ≡ self.old) }
        ensures servers { servers self.new ≡ servers self.old }
        ensures room { room self.new ≡ room self.old }
    {
        let state = self.roots.server(server.0 as usize);
        if state.is_full(limit) {
            return Err(QueueFault::Busy);
        }
        let Some(number) = state.waiting else {
            return Err(QueueFault::NothingWaiting);
        };
        self.send_out(server.0 as usize, number, State::Sent);
        Ok(LegId(number))
    }

    /// Sends the first leg of a server that is in the spool: the one with the least number. It stays in the spool. `Busy`
    /// while so many of the server's legs are in flight, else `NothingWaiting` where none is in the spool; nothing changes then.
    pub fn replay(&mut self, server: ServerId, limit: usize) -> Result<LegId, QueueFault>
        ensures first { IfOk result (λ leg. IsLeast (is_in (legs self.old) (SpooledFor server.0)) (Some leg.0)) }
        ensures legs { IfOk result (λ leg. legs self.new ≡ with_state (legs self.old) leg.0 State.InReplay) }
        ensures flights { OnOk result ((s : ℕ) → in_flight self.new s ≡ cond (nat_eq server.0 s) (in_flight self.old server.0 + 1) (in_flight self.old s)) }
        ensures free { OnOk result (in_flight self.old server.0 < limit) }
        ensures busy { IfErr result (λ fault. fault ≡ QueueFault.Busy → limit ≤ in_flight self.old server.0) }
        ensures nothing { IfErr result (λ fault. fault ≡ QueueFault.NothingWaiting → (in_flight self.old server.0 < limit) × IsLeast (is_in (legs self.old) (SpooledFor server.0)) None) }
        ensures err { OnErr result (self.new ≡ self.old) }
        ensures servers { servers self.new ≡ servers self.old }
        ensures room { room self.new ≡ room self.old }
    {
        let state = self.roots.server(server.0 as usize);
        if state.is_full(limit) {
            return Err(QueueFault::Busy);
        }
        let Some(number) = state.spooled else {
            return Err(QueueFault::NothingWaiting);
        };
        self.send_out(server.0 as usize, number, State::InReplay);
        Ok(LegId(number))
    }

    /// A leg in flight wasn't performed by its server: it is held, and its call has no outcome of it yet.
    pub fn held(&mut self, leg: LegId)
        requires { is_in_flight (legs self.old leg.0) ≡ true }
        ensures legs { legs self.new ≡ with_state (legs self.old) leg.0 State.Held }
        ensures flights { (s : ℕ) → in_flight self.new s ≡ cond (is_in_flight_to s (legs self.old leg.0)) (in_flight self.old s - 1) (in_flight self.old s) }
        ensures servers { servers self.new ≡ servers self.old }
        ensures room { room self.new ≡ room self.old }
    {
        self.bring_back(leg.0, State::Held);
    }

    /// A leg in replay wasn't performed by its server: it is in the spool as before.
    pub fn replay_failed(&mut self, leg: LegId)
        requires { is_in_flight (legs self.old leg.0) ≡ true }
        ensures legs { legs self.new ≡ with_state (legs self.old) leg.0 State.InSpool }
        ensures flights { (s : ℕ) → in_flight self.new s ≡ cond (is_in_flight_to s (legs self.old leg.0)) (in_flight self.old s - 1) (in_flight self.old s) }
        ensures servers { servers self.new ≡ servers self.old }
        ensures room { room self.new ≡ room self.old }
    {
        self.bring_back(leg.0, State::InSpool);
    }

    /// The spool refused a held leg, and its call has an outcome of it now. The leg stays held.
    pub fn refused(&mut self, leg: LegId)
        requires { is_in_flight (legs self.old leg.0) ≡ false }
        ensures legs { legs self.new ≡ with_state (legs self.old) leg.0 State.Refused }
        ensures flights { (s : ℕ) → in_flight self.new s ≡ in_flight self.old s }
        ensures servers { servers self.new ≡ servers self.old }
        ensures room { room self.new ≡ room self.old }
    {
        self.settle(leg.0, State::Refused);
    }

    /// A leg is stored in the spool, as the record of this number: one that is held, or a new one that was found there.
    pub fn spooled(&mut self, leg: LegId, seq: u64)
        requires { is_in_flight (legs self.old leg.0) ≡ false }
        ensures legs { legs self.new ≡ with_stored (legs self.old) leg.0 seq }
        ensures flights { (s : ℕ) → in_flight self.new s ≡ in_flight self.old s }
        ensures servers { servers self.new ≡ servers self.old }
        ensures room { room self.new ≡ room self.old }
    {
        self.settle(leg.0, State::InSpool);
        self.rows.set_record(leg.0, seq);
    }

    /// The number of the first held leg.
    fn first_held_number(&self) -> Option<u64>
        ensures some { IfSome result (λ number. IsFirstHeld (legs self.now) number) }
        ensures none { result ≡ None → IsLeast (is_in (legs self.now) HeldLegs) None × IsLeast (is_in (legs self.now) RefusedLegs) None }
    {
        match self.roots.held {
            Some(number) => Some(number),
            None => self.roots.refused,
        }
    }

    /// The leg that the spool is to take next, of all servers: of those that are held without an outcome the one with the
    /// least number, and where there is none, of those that the spool refused the one with the least number.
    pub fn first_held(&self) -> Option<LegId>
        ensures some { IfSome result (λ leg. IsFirstHeld (legs self.now) leg.0) }
        ensures none { result ≡ None → IsLeast (is_in (legs self.now) HeldLegs) None × IsLeast (is_in (legs self.now) RefusedLegs) None }
    {
        let number = self.first_held_number()?;
        Some(LegId(number))
    }

    /// How many legs are in flight to a server, sent or in replay.
    pub fn in_flight(&self, server: ServerId) -> usize
        ensures flights { result ≡ in_flight self.now server.0 }
        ensures counted { ∥ AreFlying (legs self.now) server.0 result ∥₁ }
    {
        self.roots.server(server.0 as usize).flying
    }

    /// How many legs wait for each server, in the order of the servers' numbers: one pass over the legs of all. An error is
    /// that memory ran out.
    pub fn waiting(&self, alloc: Global) -> Result<Vec<usize>, AllocError>
        ensures servers { IfOk result (λ counts. vec_len counts ≡ servers self.now) }
        ensures counted { IfOk result (λ counts. (s : ℕ) → IfSome (slice_get counts.items s) (λ count. ∥ AreWaiting (legs self.now) s count ∥₁)) }
    {
        self.rows.waiting(alloc, self.servers())
    }

    /// Of the legs of all servers that are in replay the one with the least number.
    pub fn in_replay(&self) -> Option<LegId>
        ensures { IsLeast (is_in (legs self.now) LegsInReplay) (option_map leg_number result) }
    {
        match self.roots.in_replay {
            Some(number) => Some(LegId(number)),
            None => None,
        }
    }
}
