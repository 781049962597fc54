//! The hubs of a proxy.

ghost use Rattle.std.specs.Prelude.{◌≡◌, ◌+◌, ◌<◌, ◌≤◌, ℕ, IfErr, IfOk};
ghost use Rattle.std.specs.Arc.{arc_value};
ghost use Rattle.std.specs.Int.NonZero.{non_zero_usize_get};
ghost use Rattle.mcv_core.specs.Opening.{opened_within};
ghost use Rattle.mcv_core.specs.declared.fault.CoreFault.TheVariants.{Memory as OutOfMemory};
ghost use Rattle.mcv_hubs.specs.Blanks.{AreOf, OpenFour, Opens};
ghost use Rattle.mcv_hubs.specs.Choice.{records_at};
ghost use Rattle.mcv_hubs.specs.Counts.{begun_by, change_at, taken_by};
ghost use Rattle.mcv_hubs.specs.Taken.{IsBegunAt, WasBegun, WasTaken};

use crate::choice::HubChoice;
use crate::names::{At, Blanks, HubNames, Names};
use crate::one;
use crate::seats::{HubPasses, Seats};
use mcv_base::{CallId, Request};
use mcv_check::Accepted;
use mcv_core::CoreFault;
use mcv_hub::{Capacity, Hub, HubLedger, Pass, Passes, TakenReply};
use mcv_spool::SpoolRecord;
use std::alloc::Global;
use std::rt::Clock;
use std::sync::ledger::{Blank, Ledger};
use std::sync::{Arc, Wait};

/// A call of one of the hubs.
#[derive(Clone, Copy, Debug, PartialEq, Eq)]
pub struct HubCall {
    /// The number of the hub, from 0.
    pub hub: usize,
    pub call: CallId,
}

/// Eight hubs, of which the first ones have the keys.
#[derive(Drop)]
pub struct Hubs<F: HubNames, G: Names> {
    pub choice: HubChoice,
    pub hub0: Hub<At<F, 0>, At<G, 0>>,
    pub hub1: Hub<At<F, 1>, At<G, 1>>,
    pub hub2: Hub<At<F, 2>, At<G, 2>>,
    pub hub3: Hub<At<F, 3>, At<G, 3>>,
    pub hub4: Hub<At<F, 4>, At<G, 4>>,
    pub hub5: Hub<At<F, 5>, At<G, 5>>,
    pub hub6: Hub<At<F, 6>, At<G, 6>>,
    pub hub7: Hub<At<F, 7>, At<G, 7>>,
}

/// What hubs begin with.
#[derive(Clone, Copy)]
struct Stock<'a> {
    alloc: Global,
    accepted: &'a Arc<Accepted>,
    choice: &'a HubChoice,
    records: &'a [(u64, SpoolRecord)],
    capacity: Capacity,
}

/// A hub that was opened, and what makes its passes and seats.
#[derive(Drop)]
struct Opened<B: HubLedger, T: Ledger> {
    hub: Hub<B, T>,
    passes: Passes<B, T>,
}

/// The hubs 0 to 3.
#[derive(Drop)]
struct FirstHubs<F: HubNames, G: Names> {
    opened0: Opened<At<F, 0>, At<G, 0>>,
    opened1: Opened<At<F, 1>, At<G, 1>>,
    opened2: Opened<At<F, 2>, At<G, 2>>,
    opened3: Opened<At<F, 3>, At<G, 3>>,
}

/// The hubs 4 to 7.
#[derive(Drop)]
struct LastHubs<F: HubNames, G: Names> {
    opened4: Opened<At<F, 4>, At<G, 4>>,
    opened5: Opened<At<F, 5>, At<G, 5>>,
    opened6: Opened<At<F, 6>, At<G, 6>>,
    opened7: Opened<At<F, 7>, At<G, 7>>,
}

/// The hub of this number with its records.
fn open<B: HubLedger, T: Ledger>(
    stock: &Stock<'_>,
    hub: usize,
    begun: Blank,
    taken: Blank,
) -> Result<Opened<B, T>, CoreFault>
    requires number { hub ≡ B.number }
    requires begun { Opens B.name B.parts (stock.now.capacity.seats + 1) begun }
    requires taken { Opens T.name T.parts (stock.now.capacity.seats + 1) taken }
    requires opened { B.opened ≡ opened_within (non_zero_usize_get stock.now.capacity.flights) (arc_value stock.now.accepted.now) (records_at stock.now.choice.now hub stock.now.records.now) }
    ensures seats { IfOk result (λ r. r.passes.left ≡ stock.now.capacity.seats) }
    ensures err { IfErr result (λ fault. fault ≡ OutOfMemory) }
{
    let alloc = stock.alloc;
    let Ok(accepted) = Arc::try_clone(stock.accepted) else {
        return Err(CoreFault::Memory);
    };
    let Ok(records) = stock.choice.records_at(alloc, hub, stock.records) else {
        return Err(CoreFault::Memory);
    };
    let records = records.as_slice();
    let (hub, passes) = Hub::new(alloc, accepted, hub, records, stock.capacity, begun, taken)?;
    Ok(Opened { hub, passes })
}

/// The hubs 0 to 3 with their records.
fn open_first<F: HubNames, G: Names>(
    stock: &Stock<'_>,
    begun: (Blank, Blank, Blank, Blank),
    taken: (Blank, Blank, Blank, Blank),
) -> Result<FirstHubs<F, G>, CoreFault>
    requires begun { OpenFour F.name_of F.parts_of (stock.now.capacity.seats + 1) 0 begun.0 begun.1 begun.2 begun.3 }
    requires taken { OpenFour G.name_of G.parts_of (stock.now.capacity.seats + 1) 0 taken.0 taken.1 taken.2 taken.3 }
    requires opened { (hub : ℕ) → F.opened_of hub ≡ opened_within (non_zero_usize_get stock.now.capacity.flights) (arc_value stock.now.accepted.now) (records_at stock.now.choice.now hub stock.now.records.now) }
    ensures seats { IfOk result (λ r. (r.opened0.passes.left ≡ stock.now.capacity.seats) × (r.opened1.passes.left ≡ stock.now.capacity.seats) × (r.opened2.passes.left ≡ stock.now.capacity.seats) × (r.opened3.passes.left ≡ stock.now.capacity.seats)) }
    ensures err { IfErr result (λ fault. fault ≡ OutOfMemory) }
{
    let opened0 = open(stock, 0, begun.0, taken.0)?;
    let opened1 = open(stock, 1, begun.1, taken.1)?;
    let opened2 = open(stock, 2, begun.2, taken.2)?;
    let opened3 = open(stock, 3, begun.3, taken.3)?;
    Ok(FirstHubs {
        opened0,
        opened1,
        opened2,
        opened3,
    })
}

/// The hubs 4 to 7 with their records.
fn open_last<F: HubNames, G: Names>(
    stock: &Stock<'_>,
    begun: (Blank, Blank, Blank, Blank),
    taken: (Blank, Blank, Blank, Blank),
) -> Result<LastHubs<F, G>, CoreFault>
    requires begun { OpenFour F.name_of F.parts_of (stock.now.capacity.seats + 1) 4 begun.0 begun.1 begun.2 begun.3 }
    requires taken { OpenFour G.name_of G.parts_of (stock.now.capacity.seats + 1) 4 taken.0 taken.1 taken.2 taken.3 }
    requires opened { (hub : ℕ) → F.opened_of hub ≡ opened_within (non_zero_usize_get stock.now.capacity.flights) (arc_value stock.now.accepted.now) (records_at stock.now.choice.now hub stock.now.records.now) }
    ensures seats { IfOk result (λ r. (r.opened4.passes.left ≡ stock.now.capacity.seats) × (r.opened5.passes.left ≡ stock.now.capacity.seats) × (r.opened6.passes.left ≡ stock.now.capacity.seats) × (r.opened7.passes.left ≡ stock.now.capacity.seats)) }
    ensures err { IfErr result (λ fault. fault ≡ OutOfMemory) }
{
    let opened4 = open(stock, 4, begun.0, taken.0)?;
    let opened5 = open(stock, 5, begun.1, taken.1)?;
    let opened6 = open(stock, 6, begun.2, taken.2)?;
    let opened7 = open(stock, 7, begun.3, taken.3)?;
    Ok(LastHubs {
        opened4,
        opened5,
        opened6,
        opened7,
    })
}

/// All eight hubs, and what makes their passes and seats.
fn joined<F: HubNames, G: Names>(
    choice: HubChoice,
    first: FirstHubs<F, G>,
    last: LastHubs<F, G>,
) -> (Hubs<F, G>, HubPasses<F, G>)
    requires first { (first.opened1.passes.left ≡ first.opened0.passes.left) × (first.opened2.passes.left ≡ first.opened0.passes.left) × (first.opened3.passes.left ≡ first.opened0.passes.left) }
    requires last { (last.opened4.passes.left ≡ first.opened0.passes.left) × (last.opened5.passes.left ≡ first.opened0.passes.left) × (last.opened6.passes.left ≡ first.opened0.passes.left) × (last.opened7.passes.left ≡ first.opened0.passes.left) }
    ensures choice { result.0.choice ≡ choice }
    ensures seats { result.1 ≡ first.opened0.passes.left }
{
    let FirstHubs {
        opened0,
        opened1,
        opened2,
        opened3,
    } = first;
    let LastHubs {
        opened4,
        opened5,
        opened6,
        opened7,
    } = last;
    let hubs = Hubs {
        choice,
        hub0: opened0.hub,
        hub1: opened1.hub,
        hub2: opened2.hub,
        hub3: opened3.hub,
        hub4: opened4.hub,
        hub5: opened5.hub,
        hub6: opened6.hub,
        hub7: opened7.hub,
    };
    let passes = HubPasses {
        passes0: opened0.passes,
        passes1: opened1.passes,
        passes2: opened2.passes,
        passes3: opened3.passes,
        passes4: opened4.passes,
        passes5: opened5.passes,
        passes6: opened6.passes,
        passes7: opened7.passes,
    };
    (hubs, passes)
}

impl<F: HubNames, G: Names> Hubs<F, G> {
    /// Hubs over these routes, each with the records of its keys, and what makes their passes and seats. The one error is
    /// Memory.
    pub fn new(
        alloc: Global,
        accepted: Arc<Accepted>,
        choice: HubChoice,
        records: &[(u64, SpoolRecord)],
        capacity: Capacity,
        begun: Blanks,
        taken: Blanks,
    ) -> Result<(Hubs<F, G>, HubPasses<F, G>), CoreFault>
        requires begun { AreOf F.name_of F.parts_of (capacity.seats + 1) begun }
        requires taken { AreOf G.name_of G.parts_of (capacity.seats + 1) taken }
        requires opened { (hub : ℕ) → F.opened_of hub ≡ opened_within (non_zero_usize_get capacity.flights) (arc_value accepted) (records_at choice hub records.now) }
        ensures choice { IfOk result (λ r. r.0.choice ≡ choice) }
        ensures seats { IfOk result (λ r. r.1 ≡ capacity.seats) }
        ensures err { IfErr result (λ fault. fault ≡ OutOfMemory) }
    {
        let stock = Stock {
            alloc,
            accepted: &accepted,
            choice: &choice,
            records,
            capacity,
        };
        let first = open_first(
            &stock,
            (begun.blank0, begun.blank1, begun.blank2, begun.blank3),
            (taken.blank0, taken.blank1, taken.blank2, taken.blank3),
        )?;
        let last = open_last(
            &stock,
            (begun.blank4, begun.blank5, begun.blank6, begun.blank7),
            (taken.blank4, taken.blank5, taken.blank6, taken.blank7),
        )?;
        Ok(joined(choice, first, last))
    }

    /// Begins a call for one key of the request, counted from 0, at the hub of that key. Where that hub's next chapter is due
    /// the first key waits for it, for a second at most (`Hub::enter`).
    pub fn begin<R: Wait + Clock>(
        &self,
        rt: &R,
        alloc: Global,
        pass: &mut Pass,
        seats: &mut Seats<F, G>,
        asked: (Arc<Request>, usize),
    ) -> Result<HubCall, CoreFault>
        ensures { IsBegunAt self.now.choice (arc_value asked.0) asked.1 seats.old result seats.new }
    {
        let hub = self.choice.hub_of_key(&asked.0, asked.1);
        match self.begin_at(rt, alloc, pass, seats, hub, asked) {
            Ok(call) => Ok(HubCall { hub, call }),
            Err(fault) => Err(fault),
        }
    }

    /// Begins a call at the hub of this number.
    fn begin_at<R: Wait + Clock>(
        &self,
        rt: &R,
        alloc: Global,
        pass: &mut Pass,
        seats: &mut Seats<F, G>,
        hub: usize,
        asked: (Arc<Request>, usize),
    ) -> Result<CallId, CoreFault>
        requires { hub < 8 }
        ensures event { WasBegun hub (arc_value asked.0) asked.1 result }
        ensures counted { seats.new ≡ change_at hub (begun_by result) seats.old }
    {
        match hub {
            0 => one::begin(rt, alloc, &self.hub0, pass, &mut seats.seat0, asked),
            1 => one::begin(rt, alloc, &self.hub1, pass, &mut seats.seat1, asked),
            2 => one::begin(rt, alloc, &self.hub2, pass, &mut seats.seat2, asked),
            3 => one::begin(rt, alloc, &self.hub3, pass, &mut seats.seat3, asked),
            4 => one::begin(rt, alloc, &self.hub4, pass, &mut seats.seat4, asked),
            5 => one::begin(rt, alloc, &self.hub5, pass, &mut seats.seat5, asked),
            6 => one::begin(rt, alloc, &self.hub6, pass, &mut seats.seat6, asked),
            _ => one::begin(rt, alloc, &self.hub7, pass, &mut seats.seat7, asked),
        }
    }

    /// Takes the reply to a call, once; None where it has none, or it was taken. An error is NoSuchCall, where the call doesn't
    /// run, or there is no such hub.
    pub fn take_reply<R: Wait>(
        &self,
        rt: &R,
        alloc: Global,
        pass: &mut Pass,
        seats: &mut Seats<F, G>,
        call: HubCall,
    ) -> Result<Option<TakenReply>, CoreFault>
        ensures event { call.hub < 8 → WasTaken call.hub call.call result }
        ensures unknown { 8 ≤ call.hub → result ≡ Err CoreFault.NoSuchCall }
        ensures counted { seats.new ≡ change_at call.hub (taken_by result) seats.old }
    {
        let number = call.call;
        match call.hub {
            0 => one::take_reply(rt, alloc, &self.hub0, pass, &mut seats.seat0, number),
            1 => one::take_reply(rt, alloc, &self.hub1, pass, &mut seats.seat1, number),
            2 => one::take_reply(rt, alloc, &self.hub2, pass, &mut seats.seat2, number),
            3 => one::take_reply(rt, alloc, &self.hub3, pass, &mut seats.seat3, number),
            4 => one::take_reply(rt, alloc, &self.hub4, pass, &mut seats.seat4, number),
            5 => one::take_reply(rt, alloc, &self.hub5, pass, &mut seats.seat5, number),
            6 => one::take_reply(rt, alloc, &self.hub6, pass, &mut seats.seat6, number),
            7 => one::take_reply(rt, alloc, &self.hub7, pass, &mut seats.seat7, number),
            _ => Err(CoreFault::NoSuchCall),
        }
    }
}
