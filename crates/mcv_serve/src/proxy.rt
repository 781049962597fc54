//! A proxy, from the opening of its spool to the closing of its hubs.

ghost use Rattle.std.specs.Prelude.{◌≡◌, ◌+◌, ℕ, IfOk};
ghost use Rattle.std.specs.Arc.{arc_value};
ghost use Rattle.mcv_core.specs.Opening.{opened_within};
ghost use Rattle.mcv_hubs.specs.Blanks.{AreOf};
ghost use Rattle.mcv_hubs.specs.Choice.{records_at};
ghost use Rattle.mcv_serve.specs.Reports.{IsReport};

use crate::fault::ProxyFault;
use crate::launch::{Found, Launch, Tools};
use crate::opening::{Books, Opened, SEATS, open_hubs};
use crate::store::{Store, open_spool};
use crate::threads::{start_jobs, start_keeper};
use mcv_check::Accepted;
use mcv_hub::{Pass, Receipt, Report};
use mcv_hubs::{Blanks, HubChoice, HubNames, Hubs, MOST_HUBS, Names, Seats};
use mcv_loop::{Loop, LoopEnd, Sources};
use mcv_spool::{Disk, Spool};
use mcv_watch::Watch;
use std::alloc::{AllocError, Global};
use std::marker::Brand;
use std::sync::{Arc, Wait};
use std::thread::Threads;

/// The spool, and how it was found.
#[derive(Drop)]
struct Stock<D: Disk> {
    spool: Spool<D>,
    found: Found,
}

/// What a loop hands back at its end.
#[derive(Drop)]
struct Done<F: Names, G: Names> {
    seats: Seats<F, G>,
    /// Memory ran out for them where it is an error.
    receipts: Result<Vec<Receipt>, AllocError>,
}

/// Says that clients may come, and runs the loop to its end: how many legs are still queued.
fn run<F: HubNames, G: Names, S: Sources, W: Watch, L: Launch, R: Wait>(
    rt: &R,
    looping: &mut Loop<'_, F, G, S, W>,
    found: Found,
    launch: &mut L,
) -> Result<usize, ProxyFault> {
    launch.opened(found)?;
    match looping.run(rt) {
        LoopEnd::Done { left } => Ok(left),
        LoopEnd::Fault(fault) => Err(ProxyFault::from(fault)),
    }
}

/// Starts the jobs, and runs the loop, as `run` does.
fn run_with_jobs<F: HubNames, G: Names, S: Sources, W: Watch, L: Launch, R: Threads + Wait>(
    rt: &R,
    looping: &mut Loop<'_, F, G, S, W>,
    found: Found,
    launch: &mut L,
) -> Result<usize, ProxyFault> {
    let jobs = launch.jobs()?;
    start_jobs(rt, jobs)?;
    run(rt, looping, found, launch)
}

/// Runs a loop with the threads beside it. The spool's has ended then.
fn run_beside<F: HubNames, G: Names, S: Sources, W: Watch, L: Launch, R: Threads + Wait>(
    rt: &R,
    looping: &mut Loop<'_, F, G, S, W>,
    stock: Stock<L::Disk>,
    launch: &mut L,
) -> Result<(), ProxyFault> {
    let Stock { spool, found } = stock;
    let keeper = launch.keeper()?;
    let thread = start_keeper(rt, keeper, spool)?;
    let end = run_with_jobs(rt, looping, found, launch);
    launch.end_jobs();
    thread.join(rt);
    launch.ended(end?);
    Ok(())
}

/// A loop over hubs that are open.
fn loop_of<'a, F: HubNames, G: Names, S: Sources, W: Watch>(
    alloc: Global,
    hubs: &'a Hubs<F, G>,
    pass: Pass,
    seats: Seats<F, G>,
    tools: Tools<S, W>,
) -> Result<Loop<'a, F, G, S, W>, AllocError> {
    let Tools {
        sources,
        watch,
        limits,
    } = tools;
    Loop::new(alloc, hubs, pass, seats, sources, watch, limits)
}

/// What a loop hands back.
fn parts_of<F: HubNames, G: Names, S: Sources, W: Watch>(
    looping: Loop<'_, F, G, S, W>,
) -> Done<F, G> {
    let (seats, receipts, _sources, _watch) = looping.into_parts();
    Done { seats, receipts }
}

/// What the hubs counted, once the loop has come to this end.
fn close<F: HubNames, G: Names, R: Wait>(
    rt: &R,
    alloc: Global,
    hubs: &Hubs<F, G>,
    pass: Pass,
    done: Done<F, G>,
    end: Result<(), ProxyFault>,
) -> Result<Report, ProxyFault>
    ensures { IfOk result IsReport }
{
    end?;
    let Done {
        mut seats,
        receipts,
    } = done;
    let receipts = receipts?;
    let mut pass = pass;
    let report = hubs.close(rt, alloc, &mut pass, &mut seats, receipts.as_slice())?;
    Ok(report)
}

/// Serves all clients over hubs that are open, by a loop of these tools, and closes the hubs.
fn serve_opened<F: HubNames, G: Names, S: Sources, W: Watch, L: Launch, R: Threads + Wait>(
    rt: &R,
    alloc: Global,
    opened: Opened<F, G>,
    tools: Tools<S, W>,
    stock: Stock<L::Disk>,
    launch: &mut L,
) -> Result<Report, ProxyFault>
    ensures { IfOk result IsReport }
{
    let Opened {
        hubs,
        passes,
        seats,
    } = opened;
    let mut looping = loop_of(alloc, &hubs, passes.pass(), seats, tools)?;
    let end = run_beside(rt, &mut looping, stock, launch);
    let done = parts_of(looping);
    close(rt, alloc, &hubs, passes.pass(), done, end)
}

/// As `serve`, with the books of calls begun and of replies taken.
fn serve_hubs<F: HubNames, G: Names, L: Launch, R: Threads + Wait>(
    rt: &R,
    alloc: Global,
    hubs: (Arc<Accepted>, HubChoice),
    store: Store<L::Disk>,
    launch: &mut L,
    books: Books,
) -> Result<Report, ProxyFault>
    requires begun { AreOf F.name_of F.parts_of (SEATS + 1) books.begun }
    requires taken { AreOf G.name_of G.parts_of (SEATS + 1) books.taken }
    requires opened { (hub : ℕ) → F.opened_of hub ≡ opened_within 64 (arc_value hubs.0) (records_at hubs.1 hub store.records.items) }
    ensures { IfOk result IsReport }
{
    let (accepted, choice) = hubs;
    let Store { spool, records } = store;
    let found = Found {
        pending: records.len(),
        slots: spool.pending().len(),
    };
    let opened = open_hubs::<F, G>(alloc, accepted, choice, records.as_slice(), books)?;
    let stock = Stock { spool, found };
    let tools = launch.tools()?;
    serve_opened(rt, alloc, opened, tools, stock, launch)
}

/// Runs a proxy: as many hubs as the launch asks for, eight at most, over one spool, a loop over them, and the spool's keeper and the
/// jobs of the launch in threads beside it. Where there is no thread for one of them those that run are to end, and the answer is
/// `Memory`. Once the loop has ended they are to end, the keeper has, and the answer is what the hubs counted; where it can't go on,
/// `Memory` or `Device`.
pub fn serve<L: Launch, R: Threads + Wait>(
    rt: &R,
    alloc: Global,
    accepted: Arc<Accepted>,
    launch: L,
) -> Result<Report, ProxyFault>
    ensures { IfOk result IsReport }
{
    let mut launch = launch;
    let Some(choice) = HubChoice::new(alloc, launch.hubs().clamp(1, MOST_HUBS)) else {
        return Err(ProxyFault::Memory);
    };
    let Some(disk) = launch.disk() else {
        return Err(ProxyFault::Device);
    };
    let store = open_spool(alloc, disk)?;
    let books = Books {
        begun: Blanks::new(SEATS + 1),
        taken: Blanks::new(SEATS + 1),
    };
    serve_hubs::<Brand, Brand, L, R>(rt, alloc, (accepted, choice), store, &mut launch, books)
}
