//! A core is opened with the records that the spool held.

ghost use Rattle.std.specs.Arc.{arc_value};
ghost use Rattle.std.specs.Prelude.{◌≡◌, ◌<◌, ◌≤◌, ◌+◌, ◌^◌, ◌++◌, ℕ, List, [], Some, None, IfOk, IfErr, OnOk, length, option_map};
ghost use Rattle.std.specs.Str.{bytes_eq};
ghost use Rattle.mcv_events.specs.Runs.{OpenedRecord};
ghost use Rattle.mcv_pools.specs.Table.{number_in};
ghost use Rattle.mcv_queues.specs.declared.leg.State.TheVariants.{InSpool};
ghost use Rattle.mcv_queues.specs.Queues.{in_flight, legs, room as leg_room, servers as known};
ghost use Rattle.mcv_world.specs.World.{put};
ghost use Rattle.mcv_core.specs.Opening.{AreOpened, IsOpenedErrand, known_numbers, known_records, opened_within, with_number, with_server};
ghost use Rattle.mcv_core.specs.View.{core_view};
ghost use Rattle.mcv_core.specs.declared.fault.CoreFault.TheVariants.{Memory as OutOfMemory};

use crate::calls::Calls;
use crate::counts::Counts;
use crate::dispatcher::Dispatcher;
use crate::errand::{Errand, Laid};
use crate::fault::CoreFault;
use mcv_base::{LegId, Mark, Moment, Op, Position, Rest, ServerId};
use mcv_check::Accepted;
use mcv_pools::Servers;
use mcv_queues::{Marks, Queues};
use mcv_route::Launch;
use mcv_spool::SpoolRecord;
use std::alloc::{AllocError, Global};
use std::sync::Arc;

/// The legs of opened records, numbered from 0.
#[derive(Drop)]
struct Opened {
    queues: Queues<Errand>,
    count: usize,
}

/// What the leg of an opened record takes with it: a delete at the root, of no call.
fn errand_of(alloc: Global, server: ServerId, rest: Rest) -> Result<Errand, AllocError>
    ensures { IfOk result (λ e. IsOpenedErrand server rest e) }
{
    let mut launches = Vec::with_capacity(alloc, 1)?;
    launches.push(Launch {
        position: Position::root(alloc),
        server,
        op: Op::Delete,
        mark: Mark::Plain,
    })?;
    let laid = Arc::new(
        alloc,
        Laid {
            launches,
            rest: Arc::new(alloc, rest)?,
            request: None,
        },
    )?;
    Ok(Errand {
        call: None,
        laid,
        entry: 0,
    })
}

/// The number of the record's server, if it is in the table.
fn server_of(servers: &Servers, delete: &SpoolRecord) -> Option<ServerId>
    ensures { option_map (λ s. s.0) result ≡ number_in bytes_eq servers.now delete.now.server }
{
    match std::str::from_utf8(delete.server.as_bytes()) {
        Ok(text) => servers.find(text),
        Err(_) => None,
    }
}

impl Opened {
    /// Puts a leg into the spool, as the record of this number.
    fn add(&mut self, seq: u64, server: ServerId, errand: Errand)
        requires room { 0 < leg_room self.old.queues }
        requires free { legs self.old.queues self.old.count ≡ None }
        requires known { server.0 < known self.old.queues }
        requires small { self.old.count + 1 < 2 ^ 64 }
        ensures legs { legs self.new.queues ≡ put (legs self.old.queues) self.old.count (Some (record { server = server; state = InSpool; «record» = Some seq; content = errand })) }
        ensures count { self.new.count ≡ self.old.count + 1 }
        ensures flights { (s : ℕ) → in_flight self.new.queues s ≡ in_flight self.old.queues s }
        ensures servers { known self.new.queues ≡ known self.old.queues }
        ensures room { leg_room self.old.queues ≤ leg_room self.new.queues + 1 }
    {
        let leg = LegId(self.count as u64);
        self.queues.push(leg, server, errand);
        self.queues.spooled(leg, seq);
        self.count += 1;
    }

    /// Puts the leg of the record of this number into the spool, if its server is in the table.
    fn store(
        &mut self,
        alloc: Global,
        servers: &Servers,
        seq: u64,
        delete: &SpoolRecord,
    ) -> Result<(), AllocError>
        requires room { 0 < leg_room self.old.queues }
        requires free { legs self.old.queues self.old.count ≡ None }
        requires known { known self.old.queues ≡ length servers.now }
        requires small { self.old.count + 1 < 2 ^ 64 }
        ensures opened { (before : List OpenedRecord) (numbers : List ℕ) → AreOpened before numbers (legs self.old.queues) self.old.count → OnOk result (AreOpened (before ++ with_server (number_in bytes_eq servers.now delete.now.server) delete.now.rest []) (numbers ++ with_number (number_in bytes_eq servers.now delete.now.server) seq []) (legs self.new.queues) self.new.count) }
        ensures count { self.new.count ≤ self.old.count + 1 }
        ensures flights { (s : ℕ) → in_flight self.new.queues s ≡ in_flight self.old.queues s }
        ensures servers { known self.new.queues ≡ known self.old.queues }
        ensures room { leg_room self.old.queues ≤ leg_room self.new.queues + 1 }
    {
        let Some(server) = server_of(servers, delete) else {
            return Ok(());
        };
        let errand = errand_of(alloc, server, delete.rest.copied())?;
        self.add(seq, server, errand);
        Ok(())
    }
}

/// The legs of the records whose servers are in the table.
fn opened_legs(
    alloc: Global,
    accepted: &Accepted,
    records: &[(u64, SpoolRecord)],
) -> Result<Opened, AllocError>
    ensures opened { IfOk result (λ o. AreOpened (known_records accepted.now.servers records.now) (known_numbers accepted.now.servers records.now) (legs o.queues) o.count) }
    ensures flights { IfOk result (λ o. (s : ℕ) → in_flight o.queues s ≡ 0) }
    ensures servers { IfOk result (λ o. known o.queues ≡ length accepted.now.servers) }
{
    let servers = accepted.routes().servers();
    let mut queues = Queues::new(alloc, servers.len())?;
    queues.reserve(records.len())?;
    let mut opened = Opened { queues, count: 0 };
    for record in records {
        opened.store(alloc, servers, record.0, &record.1)?;
    }
    Ok(opened)
}

impl Dispatcher {
    /// No call runs, and the records whose servers are in the table are legs in the spool, numbered from 0 in their order.
    /// The other records are left to the file. So many legs of a server may be in flight at a time.
    pub(crate) fn open(
        alloc: Global,
        accepted: Arc<Accepted>,
        records: &[(u64, SpoolRecord)],
        limit: usize,
    ) -> Result<Dispatcher, CoreFault>
        ensures view { IfOk result (λ d. core_view d ≡ opened_within limit (arc_value accepted) records.now) }
        ensures err { IfErr result (λ fault. fault ≡ OutOfMemory) }
    {
        let opened = opened_legs(alloc, &accepted, records)?;
        let routes = accepted.routes();
        let marks = Marks::new(alloc, routes.servers().len())?;
        let since = routes.since(Moment(0));
        let calls = Calls::new(alloc);
        Ok(Dispatcher {
            accepted,
            calls,
            queues: opened.queues,
            marks,
            since,
            moment: Moment(0),
            next_call: 0,
            next_leg: opened.count as u64,
            counts: Counts {
                reserved: 0,
                queued: 0,
                spooled: opened.count,
                running: 0,
            },
            entries: opened.count,
            chapter: 0,
            limit,
        })
    }
}
