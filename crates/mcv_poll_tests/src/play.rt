//! Each row is played with the pass of a hub.

ghost use Rattle.std.specs.Prelude.{◌≡◌, ◌+◌, []};
ghost use Rattle.std.specs.Arc.{arc_value};
ghost use Rattle.std.specs.Int.NonZero.{non_zero_usize_get};
ghost use Rattle.mcv_core.specs.Opening.{opened_within};

use crate::legs::held_legs;
use crate::rows;
use mcv_check::Accepted;
use mcv_hub::{Capacity, Hub, HubLedger, Passes};
use mcv_verdict::{Judgement, judge_input};
use std::marker::Brand;
use std::net::{Net, TcpListener, TcpStream};
use std::num::NonZeroUsize;
use std::process::Abort;
use std::rt::Clock;
use std::sync::ledger::{Blank, Ledger};
use std::sync::{Arc, Wait};

/// How many seats there are.
const SEATS: u64 = 1;

/// One pool of one server.
const ONE: &str = "{\"pools\":{\"A\":{\"servers\":[\"a:11211\"]}},\"route\":\"PoolRoute|A\"}";

/// Which row is played.
#[derive(Clone, Copy)]
enum Row {
    ClientsCome,
    LastClientComes,
    DrainBegins,
    ServersAreConnected,
    RecordsAreStored,
}

/// What the checker accepts of a configuration.
fn accepted_of(rt: &(impl AllocGlobal + Abort), text: &str) -> Arc<Accepted> {
    let judgement = judge_input(rt.alloc(), &mut text.as_bytes(), 0);
    match judgement.expect(rt, "a configuration") {
        Judgement::Covered { accepted, .. } => Arc::new(rt.alloc(), accepted).expect(rt, "memory"),
        Judgement::Lost { .. } => panic!(rt; "the routes aren't covered"),
    }
}

/// Plays a row with a pass of this hub.
fn play_over<B: HubLedger, T: Ledger, R>(rt: R, row: Row, hub: &Hub<B, T>, passes: Passes<B, T>)
where
    R: Net<Stream = TcpStream, Listener = TcpListener>
        + AllocGlobal
        + Clock
        + Wait
        + Abort
        + Copy
        + Drop,
{
    let mut passes = passes;
    let pass = passes.pass();
    match row {
        Row::ClientsCome => rows::clients_come(rt, &pass),
        Row::LastClientComes => rows::last_client_comes(rt, &pass),
        Row::DrainBegins => rows::drain_begins(rt, &pass),
        Row::ServersAreConnected => rows::servers_are_connected(rt, &pass),
        Row::RecordsAreStored => {
            let held = held_legs(&rt, hub, &mut passes);
            rows::records_are_stored(rt, &pass, held);
        }
    }
}

/// Plays a row with a hub over these routes.
fn play_with<B: HubLedger, T: Ledger, R>(
    rt: R,
    row: Row,
    accepted: Arc<Accepted>,
    flights: NonZeroUsize,
    begun: Blank,
    taken: Blank,
)
where
    R: Net<Stream = TcpStream, Listener = TcpListener>
        + AllocGlobal
        + Clock
        + Wait
        + Abort
        + Copy
        + Drop,
    requires begun { (begun.name ≡ B.name) × (begun.parts ≡ B.parts) × (begun.parts ≡ SEATS + 1) }
    requires taken { (taken.name ≡ T.name) × (taken.parts ≡ T.parts) × (taken.parts ≡ SEATS + 1) }
    requires number { 0 ≡ B.number }
    requires opened { B.opened ≡ opened_within (non_zero_usize_get flights) (arc_value accepted) [] }
{
    let capacity = Capacity {
        flights,
        bells: 1,
        seats: SEATS,
    };
    let (hub, passes) = Hub::<B, T>::new(
        rt.alloc(),
        accepted,
        0,
        &[],
        capacity,
        begun,
        taken,
    ).expect(&rt, "memory");
    play_over(rt, row, &hub, passes);
}

/// Plays a row.
fn play<R>(rt: R, row: Row)
where
    R: Net<Stream = TcpStream, Listener = TcpListener>
        + AllocGlobal
        + Clock
        + Wait
        + Abort
        + Copy
        + Drop,
{
    let flights = NonZeroUsize::new(1).expect(&rt, "a limit");
    play_with::<Brand, Brand, R>(
        rt,
        row,
        accepted_of(&rt, ONE),
        flights,
        Blank::new(SEATS + 1),
        Blank::new(SEATS + 1),
    );
}

#[test]
fn bytes_and_an_end_that_came_before_are_told(rt: HostRuntime) {
    play(rt, Row::ClientsCome);
}

#[test]
fn nobody_comes_behind_the_last_client(rt: HostRuntime) {
    play(rt, Row::LastClientComes);
}

#[test]
fn nobody_comes_into_a_drain(rt: HostRuntime) {
    play(rt, Row::DrainBegins);
}

#[test]
fn servers_are_connected(rt: HostRuntime) {
    play(rt, Row::ServersAreConnected);
}

#[test]
fn records_are_stored_in_their_order(rt: HostRuntime) {
    play(rt, Row::RecordsAreStored);
}
