//! What is noted of a proxy is counted, and told where it is to be.

use crate::routes::accepted_of;
use mcv_base::ServerId;
use mcv_net::{Counters, Notice, Notices, Shortages, SystemWatch};
use mcv_spool::SpoolFault;
use mcv_tally::{HubTally, ServerTally, Tally};
use mcv_watch::{Load, Shortage, Watch};
use std::alloc::Global;
use std::process::Abort;
use std::sync::Arc;
use std::sync::atomic::{AtomicU64, Ordering};

const CONFIG: &str =
    "{\"pools\":{\"A\":{\"servers\":[\"a:11211\",\"b:11211\"]}},\"route\":\"PoolRoute|A\"}";

/// Keeps what it is told: a digit for each notice, the last one behind.
#[derive(Drop)]
struct Told {
    digits: Arc<AtomicU64>,
}

/// A digit for a notice of the second server, or of no server; 9 for any other.
fn digit_of(notice: Notice<'_>) -> u64 {
    match notice {
        Notice::Marked("b:11211") => 1,
        Notice::Unmarked("b:11211") => 2,
        Notice::Refusing(SpoolFault::Full) => 3,
        Notice::Taking => 4,
        Notice::Full(Shortage::Legs, 2) => 5,
        Notice::Full(Shortage::Chapter, 1) => 6,
        Notice::Turned => 7,
        Notice::Unserved => 8,
        _ => 9,
    }
}

impl Notices for Told {
    fn note(&mut self, notice: Notice<'_>) {
        let before = self.digits.load(Ordering::Relaxed);
        let after = before.wrapping_mul(10).wrapping_add(digit_of(notice));
        self.digits.store(after, Ordering::Relaxed);
    }
}

/// Who notes what happens at two hubs, where it is counted, and what is told.
#[derive(Drop)]
struct Scene {
    watch: SystemWatch<Told>,
    tally: Arc<Tally>,
    digits: Arc<AtomicU64>,
}

fn scene_of(rt: &impl Abort, alloc: Global) -> Scene {
    let accepted = accepted_of(rt, alloc, CONFIG);
    let tally = Tally::new(alloc, accepted.routes().servers(), 2).expect(rt, "memory");
    let tally = Arc::new(alloc, tally).expect(rt, "memory");
    let digits = Arc::new(alloc, AtomicU64::new(0)).expect(rt, "memory");
    let told = Told {
        digits: Arc::try_clone(&digits).expect(rt, "memory"),
    };
    let counters = Counters {
        shortages: Shortages::new(alloc, 2).expect(rt, "memory"),
        tally: Some(Arc::try_clone(&tally).expect(rt, "memory")),
    };
    Scene {
        watch: SystemWatch::new(told, counters, accepted),
        tally,
        digits,
    }
}

/// Whether so many legs of a server were sent and lost, so many marks put and taken away, and so many deletes performed.
fn is_counted(server: &ServerTally, counts: [u64; 5]) -> bool {
    let found = [
        server.sent.now(),
        server.lost.now(),
        server.marked.now(),
        server.unmarked.now(),
        server.replayed.now(),
    ];
    found == counts
}

/// Whether this was seen of the chapters of a hub.
fn is_loaded(hub: &HubTally, load: Load) -> bool {
    hub.entries.now() == load.entries
        && hub.bytes.now() == load.bytes
        && hub.turned.now() == load.chapter
}

#[test]
fn legs_and_marks_are_counted_at_their_server(rt: HostRuntime) {
    let mut scene = scene_of(&rt, rt.alloc());
    for _leg in 0..3 {
        scene.watch.note_sent(ServerId(1));
    }
    for _leg in 0..2 {
        scene.watch.note_lost(ServerId(1));
    }
    scene.watch.note_marked(ServerId(1));
    scene.watch.note_unmarked(ServerId(1));
    scene.watch.note_replayed(ServerId(1));
    scene.watch.note_sent(ServerId(0));
    scene.watch.note_sent(ServerId(2));
    let first = scene.tally.server(0).expect(&rt, "a server");
    let second = scene.tally.server(1).expect(&rt, "a server");
    assert!(rt; is_counted(first, [1, 0, 0, 0, 0]), "the first server");
    assert!(rt; is_counted(second, [3, 2, 1, 1, 1]), "the second server");
    assert_eq!(rt; scene.digits.load(Ordering::Relaxed), 12);
}

#[test]
fn records_and_chapters_are_counted_and_told(rt: HostRuntime) {
    let mut scene = scene_of(&rt, rt.alloc());
    scene.watch.note_spooled(7);
    scene.watch.note_spooled(8);
    assert_eq!(rt; scene.tally.spool.spooled.now(), 2);
    assert_eq!(rt; scene.tally.spool.slots.now(), 8);
    scene.watch.note_refusing(SpoolFault::Full);
    scene.watch.note_taking();
    scene.watch.note_full(0, Shortage::Legs, 2);
    scene.watch.note_full(1, Shortage::Chapter, 1);
    let load = Load {
        chapter: 1,
        entries: 30,
        bytes: 4000,
    };
    scene.watch.note_load(1, load);
    scene.watch.note_waiting(1, &[5, 6]);
    scene.watch.note_unserved();
    let first = scene.tally.hub(0).expect(&rt, "a hub");
    let second = scene.tally.hub(1).expect(&rt, "a hub");
    assert!(rt; is_loaded(first, Load::default()), "the first hub");
    assert!(rt; is_loaded(second, load), "the second hub");
    let waiting = second.waiting.get(1).expect(&rt, "a server");
    assert_eq!(rt; waiting.now(), 6);
    assert!(rt; scene.watch.looks_at_waiting(), "nobody looks");
    assert_eq!(rt; scene.digits.load(Ordering::Relaxed), 345_678);
}
