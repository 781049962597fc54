//! Runs of a spool whose disk fails or stops at one of its calls, and what is found in the file then.
//!
//! A run opens a file, appends three records, marks one as done, reopens the spool and appends one record more. After each
//! refusal it reopens the spool once.

use super::disk::{Borrowed, Call, Left, TestDisk, Trouble};
use super::rows::{empty_disk, open, record};
use mcv_spool::{Slot, Spool, SpoolFault};
use std::process::Abort;

/// The file with which a run begins.
#[derive(Clone, Copy, Debug, PartialEq, Eq)]
enum Start {
    Empty,
    /// Two records, of which the first is done.
    Whole,
    /// One record, and the front of another one behind an open gate.
    Torn,
}

impl Start {
    /// The rests of the records.
    fn rests(self) -> &'static [u8] {
        match self {
            Start::Empty => b"",
            Start::Whole => b"ab",
            Start::Torn => b"a",
        }
    }
}

const STARTS: [Start; 3] = [Start::Empty, Start::Whole, Start::Torn];

/// A run, and what is known of its file by what it was answered.
#[derive(Drop)]
struct Run {
    start: Start,
    trouble: Trouble,
    /// The rests of the slots in the order of their numbers, one letter each. The last one may be missing from the file where
    /// there are more of them than are sure.
    rests: Vec<u8>,
    /// How many slots there must be.
    sure: usize,
    /// The numbers for which `done` was called.
    done: Vec<u64>,
    /// How often Device was answered.
    devices: usize,
}

impl Run {
    /// What is known before a file is opened.
    fn new(rt: &(impl AllocGlobal + Abort), start: Start, trouble: Trouble) -> Run {
        let mut run = Run {
            start,
            trouble,
            rests: start.rests().to_vec(rt.alloc()).expect(rt, "memory"),
            sure: start.rests().len(),
            done: Vec::new(rt.alloc()),
            devices: 0,
        };
        if start == Start::Whole {
            run.done.push(0).expect(rt, "memory");
        }
        run
    }

    /// The slot of the next number has this rest, or may have it.
    fn add(&mut self, rt: &impl Abort, rest: u8) {
        self.rests.truncate(self.sure);
        self.rests.push(rest).expect(rt, "memory");
    }

    /// Whether this may be the slot of this number.
    fn may_have(&self, number: usize, slot: &Slot) -> bool {
        match slot.record() {
            Some(record) => match self.rests.get(number) {
                Some(rest) => record.rest.as_bytes() == [*rest].as_slice(),
                None => false,
            },
            None => self.done.contains(&(number as u64)),
        }
    }

    /// The slots of the opened file are the sure ones, and the one more if it is there.
    fn check(&self, rt: &impl Abort, slots: &[Slot]) {
        let (start, trouble) = (self.start, self.trouble);
        let (count, sure) = (slots.len(), self.sure);
        let is_known = sure <= count && count <= self.rests.len();
        assert!(rt;
            is_known,
            "{start:?}, {trouble:?}: {count} slots, {sure} are sure"
        );
        for (number, slot) in slots.iter().enumerate() {
            assert!(rt;
                self.may_have(number, slot),
                "{start:?}, {trouble:?}: slot {number}"
            );
        }
    }

    /// The spool was opened with these slots.
    fn find(&mut self, rt: &impl Abort, slots: &[Slot]) {
        self.check(rt, slots);
        self.sure = slots.len();
        self.rests.truncate(self.sure);
    }

    /// A call was refused: Device is counted, and no other fault than Reopen comes beside it.
    fn refuse(&mut self, rt: &impl Abort, fault: SpoolFault) {
        let (start, trouble) = (self.start, self.trouble);
        let is_known = fault == SpoolFault::Device || fault == SpoolFault::Reopen;
        assert!(rt; is_known, "{start:?}, {trouble:?}: {fault:?}");
        if fault == SpoolFault::Device {
            self.devices = self.devices.saturating_add(1);
        }
    }

    fn reopen(&mut self, rt: &impl Abort, spool: &mut Spool<Borrowed<'_>>) {
        match spool.reopen() {
            Ok(()) => self.find(rt, spool.pending()),
            Err(fault) => self.refuse(rt, fault),
        }
    }

    /// Appends a record with this rest.
    fn append(&mut self, rt: &impl Abort, spool: &mut Spool<Borrowed<'_>>, rest: u8) {
        let one = record(b"a:11211", &[rest]).expect(rt, "a record");
        match spool.append(one) {
            Ok(stored) => {
                assert!(rt; stored.seq() == self.sure as u64, "{:?}", self.trouble);
                self.add(rt, rest);
                self.sure = self.rests.len();
            }
            Err(fault) => {
                if fault == SpoolFault::Device {
                    self.add(rt, rest);
                }
                self.refuse(rt, fault);
                self.reopen(rt, spool);
            }
        }
    }

    /// Marks the record of this number as done.
    fn finish(&mut self, rt: &impl Abort, spool: &mut Spool<Borrowed<'_>>, number: u64) {
        self.done.push(number).expect(rt, "memory");
        if let Err(fault) = spool.done(number) {
            self.refuse(rt, fault);
            self.reopen(rt, spool);
        }
    }

    /// What the run does once the file is open.
    fn go_on(&mut self, rt: &impl Abort, spool: &mut Spool<Borrowed<'_>>) {
        self.find(rt, spool.pending());
        self.append(rt, spool, b'x');
        self.append(rt, spool, b'y');
        self.append(rt, spool, b'z');
        self.finish(rt, spool, 1);
        self.reopen(rt, spool);
        self.append(rt, spool, b'w');
    }
}

/// The disk with which a run begins.
fn disk_of(rt: &(impl AllocGlobal + Abort), start: Start) -> TestDisk {
    let mut disk = empty_disk(rt);
    if start == Start::Empty {
        return disk;
    }
    write_two(rt, &mut disk);
    let mut bytes = disk.left(Left::Seen).expect(rt, "memory");
    match start {
        Start::Torn => bytes.truncate(900),
        _ => set(&mut bytes, 1, 1),
    }
    TestDisk::new(rt.alloc(), bytes).expect(rt, "memory")
}

fn write_two(rt: &(impl AllocGlobal + Abort), disk: &mut TestDisk) {
    let mut spool = open(rt.alloc(), disk).expect(rt, "a spool");
    for rest in [b"a", b"b"] {
        let one = record(b"a:11211", rest).expect(rt, "a record");
        let _ = spool.append(one).expect(rt, "room");
    }
}

fn set(bytes: &mut Vec<u8>, at: usize, byte: u8) {
    if let Some(there) = bytes.get_mut(at) {
        *there = byte;
    }
}

/// The disk after a run in which this becomes of one of its calls, and what is known of its file.
fn played(rt: &(impl AllocGlobal + Abort), start: Start, trouble: Trouble) -> (TestDisk, Run) {
    let mut run = Run::new(rt, start, trouble);
    let mut disk = disk_of(rt, start);
    disk.trouble = trouble;
    match open(rt.alloc(), &mut disk) {
        Ok(mut spool) => run.go_on(rt, &mut spool),
        Err(fault) => run.refuse(rt, fault),
    }
    (disk, run)
}

/// The calls of a run without trouble.
fn calls_of(rt: &(impl AllocGlobal + Abort), start: Start) -> Vec<Call> {
    let (disk, run) = played(rt, start, Trouble::None);
    assert!(rt;
        run.devices == 0 && run.sure == run.rests.len(),
        "{start:?}"
    );
    disk.calls.to_vec(rt.alloc()).expect(rt, "memory")
}

/// A file is opened to what is known of a run, and takes one record more behind it.
fn check_file(rt: &(impl AllocGlobal + Abort), run: &Run, bytes: Vec<u8>) {
    let mut disk = TestDisk::new(rt.alloc(), bytes).expect(rt, "memory");
    let mut spool = open(rt.alloc(), &mut disk).expect(rt, "a spool");
    run.check(rt, spool.pending());
    let count = spool.pending().len() as u64;
    let one = record(b"a:11211", b"next").expect(rt, "a record");
    let stored = spool.append(one).expect(rt, "room");
    assert!(rt; stored.seq() == count, "{:?}, {:?}", run.start, run.trouble);
}

/// The files that a crash may leave once the machine has stopped in this call.
fn check_stop(rt: &(impl AllocGlobal + Abort), start: Start, call: usize, bytes: usize) {
    let (disk, run) = played(rt, start, Trouble::Stops { call, bytes });
    check_file(rt, &run, disk.left(Left::Seen).expect(rt, "memory"));
    if bytes > 0 {
        return;
    }
    check_file(rt, &run, disk.left(Left::Synced).expect(rt, "memory"));
    for byte in [0, 1, 255] {
        for is_long in [false, true] {
            let left = disk.left(Left::Filled { byte, is_long });
            check_file(rt, &run, left.expect(rt, "memory"));
        }
    }
}

/// Whether a stop behind so many bytes of a write is looked at: behind each one in a file that was empty, and in others behind
/// those of a record's head and some more.
fn is_tried(start: Start, bytes: usize) -> bool {
    start == Start::Empty || bytes < 16 || bytes % 64 == 0
}

/// A stop at each call, and in a write behind its bytes, none of them and all. A cut was made or wasn't.
#[test]
fn records_outlive_a_stop_at_each_call(rt: HostRuntime) {
    for start in STARTS {
        for (call, made) in calls_of(&rt, start).iter().enumerate() {
            for bytes in 0..=made.size().max(1) {
                if is_tried(start, bytes) {
                    check_stop(&rt, start, call, bytes);
                }
            }
        }
    }
}

/// One call fails: the call of the spool that made it answers Device, and all is well after a reopening.
fn check_failure(rt: &(impl AllocGlobal + Abort), start: Start, call: usize, bytes: usize) {
    let (disk, run) = played(rt, start, Trouble::Fails { call, bytes });
    assert!(rt;
        run.devices == 1,
        "{start:?}, {:?}: {} times Device",
        run.trouble,
        run.devices
    );
    check_file(rt, &run, disk.left(Left::Seen).expect(rt, "memory"));
    check_file(rt, &run, disk.left(Left::Synced).expect(rt, "memory"));
}

#[test]
fn records_outlive_a_failure_of_each_call(rt: HostRuntime) {
    for start in STARTS {
        for (call, made) in calls_of(&rt, start).iter().enumerate() {
            for bytes in [0, 1, made.size() / 2, made.size()] {
                check_failure(&rt, start, call, bytes);
            }
        }
    }
}

/// So many slots are found in this file of a run on an empty disk that stopped in this call.
fn check_left(
    rt: &(impl AllocGlobal + Abort),
    call: usize,
    bytes: usize,
    left: Left,
    slots: usize,
) {
    let (disk, run) = played(rt, Start::Empty, Trouble::Stops { call, bytes });
    let bytes = disk.left(left).expect(rt, "memory");
    let mut after = TestDisk::new(rt.alloc(), bytes).expect(rt, "memory");
    let spool = open(rt.alloc(), &mut after).expect(rt, "a spool");
    let found = spool.pending().len();
    assert!(rt;
        found == slots,
        "{:?}, {left:?}: {found} slots",
        run.trouble
    );
}

/// An opening of an empty file makes eight calls. The second append makes the calls 12 to 15: the record, a sync, its gate, a
/// sync.
#[test]
fn the_second_record_counts_behind_the_second_sync(rt: HostRuntime) {
    let torn = Left::Filled {
        byte: 255,
        is_long: true,
    };
    check_left(&rt, 12, 300, Left::Seen, 1);
    check_left(&rt, 12, 640, torn, 1);
    check_left(&rt, 14, 0, Left::Seen, 1);
    check_left(&rt, 15, 0, Left::Synced, 1);
    check_left(&rt, 16, 0, Left::Synced, 2);
    check_left(&rt, 16, 0, torn, 2);
}
