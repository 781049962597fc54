//! What no clause says: the bytes of the worked rows, the numbers of faults, and files of the system.

use super::disk::{Borrowed, Call, TestDisk, Trouble};
use super::play::{play, play_on};
use mcv_base::{Rest, ServerText};
use mcv_spool::{Disk, FileDisk, Spool, SpoolFault, SpoolRecord};
use std::alloc::Global;
use std::io::ErrorKind;
use std::process::Abort;
use std::{env, fs, process, thread};

pub(super) fn record(server: &[u8], rest: &[u8]) -> Option<SpoolRecord> {
    Some(SpoolRecord {
        server: ServerText::of(server)?,
        rest: Rest::of(rest)?,
    })
}

pub(super) fn open(alloc: Global, disk: &mut TestDisk) -> Result<Spool<Borrowed<'_>>, SpoolFault> {
    Spool::open(alloc, Borrowed { disk })
}

pub(super) fn empty_disk(rt: &(impl AllocGlobal + Abort)) -> TestDisk {
    TestDisk::new(rt.alloc(), Vec::new(rt.alloc())).expect(rt, "memory")
}

/// The number of the record that is appended, if it is the one that was asked for.
fn append<D: Disk>(spool: &mut Spool<D>, server: &[u8], rest: &[u8]) -> Option<u64> {
    let stored = spool.append(record(server, rest)?).ok()?;
    if stored.record().rest.as_bytes() == rest {
        Some(stored.seq())
    } else {
        None
    }
}

/// Nothing is pending in this file once it is opened, and it is one closed gate then.
fn check_gate(rt: &(impl AllocGlobal + Abort), bytes: &[u8]) {
    let bytes = bytes.to_vec(rt.alloc()).expect(rt, "memory");
    let mut disk = TestDisk::new(rt.alloc(), bytes).expect(rt, "memory");
    play_on(rt, &mut disk, "pending = ");
    assert!(rt;
        disk.bytes.as_slice() == b"\x00".as_slice(),
        "no closed gate"
    );
}

#[test]
fn an_empty_file_and_one_of_one_byte_get_a_closed_gate(rt: HostRuntime) {
    check_gate(&rt, b"");
    check_gate(&rt, b"\x00");
    check_gate(&rt, b"\x01");
    check_gate(&rt, b"\xff");
}

/// Whether the bytes begin with these, and then have so many zeros and no more.
fn is_spelled(bytes: &[u8], begin: &[u8], zeros: usize) -> bool {
    match bytes.strip_prefix(begin) {
        Some(rest) => rest.len() == zeros && rest.iter().all(|b| *b == 0),
        None => false,
    }
}

/// Two records come, of which the first is done.
const TWO: &str = "\
append a:11211 a = 0 a
append b:11211 ab = 1 ab
done 0 = Ok(())";

/// Further calls of `done` change nothing.
const SPELLED: &str = "\
append a:11211 a = 0 a
append b:11211 ab = 1 ab
done 0 = Ok(())
pending = 1:ab;
done 0 = Ok(())
done 7 = Ok(())
pending = 1:ab;";

#[test]
fn records_are_spelled_byte_for_byte(rt: HostRuntime) {
    let mut disk = empty_disk(&rt);
    play_on(&rt, &mut disk, SPELLED);
    let bytes = disk.bytes.as_slice();
    assert!(rt; bytes.len() == 1_281);
    let (first, second) = bytes.split_at(640);
    assert!(rt; is_spelled(first, b"\x01\x01\x00\x07\x00\x01a:11211a", 626));
    assert!(rt; is_spelled(second, b"\x01\x00\x00\x07\x00\x02b:11211ab", 626));
}

const DONE: &str = "\
append a:11211 a = 0 a
append a:11211 b = 1 b
append a:11211 c = 2 c
pending = 0:a;1:b;2:c;
done 1 = Ok(())
pending = 0:a;2:c;
done 2 = Ok(())
pending = 0:a;
done 18446744073709551615 = Ok(())
pending = 0:a;
append a:11211 d = 3 d
pending = 0:a;3:d;
reopen = Ok(())
pending = 0:a;3:d;";

#[test]
fn records_are_done_in_any_order(rt: HostRuntime) {
    let mut disk = empty_disk(&rt);
    play_on(&rt, &mut disk, DONE);
}

/// Whether a record and its copy are of this server and rest, or neither of the two is.
fn check_of(rt: &impl Abort, one: &SpoolRecord, server: &[u8], rest: &[u8], is: bool) {
    let other = record(server, rest).expect(rt, "a record");
    assert!(rt; one.is(&other.server, &other.rest) == is, "{other:?}");
    assert!(rt;
        one.copied().is(&other.server, &other.rest) == is,
        "the copy, {other:?}"
    );
}

#[test]
fn a_record_is_of_one_server_and_one_rest(rt: HostRuntime) {
    let one = record(b"a:11211", b"a").expect(&rt, "a record");
    check_of(&rt, &one, b"a:11211", b"a", true);
    check_of(&rt, &one, b"b:11211", b"a", false);
    check_of(&rt, &one, b"a:11212", b"a", false);
    check_of(&rt, &one, b"a:11211", b"b", false);
}

/// Makes the length of the first record one that doesn't read, and opens the end gate.
fn spoil(bytes: &mut Vec<u8>) -> Option<()> {
    *bytes.get_mut(3)? = 0;
    *bytes.get_mut(640)? = 1;
    Some(())
}

/// An opening closes the end gate, and one that is refused for damage has written nothing.
#[test]
fn a_length_that_does_not_read_is_damage(rt: HostRuntime) {
    let mut disk = empty_disk(&rt);
    play_on(&rt, &mut disk, "append a:11211 a = 0 a");
    assert!(rt; spoil(&mut disk.bytes).is_some());
    assert!(rt; open(rt.alloc(), &mut disk).err() == Some(SpoolFault::Damaged(0)));
    assert!(rt; disk.bytes.len() == 641 && disk.bytes.last() == Some(&1));
}

const FAULTS: [SpoolFault; 5] = [
    SpoolFault::Device,
    SpoolFault::Full,
    SpoolFault::Memory,
    SpoolFault::Reopen,
    SpoolFault::Damaged(0),
];

#[test]
fn faults_have_numbers(rt: HostRuntime) {
    for (place, fault) in FAULTS.iter().enumerate() {
        let number = usize::from(fault.number());
        assert!(rt; number == place.saturating_add(1), "{number}");
    }
}

const FAILED: &str = "\
append a:11211 a = 0 a
append b:11211 ab = Device
pending = 0:a;
append b:11211 ab = Reopen
done 0 = Err(Reopen)
reopen = Ok(())
pending = 0:a;";

/// An opening of an empty file makes eight calls, an append four: this is the first sync of the second append.
#[test]
fn a_failed_sync_wants_a_reopen(rt: HostRuntime) {
    let mut disk = empty_disk(&rt);
    disk.trouble = Trouble::Fails { call: 13, bytes: 0 };
    play_on(&rt, &mut disk, FAILED);
}

/// The other program writes as the reopening renews the disk.
const SPOILED: &str = "\
append a:11211 a = 0 a
append b:11211 ab = 1 ab
reopen = Err(Damaged(1))
pending = 0:a;1:ab;
append a:11211 c = Reopen
done 0 = Err(Reopen)
reopen = Err(Damaged(1))";

/// A record that another program spoiled is found by a reopening, which writes nothing.
#[test]
fn a_reopening_finds_damage(rt: HostRuntime) {
    let mut disk = empty_disk(&rt);
    disk.trouble = Trouble::Spoils {
        call: 16,
        at: 645,
        byte: 0,
    };
    play_on(&rt, &mut disk, SPOILED);
    assert!(rt; disk.count(Call::Write(1)) == 3 && disk.count(Call::Cut) == 1);
}

/// Each opening renews the disk once, and no other call does.
#[test]
fn each_opening_renews_the_disk(rt: HostRuntime) {
    let mut disk = empty_disk(&rt);
    play_on(&rt, &mut disk, "append a:11211 a = 0 a");
    assert!(rt; disk.count(Call::Renew) == 1);
    play_on(&rt, &mut disk, "reopen = Ok(())");
    assert!(rt; disk.count(Call::Renew) == 3);
}

/// A path that no other run of the tests has, nor another test.
fn own_path(host: &HostRuntime, rt: &impl Abort, test: &str) -> String {
    let number = process::id(host.process());
    let temporary = env::temp_dir(host).expect(rt, "a folder");
    let folder = temporary.as_str();
    format!(in host.alloc(); "{folder}/mcv_spool_{test}_{number}").expect(rt, "memory")
}

fn open_file(host: &HostRuntime, rt: &impl Abort, path: &str) -> Spool<FileDisk> {
    let disk = FileDisk::open(host, path).expect(rt, "a file");
    Spool::open(host.alloc(), disk).expect(rt, "a spool")
}

/// Plays a script on the spool of a file, which is opened.
fn play_in(host: &HostRuntime, rt: &(impl AllocGlobal + Abort), path: &str, script: &str) {
    let mut spool = open_file(host, rt, path);
    play(rt, &mut spool, script);
}

/// The file has these bytes.
fn check_bytes(host: &HostRuntime, rt: &impl Abort, path: &str, wanted: &[u8]) {
    let bytes = fs::read(host, path).expect(rt, "bytes");
    assert!(rt; bytes.as_slice() == wanted, "other bytes");
}

fn remove(host: &HostRuntime, rt: &impl Abort, path: &str) {
    fs::remove_file(host, path).expect(rt, "a file");
}

/// A torn file becomes empty, and two records are kept in it.
fn check_kept(host: &HostRuntime, rt: &(impl AllocGlobal + Abort), path: &str) {
    fs::write(host, path, "\x01torn").expect(rt, "a file");
    play_in(host, rt, path, "pending = ");
    check_bytes(host, rt, path, b"\x00");
    play_in(host, rt, path, TWO);
    play_in(
        host,
        rt,
        path,
        "pending = 1:ab;\nappend a:11211 next = 2 next",
    );
    remove(host, rt, path);
}

#[test]
fn a_file_of_the_system_keeps_records(rt: HostRuntime) {
    let path = own_path(&rt, &rt, "records");
    check_kept(&rt, &rt, path.as_str());
}

/// A file that is open can't be opened again.
fn check_lock(host: &HostRuntime, rt: &impl Abort, path: &str) {
    let _first = FileDisk::open(host, path).expect(rt, "a file");
    let fault = FileDisk::open(host, path).err().expect(rt, "a lock");
    assert!(rt; fault.kind() == ErrorKind::WouldBlock);
}

/// A file can be opened and takes a byte.
fn check_byte(host: &HostRuntime, rt: &impl Abort, path: &str) {
    let mut disk = FileDisk::open(host, path).expect(rt, "a file");
    let written = disk.write_at(0, b"\x00").is_ok() && disk.sync().is_ok();
    assert!(rt; written && disk.len() == Ok(1), "no byte");
}

#[test]
fn a_file_of_the_system_is_open_once(rt: HostRuntime) {
    let path = own_path(&rt, &rt, "lock");
    check_lock(&rt, &rt, path.as_str());
    check_byte(&rt, &rt, path.as_str());
    remove(&rt, &rt, path.as_str());
}

/// Whether a disk takes bytes that are synced, and more that are written again before they are.
fn writes_again(disk: &mut FileDisk) -> bool {
    disk.write_at(0, b"abc").is_ok()
        && disk.sync().is_ok()
        && disk.write_at(1, b"xyz").is_ok()
        && disk.cut(3).is_ok()
        && disk.renew().is_ok()
        && disk.sync().is_ok()
}

fn check_writes(host: &HostRuntime, rt: &impl Abort, path: &str) {
    let mut disk = FileDisk::open(host, path).expect(rt, "a file");
    assert!(rt; writes_again(&mut disk), "not written");
}

#[test]
fn what_is_not_synced_is_written_again(rt: HostRuntime) {
    let path = own_path(&rt, &rt, "renewed");
    check_writes(&rt, &rt, path.as_str());
    check_bytes(&rt, &rt, path.as_str(), b"axy");
    remove(&rt, &rt, path.as_str());
}

/// Whether a disk takes so many writes of a byte with no sync between them.
fn takes(disk: &mut FileDisk, count: usize) -> bool {
    for at in 0..count {
        if disk.write_at(at, b"x").is_err() {
            return false;
        }
    }
    true
}

fn check_many(host: &HostRuntime, rt: &impl Abort, path: &str) {
    let mut disk = FileDisk::open(host, path).expect(rt, "a file");
    assert!(rt;
        takes(&mut disk, 2_500) && disk.renew().is_ok(),
        "not written"
    );
    let bytes = fs::read(host, path).expect(rt, "bytes");
    assert!(rt; bytes.len() == 2_500 && bytes.iter().all(|byte| *byte == b'x'));
}

#[test]
fn a_file_of_the_system_takes_any_number_of_writes_without_a_sync(rt: HostRuntime) {
    let path = own_path(&rt, &rt, "writes");
    check_many(&rt, &rt, path.as_str());
    remove(&rt, &rt, path.as_str());
}

/// The spool, if the third record comes to it.
fn append_third(mut spool: Spool<FileDisk>) -> Option<Spool<FileDisk>> {
    if append(&mut spool, b"a:11211", b"a") == Some(2) {
        Some(spool)
    } else {
        None
    }
}

/// Two records come to a spool, and in another thread a third.
#[test]
fn a_spool_goes_to_another_thread(rt: HostRuntime) {
    let path = own_path(&rt, &rt, "thread");
    play_in(&rt, &rt, path.as_str(), TWO);
    let spool = open_file(&rt, &rt, path.as_str());
    let child = thread::spawn(&rt, move || append_third(spool));
    let back = child.expect(&rt, "a thread").join(&rt);
    let mut spool = back.expect(&rt, "a third record");
    play(&rt, &mut spool, "pending = 1:ab;2:a;");
    remove(&rt, &rt, path.as_str());
}
