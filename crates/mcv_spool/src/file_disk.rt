//! A real file as a disk. No clause can say what a real file holds, so this type says nothing of the model:
//! what is promised of a spool over it holds where the file keeps that model.

ghost use Rattle.std.specs.Prelude.{◌≡◌, ◌↔◌, [], ◌∷◌, ◌++◌, if◌then◌else◌, nat_le, true, vec_capacity, vec_len, IsErr, OnErr, OnOk};
ghost use Rattle.mcv_spool.specs.declared.file_disk.TheConstants.{RANGES};

use crate::disk::{Disk, DiskFailed};
use std::fs::{File, OpenOptions};
use std::io;
use std::os::unix::fs::FileExt;
use std::path::Path;

/// A file of the operating system, which one `FileDisk` has at a time.
///
/// After a sync that failed Linux may count the bytes as written, answer Ok to the next sync and give them to readers from
/// memory, while the disk has the old ones. So once a `sync` has failed, each later call answers `DiskFailed` and asks nothing
/// of the system, until `renew` has written the bytes that aren't synced a second time: then the next sync speaks of them
/// again. A new `FileDisk` trusts what it reads, and can't see that a sync of an earlier one had failed.
///
/// It takes memory where it is opened, and none later: so a call of it fails only where the system's did.
#[derive(Drop)]
pub struct FileDisk {
    file: File,
    sync_failed: bool,
    /// Where something was written since the last sync that answered Ok: offsets and lengths, at most `RANGES`.
    unsynced: Vec<(usize, usize)>,
    ghost room: { vec_capacity unsynced ≡ RANGES },
}

/// How many writes there are at most without a sync: the next one syncs first.
const RANGES: usize = 1024;

/// How many bytes are written a second time at once.
const PART: usize = 1024;

impl FileDisk {
    /// Opens the file of this name, and makes an empty one where there is none, which has its name on the disk too. The file is
    /// locked for this `FileDisk` alone, so that no two write into the same slots: while another holds it, in this process or
    /// in another, the answer is an error of the kind `WouldBlock`, and nothing of the file is changed. The lock ends where the
    /// file is closed, which dropping the `FileDisk` or the end of its process does. It binds those who ask for it, as
    /// each `FileDisk` does, and no other program.
    pub fn open(rt: &HostRuntime, path: &str) -> io::Result<FileDisk> {
        let unsynced = Vec::with_capacity(rt.alloc(), RANGES)?;
        let file = OpenOptions::new()
            .read(true)
            .write(true)
            .create(true)
            .open(rt, path)?;
        file.try_lock()?;
        file.sync_all()?;
        // A file that was just made is lost in a crash until the folder that names it is on the disk.
        File::open(rt, folder_of(path))?.sync_all()?;
        Ok(FileDisk {
            file,
            sync_failed: false,
            unsynced,
        })
    }

    /// The file, or `DiskFailed` once a sync of it has failed.
    fn trusted_file(&self) -> Result<&File, DiskFailed>
        ensures refused { IsErr result ↔ (self.now.sync_failed ≡ true) }
    {
        if self.sync_failed {
            return Err(DiskFailed);
        }
        Ok(&self.file)
    }

    /// Syncs the file: nothing is unsynced then.
    fn settle(&mut self) -> Result<(), DiskFailed>
        ensures settled { OnOk result (self.new.unsynced.items ≡ []) }
        ensures err { OnErr result (self.new.sync_failed ≡ true) }
    {
        match self.trusted_file()?.sync_data() {
            Ok(()) => {
                self.unsynced.clear();
                Ok(())
            }
            Err(_) => {
                self.sync_failed = true;
                Err(DiskFailed)
            }
        }
    }

    /// Notes a write that is about to begin. Where there is no room for it all is synced first. An error is one of that sync.
    fn note(&mut self, at: usize, len: usize) -> Result<(), DiskFailed>
        ensures noted { OnOk result (self.new.unsynced.items ≡ (if nat_le RANGES (vec_len self.old.unsynced) then [] else self.old.unsynced.items) ++ (at, len) ∷ []) }
        ensures err { OnErr result (self.new.sync_failed ≡ true) }
    {
        if self.unsynced.len() >= RANGES {
            self.settle()?;
        }
        self.unsynced.push_reserved((at, len));
        Ok(())
    }

    /// Writes the bytes of a range a second time, as far as they are still in the file.
    fn write_again(&self, at: usize, len: usize) -> io::Result<()> {
        let file_len = self.file.metadata()?.len();
        let end = (at as u64).saturating_add(len as u64).min(file_len);
        let mut part = [0; PART];
        for start in (at as u64..end).step_by(PART) {
            let size = (end - start).min(PART as u64) as usize;
            self.file.read_exact_at(&mut part[..size], start)?;
            self.file.write_all_at(&part[..size], start)?;
        }
        Ok(())
    }

    fn write_unsynced_again(&self) -> io::Result<()> {
        for (at, len) in &self.unsynced {
            self.write_again(*at, *len)?;
        }
        Ok(())
    }
}

/// The folder that names a file.
fn folder_of(path: &str) -> Path<'_> {
    match Path::new(path).parent() {
        Some(folder) if !folder.as_str().is_empty() => folder,
        _ => Path::new("."),
    }
}

impl Disk for FileDisk {
    ghost keeps_model = { ⊥ };

    ghost seen = { λ _. [] };

    ghost may_leave = { λ _ _. ⊥ };

    ghost moment = { λ _. 0 };

    ghost left_since = { λ _ _ _. ⊥ };

    ghost failures = { λ _. 0 };

    ghost read_may_stay = { λ none. absurd none };

    ghost counts_now = { λ none. absurd none };

    ghost only_now = { λ none. absurd none };

    fn len(&mut self) -> Result<usize, DiskFailed> {
        match self.trusted_file()?.metadata() {
            Ok(metadata) => Ok(metadata.len() as usize),
            Err(_) => Err(DiskFailed),
        }
    }

    fn read(&mut self, at: usize, bytes: &mut [u8]) -> Result<(), DiskFailed> {
        self.trusted_file()?
            .read_exact_at(bytes, at as u64)
            .map_err(|_| DiskFailed)
    }

    fn write_at(&mut self, at: usize, bytes: &[u8]) -> Result<(), DiskFailed> {
        // Before the write, which may fail after a part of the bytes.
        self.note(at, bytes.len())?;
        self.trusted_file()?
            .write_all_at(bytes, at as u64)
            .map_err(|_| DiskFailed)
    }

    fn cut(&mut self, len: usize) -> Result<(), DiskFailed> {
        self.trusted_file()?
            .set_len(len as u64)
            .map_err(|_| DiskFailed)
    }

    fn sync(&mut self) -> Result<(), DiskFailed> {
        self.settle()
    }

    /// What isn't synced is written a second time: a crash may leave any bytes there already, so this adds nothing to what it
    /// may leave.
    fn renew(&mut self) -> Result<(), DiskFailed> {
        self.write_unsynced_again().map_err(|_| DiskFailed)?;
        self.sync_failed = false;
        Ok(())
    }
}
