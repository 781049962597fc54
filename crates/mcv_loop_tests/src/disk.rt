//! A disk in memory. It says nothing of the model, so it isn't proved to keep it.

ghost use Rattle.std.specs.Prelude.{[]};

use mcv_spool::{Disk, DiskFailed};
use std::alloc::Global;

/// A file in memory.
#[derive(Drop)]
pub(crate) struct MemoryDisk {
    bytes: Vec<u8>,
}

impl MemoryDisk {
    pub(crate) fn new(alloc: Global) -> MemoryDisk {
        MemoryDisk {
            bytes: Vec::new(alloc),
        }
    }
}

impl Disk for MemoryDisk {
    ghost keeps_model = { ⊥ };

    ghost seen = { λ _. [] };

    ghost may_leave = { λ _ _. ⊥ };

    ghost moment = { λ _. 0 };

    ghost left_since = { λ _ _ _. ⊥ };

    ghost failures = { λ _. 0 };

    ghost read_may_stay = { λ none. absurd none };

    ghost counts_now = { λ none. absurd none };

    ghost only_now = { λ none. absurd none };

    fn len(&mut self) -> Result<usize, DiskFailed> {
        Ok(self.bytes.len())
    }

    fn read(&mut self, at: usize, bytes: &mut [u8]) -> Result<(), DiskFailed> {
        for (i, byte) in bytes.iter_mut().enumerate() {
            match self.bytes.get(at.saturating_add(i)) {
                Some(there) => *byte = *there,
                None => return Err(DiskFailed),
            }
        }
        Ok(())
    }

    fn write_at(&mut self, at: usize, bytes: &[u8]) -> Result<(), DiskFailed> {
        for (i, byte) in bytes.iter().enumerate() {
            match self.bytes.get_mut(at.saturating_add(i)) {
                Some(there) => *there = *byte,
                None => {
                    if self.bytes.push(*byte).is_err() {
                        return Err(DiskFailed);
                    }
                }
            }
        }
        Ok(())
    }

    fn cut(&mut self, len: usize) -> Result<(), DiskFailed> {
        self.bytes.truncate(len);
        Ok(())
    }

    fn sync(&mut self) -> Result<(), DiskFailed> {
        Ok(())
    }

    fn renew(&mut self) -> Result<(), DiskFailed> {
        Ok(())
    }
}
