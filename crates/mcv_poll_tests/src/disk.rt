//! A disk that keeps nothing. It says nothing of the model, so it isn't proved to keep it.

ghost use Rattle.std.specs.Prelude.{[]};

use mcv_spool::{Disk, DiskFailed};

/// An empty file that takes all bytes and stays empty: a spool over it has what it was given since it was opened.
#[derive(Drop)]
pub(crate) struct BlankDisk;

impl Disk for BlankDisk {
    ghost keeps_model = { ⊥ };

    ghost seen = { λ _. [] };

    ghost may_leave = { λ _ _. ⊥ };

    ghost moment = { λ _. 0 };

    ghost left_since = { λ _ _ _. ⊥ };

    ghost failures = { λ _. 0 };

    ghost read_may_stay = { λ none. absurd none };

    ghost counts_now = { λ none. absurd none };

    ghost only_now = { λ none. absurd none };

    fn len(&mut self) -> Result<usize, DiskFailed> {
        Ok(0)
    }

    fn read(&mut self, _at: usize, bytes: &mut [u8]) -> Result<(), DiskFailed> {
        if bytes.is_empty() {
            Ok(())
        } else {
            Err(DiskFailed)
        }
    }

    fn write_at(&mut self, _at: usize, _bytes: &[u8]) -> Result<(), DiskFailed> {
        Ok(())
    }

    fn cut(&mut self, _len: usize) -> Result<(), DiskFailed> {
        Ok(())
    }

    fn sync(&mut self) -> Result<(), DiskFailed> {
        Ok(())
    }

    fn renew(&mut self) -> Result<(), DiskFailed> {
        Ok(())
    }
}
