//! What the tests read from and write to.

ghost use Rattle.std.specs.Prelude.{[]};

use mcv_spool::{Disk, DiskFailed};
use std::io;
use std::io::{Read, Write};
use std::process::Abort;

/// A device that takes and gives nothing.
#[derive(Drop)]
pub struct Broken;

impl Read for Broken {
    fn read(&mut self, _buf: &mut [u8]) -> io::Result<usize> {
        Err(io::Error::from(io::ErrorKind::BrokenPipe))
    }
}

impl Write for Broken {
    fn write(&mut self, _buf: &[u8]) -> io::Result<usize> {
        Err(io::Error::from(io::ErrorKind::StorageFull))
    }

    fn flush(&mut self) -> io::Result<()> {
        Ok(())
    }
}

/// A file that is only read.
#[derive(Drop)]
pub struct HeldBytes<'a> {
    pub bytes: &'a [u8],
}

impl<'a> Disk for HeldBytes<'a> {
    ghost keeps_model = { ⊥ };

    ghost seen = { λ _. [] };

    ghost may_leave = { λ _ _. ⊥ };

    ghost moment = { λ _. 0 };

    ghost left_since = { λ _ _ _. ⊥ };

    ghost failures = { λ _. 0 };

    ghost read_may_stay = { λ none. absurd none };

    ghost counts_now = { λ none. absurd none };

    ghost only_now = { λ none. absurd none };

    fn len(&mut self) -> Result<usize, DiskFailed> {
        Ok(self.bytes.len())
    }

    fn read(&mut self, at: usize, bytes: &mut [u8]) -> Result<(), DiskFailed> {
        for (place, byte) in bytes.iter_mut().enumerate() {
            *byte = self.bytes.get(at.wrapping_add(place)).copied().unwrap_or(0);
        }
        Ok(())
    }

    fn write_at(&mut self, _at: usize, _bytes: &[u8]) -> Result<(), DiskFailed> {
        Err(DiskFailed)
    }

    fn cut(&mut self, _len: usize) -> Result<(), DiskFailed> {
        Err(DiskFailed)
    }

    fn sync(&mut self) -> Result<(), DiskFailed> {
        Err(DiskFailed)
    }

    fn renew(&mut self) -> Result<(), DiskFailed> {
        Err(DiskFailed)
    }
}

/// Whether a text and an exit status are as wanted.
pub fn is_written(text: &str, wanted: &str, status: u8, wanted_status: u8) -> bool {
    text == wanted && status == wanted_status
}

/// The lines that were written, with slashes between them.
pub fn joined(rt: &(impl AllocGlobal + Abort), output: Vec<u8>) -> String {
    let output = String::from_utf8(output).expect(rt, "a text");
    let lines = output
        .as_str()
        .strip_suffix('\n')
        .unwrap_or(output.as_str());
    lines.replace(rt.alloc(), "\n", " / ").expect(rt, "memory")
}
