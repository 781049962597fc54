//! A real file that is only read. No clause can say what a real file holds, so this type says nothing of the model.

ghost use Rattle.std.specs.Prelude.{◌≡◌, []};

use mcv_spool::{Disk, DiskFailed};
use std::fs::File;
use std::io;
use std::os::unix::fs::FileExt;
use std::rt::Files;

/// A file of the operating system, open for reading alone. It isn't locked. A call that would write answers `DiskFailed`.
#[derive(Drop)]
pub struct FileView {
    file: File,
}

impl FileView {
    /// Opens the file of this name, which has to be there. What is no file, as a folder, is an error.
    pub fn open<R: Files<File = File>>(rt: &R, path: &str) -> io::Result<FileView> {
        let file = File::open(rt, path)?;
        if !file.metadata()?.is_file() {
            return Err(io::Error::from(io::ErrorKind::InvalidInput));
        }
        Ok(FileView { file })
    }
}

impl Disk for FileView {
    ghost keeps_model = { ⊥ };

    ghost seen = { λ _. [] };

    ghost may_leave = { λ _ _. ⊥ };

    ghost moment = { λ _. 0 };

    ghost left_since = { λ _ _ _. ⊥ };

    ghost failures = { λ _. 0 };

    ghost read_may_stay = { λ none. absurd none };

    ghost counts_now = { λ none. absurd none };

    ghost only_now = { λ none. absurd none };

    fn len(&mut self) -> Result<usize, DiskFailed> {
        match self.file.metadata() {
            Ok(metadata) => Ok(metadata.len() as usize),
            Err(_) => Err(DiskFailed),
        }
    }

    fn read(&mut self, at: usize, bytes: &mut [u8]) -> Result<(), DiskFailed> {
        self.file
            .read_exact_at(bytes, at as u64)
            .map_err(|_| DiskFailed)
    }

    fn write_at(&mut self, _at: usize, _bytes: &[u8]) -> Result<(), DiskFailed> {
        Err(DiskFailed)
    }

    fn cut(&mut self, _len: usize) -> Result<(), DiskFailed> {
        Err(DiskFailed)
    }

    fn sync(&mut self) -> Result<(), DiskFailed> {
        Err(DiskFailed)
    }

    fn renew(&mut self) -> Result<(), DiskFailed> {
        Err(DiskFailed)
    }
}
