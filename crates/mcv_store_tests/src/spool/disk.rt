//! A disk in memory that keeps a record of its calls, fails at one or stops at one, and the files that a crash may leave of it.
//! It says nothing of the model, so it isn't proved to keep it: the tests run on it.

ghost use Rattle.std.specs.Prelude.{[]};

use mcv_spool::{Disk, DiskFailed};
use std::alloc::{AllocError, Global};

/// What a call of the disk was; of a write how many bytes it was to write.
#[derive(Clone, Copy, Debug, PartialEq, Eq)]
pub(crate) enum Call {
    Renew,
    Len,
    Read,
    Write(usize),
    Cut,
    Sync,
}

impl Call {
    /// How many bytes it writes.
    pub(crate) fn size(self) -> usize {
        match self {
            Call::Write(size) => size,
            _ => 0,
        }
    }
}

/// What becomes of the call of a number.
#[derive(Clone, Copy, Debug, PartialEq, Eq)]
pub(crate) enum Trouble {
    None,
    /// It fails; of a write so many bytes are written.
    Fails { call: usize, bytes: usize },
    /// The machine stops in it: of a write so many bytes are seen, and no later call does anything.
    Stops { call: usize, bytes: usize },
    /// Before it another program writes this byte at this place.
    Spoils { call: usize, at: usize, byte: u8 },
}

/// Which of the files that a crash may leave is taken.
#[derive(Clone, Copy, Debug, PartialEq, Eq)]
pub(crate) enum Left {
    /// What was synced.
    Synced,
    /// What a read gives.
    Seen,
    /// This byte wherever one was written since the last sync, in a file as long or as short as it was since.
    Filled { byte: u8, is_long: bool },
}

#[derive(Drop)]
pub(crate) struct TestDisk {
    alloc: Global,
    pub(crate) bytes: Vec<u8>,
    synced: Vec<u8>,
    /// The ranges that were written since the last sync, each with its offset and its length.
    unsynced: Vec<(usize, usize)>,
    /// The least and the greatest length since the last sync.
    least: usize,
    greatest: usize,
    pub(crate) calls: Vec<Call>,
    pub(crate) trouble: Trouble,
}

/// A test disk that a spool borrows.
#[derive(Drop)]
pub(crate) struct Borrowed<'a> {
    pub(crate) disk: &'a mut TestDisk,
}

/// What a call has to do.
#[derive(Clone, Copy, PartialEq, Eq)]
enum Turn {
    All,
    /// Of a write so many bytes, and then it fails.
    Part(usize),
    Nothing,
}

impl TestDisk {
    /// A disk with this file, which is synced.
    pub(crate) fn new(alloc: Global, bytes: Vec<u8>) -> Result<TestDisk, AllocError> {
        let synced = bytes.to_vec(alloc)?;
        Ok(TestDisk {
            alloc,
            least: bytes.len(),
            greatest: bytes.len(),
            bytes,
            synced,
            unsynced: Vec::new(alloc),
            calls: Vec::new(alloc),
            trouble: Trouble::None,
        })
    }

    /// How often a call of this kind was made.
    pub(crate) fn count(&self, call: Call) -> usize {
        self.calls.iter().filter(|made| **made == call).count()
    }

    fn spoil(&mut self, at: usize, byte: u8) {
        if let Some(there) = self.bytes.get_mut(at) {
            *there = byte;
        }
    }

    fn turn(&mut self, call: Call) -> Result<Turn, AllocError> {
        let number = self.calls.len();
        self.calls.push(call)?;
        Ok(match self.trouble {
            Trouble::Fails { call, bytes } if call == number => Turn::Part(bytes),
            Trouble::Stops { call, bytes } if call == number => Turn::Part(bytes),
            Trouble::Stops { call, .. } if call < number => Turn::Nothing,
            Trouble::Spoils { call, at, byte } if call == number => {
                self.spoil(at, byte);
                Turn::All
            }
            _ => Turn::All,
        })
    }

    /// Whether a call that writes nothing is answered.
    fn is_answered(&mut self, call: Call) -> Result<bool, AllocError> {
        Ok(self.turn(call)? == Turn::All)
    }

    fn put(&mut self, at: usize, bytes: &[u8]) -> Result<(), AllocError> {
        for (i, byte) in bytes.iter().enumerate() {
            let place = at.saturating_add(i);
            match self.bytes.get_mut(place) {
                Some(there) => *there = *byte,
                None => self.bytes.push(*byte)?,
            }
        }
        Ok(())
    }

    fn write(&mut self, at: usize, bytes: &[u8]) -> Result<bool, AllocError> {
        let turn = self.turn(Call::Write(bytes.len()))?;
        let part = match turn {
            Turn::All => bytes,
            Turn::Part(size) => &bytes[..size.min(bytes.len())],
            Turn::Nothing => return Ok(false),
        };
        self.unsynced.push((at, bytes.len()))?;
        self.greatest = self.greatest.max(at.saturating_add(bytes.len()));
        self.put(at, part)?;
        Ok(turn == Turn::All)
    }

    /// A cut that fails or stops may have been made: it is, where some bytes are written.
    fn shorten(&mut self, len: usize) -> Result<bool, AllocError> {
        let turn = self.turn(Call::Cut)?;
        if turn == Turn::Nothing {
            return Ok(false);
        }
        self.least = self.least.min(len);
        if turn != Turn::Part(0) {
            self.bytes.truncate(len);
        }
        Ok(turn == Turn::All)
    }

    fn settle(&mut self) -> Result<bool, AllocError> {
        if !self.is_answered(Call::Sync)? {
            return Ok(false);
        }
        self.synced = self.bytes.to_vec(self.alloc)?;
        self.unsynced.clear();
        self.least = self.bytes.len();
        self.greatest = self.bytes.len();
        Ok(true)
    }

    /// The file with this byte wherever one was written since the last sync.
    fn filled(&self, byte: u8, len: usize) -> Result<Vec<u8>, AllocError> {
        let mut bytes = self.synced.to_vec(self.alloc)?;
        bytes.truncate(self.least);
        bytes.resize(len, byte)?;
        for (at, size) in &self.unsynced {
            fill(&mut bytes, *at, *size, byte);
        }
        Ok(bytes)
    }

    /// The file that a crash leaves.
    pub(crate) fn left(&self, left: Left) -> Result<Vec<u8>, AllocError> {
        match left {
            Left::Synced => self.synced.to_vec(self.alloc),
            Left::Seen => self.bytes.to_vec(self.alloc),
            Left::Filled { byte, is_long } => {
                self.filled(byte, if is_long { self.greatest } else { self.least })
            }
        }
    }
}

/// Puts the byte at so many places, as far as they are there.
fn fill(bytes: &mut Vec<u8>, at: usize, size: usize, byte: u8) {
    for i in 0..size {
        if let Some(there) = bytes.get_mut(at.saturating_add(i)) {
            *there = byte;
        }
    }
}

fn answer(done: Result<bool, AllocError>) -> Result<(), DiskFailed> {
    match done {
        Ok(true) => Ok(()),
        _ => Err(DiskFailed),
    }
}

impl Disk for Borrowed<'_> {
    ghost keeps_model = { ⊥ };

    ghost seen = { λ _. [] };

    ghost may_leave = { λ _ _. ⊥ };

    ghost moment = { λ _. 0 };

    ghost left_since = { λ _ _ _. ⊥ };

    ghost failures = { λ _. 0 };

    ghost read_may_stay = { λ none. absurd none };

    ghost counts_now = { λ none. absurd none };

    ghost only_now = { λ none. absurd none };

    fn len(&mut self) -> Result<usize, DiskFailed> {
        answer(self.disk.is_answered(Call::Len))?;
        Ok(self.disk.bytes.len())
    }

    fn read(&mut self, at: usize, bytes: &mut [u8]) -> Result<(), DiskFailed> {
        answer(self.disk.is_answered(Call::Read))?;
        for (i, byte) in bytes.iter_mut().enumerate() {
            match self.disk.bytes.get(at.saturating_add(i)) {
                Some(there) => *byte = *there,
                None => return Err(DiskFailed),
            }
        }
        Ok(())
    }

    fn write_at(&mut self, at: usize, bytes: &[u8]) -> Result<(), DiskFailed> {
        answer(self.disk.write(at, bytes))
    }

    fn cut(&mut self, len: usize) -> Result<(), DiskFailed> {
        answer(self.disk.shorten(len))
    }

    fn sync(&mut self) -> Result<(), DiskFailed> {
        answer(self.disk.settle())
    }

    /// It has nothing to mend.
    fn renew(&mut self) -> Result<(), DiskFailed> {
        answer(self.disk.is_answered(Call::Renew))
    }
}
