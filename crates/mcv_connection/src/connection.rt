//! What a loop reads and writes.

use std::io;

/// A connection. It ends when it is dropped. A read or a write that would have to wait fails as `WouldBlock`.
pub trait Connection: Drop {
    ghost use Rattle.std.specs.Prelude.{ℕ, List, Option, None};
    ghost use Rattle.std.specs.Io.{ReadsAtMost, WritesAtMost};
    ghost use Rattle.std.specs.Io.KnownBytes.{Keeps, ReadConsumes, WriteAppends};

    /// The bytes that reads will give from here on, where they are known.
    ghost unread: { Self → Option (List ℕ) } = { λ _. None };

    /// The bytes that were written, where they are known.
    ghost written: { Self → Option (List ℕ) } = { λ _. None };

    /// Reads so many bytes into the front of the room; 0 at the end, or with no room.
    fn read(&mut self, room: &mut [u8]) -> io::Result<usize>
        ensures bound { ReadsAtMost result room.new }
        ensures bytes { ReadConsumes (unread self.old) (unread self.new) result room.new }
        ensures writes_nothing { Keeps (written self.old) (written self.new) };

    /// Writes so many of the bytes, from the first on.
    fn write(&mut self, bytes: &[u8]) -> io::Result<usize>
        ensures bound { WritesAtMost result bytes.now }
        ensures bytes { WriteAppends (written self.old) (written self.new) result bytes.now }
        ensures reads_nothing { Keeps (unread self.old) (unread self.new) };
}
