//! How much of a client is served at a time.

/// The bytes of one read.
pub(crate) const PIECE: usize = 16_384;

/// The most pieces that are read in a row of one client, so that others come too.
pub(crate) const MOST_PIECES: usize = 16;

/// From so many bytes of its output on that aren't written a client isn't read: 1 MiB.
pub(crate) const MOST_OUTPUT: usize = 1 << 20;

/// More turns than come.
pub(crate) const TURNS: u64 = u64::MAX;
