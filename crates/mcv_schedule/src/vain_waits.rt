//! How often requests have waited for the next chapter of a hub in vain.

ghost use Rattle.std.specs.Prelude.{◌≡◌};
ghost use Rattle.mcv_schedule.specs.VainWaits.{are_enough, is_nearly_full, never, noted, seen};

use mcv_watch::Load;

/// From so many entries of its history on a chapter is nearly full: three quarters of 1,000,000.
const NEARLY_ALL_ENTRIES: u64 = 750_000;

/// The same of bytes: 160 MiB.
const NEARLY_ALL_BYTES: u64 = 160 << 20;

/// How often requests have waited for a second for the next chapter of a hub, which couldn't begin. They wait once, and once more when
/// the chapter is nearly full, since slow calls may have ended by then; else they begin in this one.
#[derive(Clone, Copy)]
pub struct VainWaits {
    /// The chapter's number.
    chapter: u64,
    is_nearly_full: bool,
    count: u8,
}

/// Whether a chapter is nearly full.
fn is_nearly_full(load: Load) -> bool
    ensures { result ≡ is_nearly_full load }
{
    load.entries >= NEARLY_ALL_ENTRIES || load.bytes >= NEARLY_ALL_BYTES
}

impl VainWaits {
    /// None, in the first chapter.
    pub fn new() -> VainWaits
        ensures { result ≡ never }
    {
        VainWaits {
            chapter: 0,
            is_nearly_full: false,
            count: 0,
        }
    }

    /// Requests have waited for a second.
    pub fn noted(self) -> VainWaits
        ensures { result ≡ noted self }
    {
        VainWaits {
            count: self.count.saturating_add(1),
            ..self
        }
    }

    /// The hub is as full as this. None have waited in a chapter that has just begun.
    pub fn seen(self, load: Load) -> VainWaits
        ensures { result ≡ seen self load }
    {
        let count = if load.chapter == self.chapter {
            self.count
        } else {
            0
        };
        VainWaits {
            chapter: load.chapter,
            is_nearly_full: is_nearly_full(load),
            count,
        }
    }

    /// Whether requests begin in this chapter without a wait.
    pub fn are_enough(self) -> bool
        ensures { result ≡ are_enough self }
    {
        if self.is_nearly_full {
            self.count >= 2
        } else {
            self.count >= 1
        }
    }
}
