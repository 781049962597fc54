//! One file as the spool sees it.

ghost use Rattle.std.specs.Prelude.{◌≡◌, ◌+◌, ◌<◌, ◌≤◌, ℕ, List, length, take, drop, IfOk, OnOk, OnErr};
ghost use Rattle.mcv_spool.specs.Disk.{Changes, Cut, IsQuiet, Only, Torn, written};

use thiserror::Error;

/// A call of the disk failed.
#[derive(Clone, Copy, Debug, PartialEq, Eq, Error)]
#[error("the disk failed")]
pub struct DiskFailed;

/// A disk with one file. Its clauses hold of a type that keeps the model; no code can see whether a real file does.
pub trait Disk: Drop {
    /// Disks of this type keep the model that the clauses below state.
    ghost keeps_model: { Type 0 };

    /// What a read gives.
    ghost seen: { Self → List ℕ };

    /// What a crash now may leave.
    ghost may_leave: { Self → List ℕ → Type 0 };

    /// This moment, as a number that doesn't fall.
    ghost moment: { Self → ℕ };

    /// What a crash at any moment since the given one may have left.
    ghost left_since: { Self → ℕ → List ℕ → Type 0 };

    /// A number that grows with each call that fails.
    ghost failures: { Self → ℕ };

    /// The length of the file, in bytes.
    fn len(&mut self) -> Result<usize, DiskFailed>
        ensures len { keeps_model → IfOk result (λ n. n ≡ length (seen self.old)) }
        ensures quiet { keeps_model → IsQuiet seen may_leave moment left_since self.old self.new }
        ensures counts { keeps_model → failures self.old ≤ failures self.new }
        ensures cause { keeps_model → OnErr result (failures self.old < failures self.new) };

    /// The bytes at this offset, as many as there is room for.
    fn read(&mut self, at: usize, bytes: &mut [u8]) -> Result<(), DiskFailed>
        requires { keeps_model → at + length bytes.old ≤ length (seen self.old) }
        ensures read { keeps_model → OnOk result (bytes.new ≡ take (length bytes.old) (drop at (seen self.old))) }
        ensures quiet { keeps_model → IsQuiet seen may_leave moment left_since self.old self.new }
        ensures counts { keeps_model → failures self.old ≤ failures self.new }
        ensures cause { keeps_model → OnErr result (failures self.old < failures self.new) };

    /// Writes bytes at this offset, over what is there and past the end. Until a sync, a crash may leave any bytes in that range, and any length between.
    fn write_at(&mut self, at: usize, bytes: &[u8]) -> Result<(), DiskFailed>
        requires { keeps_model → at ≤ length (seen self.old) }
        ensures written { keeps_model → OnOk result (seen self.new ≡ written (seen self.old) at bytes.now) }
        ensures changes { keeps_model → Changes may_leave moment left_since (Torn at (length bytes.now)) self.old self.new }
        ensures counts { keeps_model → failures self.old ≤ failures self.new }
        ensures cause { keeps_model → OnErr result (failures self.old < failures self.new) };

    /// Cuts the file to so many bytes. Until a sync, a crash may leave any length between, and any bytes there.
    fn cut(&mut self, len: usize) -> Result<(), DiskFailed>
        requires { keeps_model → len ≤ length (seen self.old) }
        ensures cut { keeps_model → OnOk result (seen self.new ≡ take len (seen self.old)) }
        ensures changes { keeps_model → Changes may_leave moment left_since (Cut len) self.old self.new }
        ensures counts { keeps_model → failures self.old ≤ failures self.new }
        ensures cause { keeps_model → OnErr result (failures self.old < failures self.new) };

    /// After it, a crash leaves what a read gives.
    fn sync(&mut self) -> Result<(), DiskFailed>
        ensures durable { keeps_model → OnOk result (Only (seen self.old) (may_leave self.new)) }
        ensures quiet { keeps_model → IsQuiet seen may_leave moment left_since self.old self.new }
        ensures counts { keeps_model → failures self.old ≤ failures self.new }
        ensures cause { keeps_model → OnErr result (failures self.old < failures self.new) };

    /// Makes the disk one whose answers can be trusted again, where an earlier call failed. What a read gives stays.
    fn renew(&mut self) -> Result<(), DiskFailed>
        ensures quiet { keeps_model → IsQuiet seen may_leave moment left_since self.old self.new }
        ensures counts { keeps_model → failures self.old ≤ failures self.new }
        ensures cause { keeps_model → OnErr result (failures self.old < failures self.new) };

    /// What a read gives is one of the files that a crash may leave.
    ghost read_may_stay: { keeps_model → (disk : Self) → may_leave disk (seen disk) };

    /// This moment is one of those since an earlier one.
    ghost counts_now: { keeps_model → (disk : Self) (t : ℕ) (c : List ℕ) → t ≤ moment disk → may_leave disk c → left_since disk t c };

    /// Since this moment there is no other.
    ghost only_now: { keeps_model → (disk : Self) (c : List ℕ) → left_since disk (moment disk) c → may_leave disk c };
}
