ghost use Rattle.std.specs.Prelude.{◌≡◌, ℕ, List, ◌≤◌, length, take, replicate, Bool, IsTrue, Option, IfOk, IfSome, OnOk};
ghost use Rattle.std.specs.Io.{ReadsAtMost};
ghost use Rattle.sig_outside.specs.Causes.{HasCause};
ghost use Rattle.sig_outside.specs.Disk.{with_bytes, Cut, Elapses, Follows, GetsShort, Only, ReadsAt, Stop, StopsAfter, Torn, Unchanged, Uses, rests_cut, rests_same, rests_synced, rests_written};

use crate::Failed;

/// A file on a disk, and what a crash may leave of it.
///
/// Its meanings: `seen` is the file as reads give it, and `told` says whether the disk tells it. `may_leave` are the images
/// that a crash now may leave; `moment` is a number that never falls, and `left_since` are the images that a crash at some
/// moment since an earlier one might have left, during a call or between two. `faults` counts the calls that failed and
/// never falls (it stands at 2^64 - 1). `stops` says whether the disk stands still where it is asked to; `stop` is then how
/// many calls it still makes and what it rests with. `short` says whether it was ever refused memory.
///
/// Between two syncs a crash may leave any bytes in each range that was written and past the old end, and any size that
/// stood since the last sync; bytes elsewhere stay. A call that fails may have been made in part.
pub trait Disk {
    ghost told: { Self → Bool };

    ghost seen: { Self → List ℕ };

    ghost may_leave: { Self → List ℕ → Type 0 };

    ghost moment: { Self → ℕ };

    ghost left_since: { Self → ℕ → List ℕ → Type 0 };

    ghost faults: { Self → ℕ };

    ghost stops: { Self → Bool };

    ghost stop: { Self → Option Stop };

    ghost short: { Self → Bool };

    /// The size in bytes. `Failed` comes only where the count of faults rose; this holds of each call.
    fn size(&mut self) -> Result<u64, Failed>
        ensures size { IfOk result (λ n. IsTrue (told self.old) → n ≡ length (seen self.old)) }
        ensures seen { seen self.new ≡ seen self.old }
        ensures images { Unchanged (may_leave self.old) (may_leave self.new) }
        ensures time { Elapses (moment self.old) (moment self.new) (left_since self.old) (left_since self.new) (may_leave self.new) }
        ensures kind { (told self.new ≡ told self.old) × (stops self.new ≡ stops self.old) }
        ensures stop { Uses rests_same (seen self.old) (stop self.old) (stop self.new) (short self.new) result }
        ensures short { GetsShort (short self.old) (short self.new) result }
        ensures cause { HasCause (faults self.old) (faults self.new) result };

    /// Reads from an offset into the front of the buffer, and answers how many bytes: fewer than fit only at the end.
    fn read_at(&mut self, at: u64, buf: &mut [u8]) -> Result<usize, Failed>
        ensures bound { ReadsAtMost result buf.new }
        ensures bytes { IfOk result (λ n. IsTrue (told self.old) → ReadsAt (seen self.old) at n buf.new) }
        ensures seen { seen self.new ≡ seen self.old }
        ensures images { Unchanged (may_leave self.old) (may_leave self.new) }
        ensures time { Elapses (moment self.old) (moment self.new) (left_since self.old) (left_since self.new) (may_leave self.new) }
        ensures kind { (told self.new ≡ told self.old) × (stops self.new ≡ stops self.old) }
        ensures stop { Uses rests_same (seen self.old) (stop self.old) (stop self.new) (short self.new) result }
        ensures short { GetsShort (short self.old) (short self.new) result }
        ensures cause { HasCause (faults self.old) (faults self.new) result };

    /// Writes all bytes at an offset, over what is there and past the end; a gap before them gets zeros.
    fn write_at(&mut self, at: u64, bytes: &[u8]) -> Result<(), Failed>
        ensures written { OnOk result (IsTrue (told self.old) → seen self.new ≡ with_bytes at bytes.now (seen self.old)) }
        ensures images { Follows (Torn at (length bytes.now)) (may_leave self.old) (may_leave self.new) }
        ensures time { Elapses (moment self.old) (moment self.new) (left_since self.old) (left_since self.new) (may_leave self.new) }
        ensures kind { (told self.new ≡ told self.old) × (stops self.new ≡ stops self.old) }
        ensures stop { Uses (rests_written at (length bytes.now)) (seen self.old) (stop self.old) (stop self.new) (short self.new) result }
        ensures short { GetsShort (short self.old) (short self.new) result }
        ensures cause { HasCause (faults self.old) (faults self.new) result };

    /// Cuts the file to this size; a shorter one stays as it is.
    fn cut(&mut self, size: u64) -> Result<(), Failed>
        ensures cut { OnOk result (IsTrue (told self.old) → seen self.new ≡ take size (seen self.old)) }
        ensures images { Follows (Cut size) (may_leave self.old) (may_leave self.new) }
        ensures time { Elapses (moment self.old) (moment self.new) (left_since self.old) (left_since self.new) (may_leave self.new) }
        ensures kind { (told self.new ≡ told self.old) × (stops self.new ≡ stops self.old) }
        ensures stop { Uses (rests_cut size) (seen self.old) (stop self.old) (stop self.new) (short self.new) result }
        ensures short { GetsShort (short self.old) (short self.new) result }
        ensures cause { HasCause (faults self.old) (faults self.new) result };

    /// After it a crash leaves what reads give, and nothing else.
    fn sync(&mut self) -> Result<(), Failed>
        ensures durable { OnOk result (Only (seen self.old) (may_leave self.new)) }
        ensures seen { seen self.new ≡ seen self.old }
        ensures images { Unchanged (may_leave self.old) (may_leave self.new) }
        ensures time { Elapses (moment self.old) (moment self.new) (left_since self.old) (left_since self.new) (may_leave self.new) }
        ensures kind { (told self.new ≡ told self.old) × (stops self.new ≡ stops self.old) }
        ensures stop { Uses rests_synced (seen self.old) (stop self.old) (stop self.new) (short self.new) result }
        ensures short { GetsShort (short self.old) (short self.new) result }
        ensures cause { HasCause (faults self.old) (faults self.new) result };

    /// Stands still after so many further calls, each later one failing, where the disk does that at all. No call of the
    /// device.
    fn stop_after(&mut self, calls: u64, fill: u8)
        ensures stop { StopsAfter (stops self.old) calls fill (stop self.new) }
        ensures seen { seen self.new ≡ seen self.old }
        ensures images { Unchanged (may_leave self.old) (may_leave self.new) }
        ensures time { Elapses (moment self.old) (moment self.new) (left_since self.old) (left_since self.new) (may_leave self.new) }
        ensures kind { (told self.new ≡ told self.old) × (stops self.new ≡ stops self.old) }
        ensures counts { (faults self.new ≡ faults self.old) × (short self.new ≡ short self.old) };

    /// What reads give is one of the images.
    ghost reads_now: { (file : Self) → IsTrue (told file) → may_leave file (seen file) };

    /// What the disk rests with is one of the images.
    ghost rests: { (file : Self) → IfSome (stop file) (λ stop. may_leave file stop.image) };

    /// This moment is one of those since an earlier one.
    ghost counts_now: { (file : Self) (t : ℕ) (image : List ℕ) → t ≤ moment file → may_leave file image → left_since file t image };

    /// Since this moment there is no other.
    ghost only_now: { (file : Self) (image : List ℕ) → left_since file (moment file) image → may_leave file image };
}
