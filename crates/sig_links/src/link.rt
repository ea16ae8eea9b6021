ghost use Rattle.std.specs.Prelude.{◌≡◌, ℕ, List, Option, Some};

use sig_outside::{Sink, Source};

/// A connection: what it gives is read as a source, and what it is sent is put as to a sink.
///
/// Its meaning `dialled` is the host and port that were dialled, and none of a link that was accepted. A link has two
/// counts of faults, of its reads and of its writes; "the link's count" is their sum.
pub trait Link: Source + Sink {
    ghost dialled: { Self → Option (List ℕ × ℕ) };

    /// Ends a link that was served: nothing more will be written to it, and some of what its peer still sends is passed over,
    /// so that the last of what was written isn't lost (RFC 9112, section 9.6). It may wait for the peer, within limits of
    /// its own.
    fn finish(&mut self)
        ensures told { (Self.left self.new ≡ Self.left self.old) × (Self.written self.new ≡ Self.written self.old) }
        ensures faults { (Self.Source.faults self.new ≡ Self.Source.faults self.old) × (Self.Sink.faults self.new ≡ Self.Sink.faults self.old) }
        ensures place { dialled self.new ≡ dialled self.old };

    /// A read leaves what was written, the count of the writes, and where the link was dialled.
    ghost beside_reads: { (link : Self) → Self.Source.beside link ≡ Some (record { bytes = Self.written link; faults = Self.Sink.faults link; place = dialled link }) };

    /// A write leaves what is left to read, the count of the reads, and where the link was dialled.
    ghost beside_writes: { (link : Self) → Self.Sink.beside link ≡ Some (record { bytes = Self.left link; faults = Self.Source.faults link; place = dialled link }) };

    /// A write takes something of a piece that isn't empty, or fails.
    ghost moves: { (link : Self) → Self.stalls link ≡ 0 };
}
