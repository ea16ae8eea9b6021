use crate::{Turn, TxNode};
use sig_logs::Watched;
use sig_outside::Disk;

impl<D: Disk> Watched for TxNode<D> {
    type Turn = Turn;

    ghost use Rattle.std.specs.Prelude.{is_some};

    ghost turns_of = { λ n. n.turns };

    ghost broken = { λ n. is_some n.store.broken_at };

    fn is_broken(&self) -> bool {
        self.broken_at().is_some()
    }
}
