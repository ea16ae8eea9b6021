use crate::{RxNode, RxTurn};
use sig_logs::Watched;
use sig_outside::Disk;

impl<D: Disk> Watched for RxNode<D> {
    type Turn = RxTurn;

    ghost use Rattle.std.specs.Prelude.{is_some};

    ghost turns_of = { λ n. n.turns };

    ghost broken = { λ n. is_some n.kept.store.broken_at };

    fn is_broken(&self) -> bool {
        self.broken_at().is_some()
    }
}
