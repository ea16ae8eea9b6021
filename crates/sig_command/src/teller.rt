ghost use Rattle.std.specs.Prelude.{◌≡◌, ◌++◌, ℕ, List, [], IfErr, OnOk, Option, None, Some, option_copied};
ghost use Rattle.sig_command.specs.Moment.{output_state};
ghost use Rattle.sig_command.specs.Telling.{PutSo, StopsAt, TakesLine, Telling, WhyPut};
ghost use Rattle.sig_command.specs.declared.stop.Stop.{Stop};

use crate::{LinesEnd, TellFault};
use sig_json::Bytes;
use sig_outside::Sink;

/// A command over the lines of its input.
///
/// Its meanings: `told` is what it prints of lines and where they stop it, which no line changes; `stands` says that it
/// has taken just these lines; `room` is how many bytes a line may have at most.
pub trait Teller {
    ghost told: { Self → Telling };

    ghost stands: { Self → List (List ℕ) → Type 0 };

    ghost room: { ℕ };

    /// How many bytes a line may have at most.
    fn room() -> usize
        ensures { result ≡ room };

    /// Takes a line, none where it has more bytes than there is room for, and gathers what it prints. After a fault
    /// nothing is gathered.
    fn tell(
        &mut self,
        number: u64,
        line: Option<&[u8]>,
        gathered: &mut Bytes,
    ) -> Result<(), TellFault>
        requires { (given : List (List ℕ)) × stands self.old given }
        ensures told { told self.new ≡ told self.old }
        ensures takes { OnOk result (TakesLine (told self.old) (stands self.old) (stands self.new) room number (option_copied line.entry) gathered.old gathered.new) }
        ensures stops { IfErr result (StopsAt (told self.old) (stands self.old) room number (option_copied line.entry)) }
        ensures none { IfErr result (λ fault. gathered.new ≡ gathered.old) };

    /// Prints what is gathered, and what follows the lines at the end of the input. The ending is `Done`, `Memory` or
    /// `Output`.
    fn close<O: Sink>(&self, gathered: &mut Bytes, output: &mut O) -> LinesEnd
        ensures text { (given : List (List ℕ)) → stands self.now given
            → PutSo (gathered.old ++ (told self.now).last given) (O.written output.old) (O.written output.new) result }
        ensures cause { WhyPut (output_state (O.written output.old) (O.faults output.old) (O.stalls output.old)) (output_state (O.written output.new) (O.faults output.new) (O.stalls output.new)) result };

    ghost starts: { (x : Self) → ((told x).text [] ≡ []) × ((told x).stop [] ≡ None) };

    ghost grows: { (x : Self) (given more : List (List ℕ))
        → (rest : List ℕ) × ((told x).text (given ++ more) ≡ (told x).text given ++ rest) };

    ghost stays: { (x : Self) (given more : List (List ℕ)) (s : Stop) → (told x).stop given ≡ Some s
        → ((told x).stop (given ++ more) ≡ Some s) × ((told x).text (given ++ more) ≡ (told x).text given) };
}
