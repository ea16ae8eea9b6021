//! `fold` over the lines of its input: a verdict for each, and then the session table.

ghost use Rattle.std.specs.Prelude.{◌≡◌, ◌++◌, ℕ, List, [], OnErr, OnOk, option_copied};
ghost use Rattle.sig_json.specs.declared.limits.TheConstants.{TOKEN_BYTES};
ghost use Rattle.sig_receiver.specs.Printed.{answer_text};
ghost use Rattle.sig_receiver.specs.Receiver.{StandsFor};
ghost use Rattle.sig_command.specs.Telling.{IsLineOf};
ghost use Rattle.sig_fold.specs.Fold.{fold_telling, journal_after, journal_of, line_text};

use crate::print_table;
use sig_command::{LinesEnd, TellFault, Teller};
use sig_json::limits::TOKEN_BYTES;
use sig_json::{Bytes, Memory, Text};
use sig_outside::Sink;
use sig_receiver::{Heard, Receiver, answer_line};
use sig_set::{Code, PreparedTrust, Spot};
use std::alloc::Global;

/// Judges each line as a token of an issuer, who is the principal too, and keeps what was taken.
#[derive(Drop)]
pub struct Folder {
    alloc: Global,
    trust: PreparedTrust,
    issuer: Text,
    receiver: Receiver,
}

impl Folder {
    /// One that judged nothing yet.
    pub fn new(alloc: Global, trust: PreparedTrust, issuer: Text) -> Folder
        ensures trust { result.trust ≡ trust }
        ensures issuer { result.issuer ≡ issuer }
        ensures receiver { StandsFor result.receiver [] }
    {
        Folder {
            alloc,
            trust,
            issuer,
            receiver: Receiver::new(alloc),
        }
    }

    // Judges a line, none where it is longer than a token may be, and adds its verdict to what is gathered. Out of
    // memory adds nothing.
    fn judge(
        &mut self,
        number: u64,
        line: Option<&[u8]>,
        gathered: &mut Bytes,
    ) -> Result<(), Memory>
        ensures trust { self.new.trust ≡ self.old.trust }
        ensures issuer { self.new.issuer ≡ self.old.issuer }
        ensures text { OnOk result ((bytes : List ℕ) (journal : List (List ℕ)) → IsLineOf TOKEN_BYTES (option_copied line.entry) bytes
            → StandsFor self.old.receiver journal → gathered.new ≡ gathered.old ++ line_text self.old.trust self.old.issuer number journal bytes) }
        ensures kept { OnOk result ((bytes : List ℕ) (journal : List (List ℕ)) → IsLineOf TOKEN_BYTES (option_copied line.entry) bytes
            → StandsFor self.old.receiver journal → StandsFor self.new.receiver (journal_after self.old.trust self.old.issuer journal bytes)) }
        ensures err { OnErr result (gathered.new ≡ gathered.old) }
    {
        match line {
            Some(bytes) => self.judge_bytes(number, bytes, gathered),
            None => self.refuse_long(number, gathered),
        }
    }

    // Judges the bytes of a line; an empty line is passed over.
    fn judge_bytes(&mut self, number: u64, bytes: &[u8], gathered: &mut Bytes) -> Result<(), Memory>
        ensures trust { self.new.trust ≡ self.old.trust }
        ensures issuer { self.new.issuer ≡ self.old.issuer }
        ensures text { OnOk result ((journal : List (List ℕ)) → StandsFor self.old.receiver journal
            → gathered.new ≡ gathered.old ++ line_text self.old.trust self.old.issuer number journal bytes.now) }
        ensures kept { OnOk result ((journal : List (List ℕ)) → StandsFor self.old.receiver journal
            → StandsFor self.new.receiver (journal_after self.old.trust self.old.issuer journal bytes.now)) }
        ensures err { OnErr result (gathered.new ≡ gathered.old) }
    {
        if bytes.is_empty() {
            return Ok(());
        }
        let heard = self
            .receiver
            .hear(&self.trust, Some(&self.issuer), None, bytes)?;
        self.add_verdict(number, &heard, gathered)
    }

    // A line that is longer than a token may be is refused without its bytes.
    fn refuse_long(&self, number: u64, gathered: &mut Bytes) -> Result<(), Memory>
        ensures text { OnOk result (gathered.new ≡ gathered.old ++ answer_text number (Heard.NotTaken Code.InvalidRequest Spot.Length)) }
        ensures err { OnErr result (gathered.new ≡ gathered.old) }
    {
        let heard = Heard::NotTaken {
            code: Code::InvalidRequest,
            spot: Spot::Length,
        };
        self.add_verdict(number, &heard, gathered)
    }

    fn add_verdict(&self, number: u64, heard: &Heard, gathered: &mut Bytes) -> Result<(), Memory>
        ensures text { OnOk result (gathered.new ≡ gathered.old ++ answer_text number heard.now) }
        ensures err { OnErr result (gathered.new ≡ gathered.old) }
    {
        let text = answer_line(self.alloc, number, heard)?;
        gathered.add(text.as_str().as_bytes())
    }
}

impl Teller for Folder {
    ghost use Rattle.sig_fold.specs.FoldLaws.{fold-grows, fold-starts, fold-stays};

    ghost told = { λ f. fold_telling f.trust f.issuer };

    ghost stands = { λ f given. StandsFor f.receiver (journal_of f.trust f.issuer [] given) };

    ghost room = { TOKEN_BYTES };

    ghost starts = { λ f. fold-starts f.trust f.issuer };

    ghost grows = { λ f. fold-grows f.trust f.issuer };

    ghost stays = { λ f. fold-stays f.trust f.issuer };

    fn room() -> usize {
        TOKEN_BYTES
    }

    fn tell(
        &mut self,
        number: u64,
        line: Option<&[u8]>,
        gathered: &mut Bytes,
    ) -> Result<(), TellFault> {
        self.judge(number, line, gathered)?;
        Ok(())
    }

    fn close<O: Sink>(&self, gathered: &mut Bytes, output: &mut O) -> LinesEnd {
        let rows = self.receiver.rows();
        print_table(self.alloc, rows, self.receiver.tokens(), gathered, output)
    }
}
