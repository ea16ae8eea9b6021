ghost use Rattle.std.specs.Prelude.{◌≡◌, IfOk};

use sig_json::{Bytes, Copied, Memory, Same, Text, copy_optional};
use sig_subject::Subject;
use std::alloc::Global;

/// A call at the receiver.
#[derive(Drop)]
pub enum RxCall {
    /// A token comes (RFC 8935, section 2; RFC 8936, section 2.4).
    Token {
        /// The issuer for whom the bearer may speak, none where the bearer names nobody.
        principal: Option<Text>,
        /// The identifier under which a poll listed the token.
        named: Option<Text>,
        /// Its text.
        bytes: Bytes,
    },
    /// What the session table says of a subject is asked.
    Verdict {
        /// Whom it is about.
        subject: Subject,
    },
    /// A page of the session table is read.
    Rows {
        /// The place of its first row, counted from 0.
        from: u64,
    },
    /// The figures of the whole receiver are read.
    Figures,
}

impl RxCall {
    /// An equal call. Out of memory is its only error.
    pub fn copy(&self, alloc: Global) -> Result<RxCall, Memory>
        ensures { IfOk result (λ c. c ≡ self.now) }
    {
        match self {
            RxCall::Token {
                principal,
                named,
                bytes,
            } => Ok(RxCall::Token {
                principal: copy_optional(alloc, principal)?,
                named: copy_optional(alloc, named)?,
                bytes: bytes.copy(alloc)?,
            }),
            RxCall::Verdict { subject } => Ok(RxCall::Verdict {
                subject: subject.copy(alloc)?,
            }),
            RxCall::Rows { from } => Ok(RxCall::Rows { from: *from }),
            RxCall::Figures => Ok(RxCall::Figures),
        }
    }
}

impl Copied for RxCall {
    fn copied(&self, alloc: Global) -> Result<RxCall, Memory> {
        self.copy(alloc)
    }
}

impl Same for RxCall {
    fn same(&self, other: &RxCall) -> bool {
        match self {
            RxCall::Token {
                principal,
                named,
                bytes,
            } => match other {
                RxCall::Token {
                    principal: theirs,
                    named: listed,
                    bytes: text,
                } => principal.same(theirs) && named.same(listed) && bytes.same(text),
                _ => false,
            },
            RxCall::Verdict { subject } => match other {
                RxCall::Verdict { subject: theirs } => subject.same(theirs),
                _ => false,
            },
            RxCall::Rows { from } => match other {
                RxCall::Rows { from: theirs } => *from == *theirs,
                _ => false,
            },
            RxCall::Figures => matches!(other, RxCall::Figures),
        }
    }
}
