//! The words that a line may begin with.

/// What a line asks for.
#[derive(Clone, Copy, PartialEq, Eq)]
pub enum Word {
    /// The canonical text of a value.
    Json,
    /// The MAC of a message under a key.
    Mac,
    /// Whether a word spells a key.
    Key,
    /// The parts of a text in compact form.
    Split,
    /// A subject, written again.
    Subject,
    /// Whether two subjects are identical.
    Identical,
    /// Whether two subjects match.
    Matches,
    /// Whether the first of two subjects covers the second.
    Covers,
    /// An event's payload, written again.
    Event,
    /// Whom later lines trust.
    Trust,
    /// The judgement of a token.
    Judge,
    /// The claims of a token, without a judgement.
    Claims,
    /// The effect of a token's events.
    Take,
    /// A row of the session table.
    Row,
    /// What the session table says of a subject.
    Verdict,
    /// An empty session table.
    Clear,
    /// What a body wants of a stream.
    Want,
    /// A publication, read of its body.
    Publish,
    /// A stream's configuration, as it is told.
    Conf,
    /// Whether a stream delivers events of a URI.
    Delivers,
    /// Whether a subject is one of a stream's.
    Fits,
    /// What is read of bytes as an HTTP request.
    Request,
    /// What is read of bytes as an HTTP response.
    Response,
    /// A fact's record, encoded again.
    Record,
    /// A token's record, encoded again.
    TokenRecord,
    /// What the body of a poll asks.
    Ask,
    /// What the body of a poll's response hands out.
    Sets,
    /// What the response to a push settles.
    Outcome,
    /// What a request asks of a transmitter.
    Route,
    /// The response to an answer of a transmitter.
    Reply,
}

impl Word {
    /// The word of this name. None exactly where no word has it.
    pub fn named(name: &str) -> Option<Word> {
        match name {
            "json" => Some(Word::Json),
            "mac" => Some(Word::Mac),
            "key" => Some(Word::Key),
            "split" => Some(Word::Split),
            "subject" => Some(Word::Subject),
            "identical" => Some(Word::Identical),
            "matches" => Some(Word::Matches),
            "covers" => Some(Word::Covers),
            "event" => Some(Word::Event),
            "trust" => Some(Word::Trust),
            "judge" => Some(Word::Judge),
            "claims" => Some(Word::Claims),
            "take" => Some(Word::Take),
            "row" => Some(Word::Row),
            "verdict" => Some(Word::Verdict),
            "clear" => Some(Word::Clear),
            "want" => Some(Word::Want),
            "publish" => Some(Word::Publish),
            "conf" => Some(Word::Conf),
            "delivers" => Some(Word::Delivers),
            "fits" => Some(Word::Fits),
            "request" => Some(Word::Request),
            "response" => Some(Word::Response),
            "record" => Some(Word::Record),
            "token-record" => Some(Word::TokenRecord),
            "ask" => Some(Word::Ask),
            "sets" => Some(Word::Sets),
            "outcome" => Some(Word::Outcome),
            "route" => Some(Word::Route),
            "reply" => Some(Word::Reply),
            _ => None,
        }
    }
}
