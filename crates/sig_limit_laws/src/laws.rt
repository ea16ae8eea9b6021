//! Laws over constants: each function's contract is the law, and nothing calls it.

ghost use Rattle.sig_limit_laws.specs.Figures.{LinkFigures, MessageFigures, SettingFigures, StoreFigures, StreamFigures, TokenFigures};

/// A head section has at most 16,384 bytes and 64 fields; the body of a request at most 65,536 bytes, that of a response
/// 524,288. A chunk line has at most 256 bytes, the size of a chunk 16 digits, a trailer section 1,024 bytes; beside its
/// content a chunked body of a request has at most 7,424 bytes, one of a response 50,432. Five interim responses may come
/// before a response (RFC 9110, section 15.2; RFC 9112, section 7.1). Reading a request takes at most 93,440 bytes, reading a
/// response 595,200, and an exchange 3,571,200.
pub fn messages_have_these_figures()
    ensures { MessageFigures }
{}

/// A server serves at most 64 links at a time, each with at most 16 requests, and a watch 65,536. A link lasts at most 60
/// seconds; a request has to be there in 15, the next one to begin in 15, a read or a write to end in 30, a dialled link in 15,
/// and a dial over at most four addresses in 5. One that is asked to end looks each 250 milliseconds and has 250 more; after
/// the last response at most eight reads of 8,192 bytes wait 250 milliseconds each. One accept waits a second, and accepts that
/// lack what they need come each 100 milliseconds, for a minute.
pub fn links_have_these_figures()
    ensures { LinkFigures }
{}

/// A token has at most 8,192 bytes, and the payload of one that is made here 6,000. A secret key has 32 to 64 bytes and a name
/// of at most 64 characters, a MAC has 32 bytes (RFC 7518, section 3.2), a modulus 256 to 512 octets (RFC 7518, section 3.3),
/// and no number of a stream, a token or a time is above 2^62.
pub fn tokens_have_these_figures()
    ensures { TokenFigures }
{}

/// A client has at most 16 streams and a name of at most 32 characters, a page at most 32 tokens, and two verifications of a
/// stream may have to be 86,400 seconds apart at most. The URL of a push endpoint that is wanted has at most 2,048 bytes, and
/// its authorization 8,192. What a request wants of a stream has at most 655,360 bytes and as many items; what a fact sets of
/// one has at most 2^28 of each. The last 10,000 tokens that were reported as faulty are kept, with codes of at most 64 bytes,
/// and a page of them has at most 100.
pub fn streams_have_these_figures()
    ensures { StreamFigures }
{}

/// Settings have at most 1,048,576 bytes, 64 clients, 64 issuers with four keys each, and 64 principals; a line of a script has
/// at most 65,536 bytes, a page of the session table 256 rows, and 65,536 bytes are written in one piece.
pub fn settings_have_these_figures()
    ensures { SettingFigures }
{}

/// The header of a store has 35 bytes: a gate, `SIGJ`, the version 1, whose it is, a generation, a name of 16 bytes and a
/// length. A record's head has 5 bytes, and a gate is open where it is the byte 5a.
pub fn stores_have_these_figures()
    ensures { StoreFigures }
{}
