//! Laws over the definitions: each function's contract is the law, and nothing calls it.

ghost use Rattle.sig_history.specs.Changes.{ConfiguringSetsWhatItSays, FactsLeaveOthers, ListingDecidesWhatIsDue, ListingPutsOn, StatusDecidesWhatIsOffered, StatusIsSet, UnlistingTakesOff};
ghost use Rattle.sig_owing.specs.Reported.{RefusedWereReported};
ghost use Rattle.sig_owing.specs.Laws.{AskingAddsAVerification, DeletingLeavesNothing, DisablingLeavesItsOwnNotice, HistoriesJoin, NamesAreUsedOnce, OwedNumbersRise, OwesWhatIsLeft, PausingKeepsWhatIsOwed, PublishingAddsWhereDue, SettlingTakesOffTheNamed, SoundHistoriesAreWhole, SoundHistoriesJoin, StreamsAreSorted};

/// A history may be taken up where an earlier part of it ended: the sum of both parts is that of the second over that of
/// the first, whatever the base. So a checkpoint loses nothing.
pub fn histories_join()
    ensures { HistoriesJoin }
{}

/// Facts that fit, and then facts that fit what those came to, make a sound history, and no others do.
pub fn sound_histories_join()
    ensures { SoundHistoriesJoin }
{}

/// Of all tokens that facts make over a new store, a stream owes those of its own that no later fact takes off.
pub fn owed_is_what_no_later_fact_takes_off()
    ensures { OwesWhatIsLeft }
{}

/// A sound history over a base that is whole comes to what is whole: streams stand once and in order, and what each owes is
/// its own, with numbers that rise.
pub fn sound_histories_are_whole()
    ensures { SoundHistoriesAreWhole }
{}

/// The streams of a sound history over a new store stand in order: each before the next by client name, and of one client
/// by number.
pub fn streams_stand_in_order()
    ensures { StreamsAreSorted }
{}

/// The numbers of the tokens that a stream owes rise, after every sound history over a new store.
pub fn owed_numbers_rise()
    ensures { OwedNumbersRise }
{}

/// The names of all streams that a sound history makes differ from each other, whatever base it starts from and whatever it
/// deletes between: the number of a stream that was deleted is never given again.
pub fn names_are_used_once()
    ensures { NamesAreUsedOnce }
{}

/// Where a publication's news are due on a stream, it owes what it owed before and then the token that tells them; a stream
/// on which they aren't due owes what it owed before (Shared Signals Framework 1.0, section 7).
pub fn publishing_adds_where_due()
    ensures { PublishingAddsWhereDue }
{}

/// A stream of which a verification was asked owes what it owed before, and then the verification with its state (Shared
/// Signals Framework 1.0, section 8.1.4).
pub fn asking_adds_a_verification()
    ensures { AskingAddsAVerification }
{}

/// A stream of which tokens were settled owes the others, in the order that they had (RFC 8935, section 2; RFC 8936,
/// section 2).
pub fn settling_takes_off_the_named()
    ensures { SettlingTakesOffTheNamed }
{}

/// A stream whose status is set, and isn't disabled by it, owes what it owed before, and then the token that tells the new
/// status, where the operator set it (Shared Signals Framework 1.0, sections 8.1.2 and 8.1.5).
pub fn pausing_keeps_what_is_owed()
    ensures { PausingKeepsWhatIsOwed }
{}

/// A stream that is disabled owes the token that tells so, where the operator disabled it, and no other (Shared Signals
/// Framework 1.0, sections 8.1.2 and 8.1.5).
pub fn disabling_leaves_its_own_notice()
    ensures { DisablingLeavesItsOwnNotice }
{}

/// Each token that a sound history over a new store keeps as reported was made, and was owed when a fact settled it with the code
/// that is kept (RFC 8935, section 2.3; RFC 8936, section 2.4).
pub fn refused_were_reported()
    ensures { RefusedWereReported }
{}

/// The name of a stream that was deleted stands no more and owes nothing (Shared Signals Framework 1.0, section 8.1.1).
pub fn deleting_leaves_nothing()
    ensures { DeletingLeavesNothing }
{}

/// A fact that names a stream leaves every other stream, and what it owes, as they were (Shared Signals Framework 1.0,
/// section 8.1).
pub fn facts_leave_other_streams()
    ensures { FactsLeaveOthers }
{}

/// A stream that is configured has the requested list, the delivery and the description that the fact says, and all else of it
/// is as before (Shared Signals Framework 1.0, sections 8.1.1.3 and 8.1.1.4).
pub fn configuring_sets_what_it_says()
    ensures { ConfiguringSetsWhatItSays }
{}

/// A stream whose status is set has that status and that reason, and all else of it is as before, but that the operator's makes
/// one token more (Shared Signals Framework 1.0, sections 8.1.2 and 8.1.5).
pub fn status_is_set()
    ensures { StatusIsSet }
{}

/// A subject that is listed was on the list, which then stays, or stands last on it afterwards (Shared Signals Framework 1.0,
/// section 8.1.3).
pub fn listing_puts_on()
    ensures { ListingPutsOn }
{}

/// A subject that is unlisted isn't on the list, and every other is where it was (Shared Signals Framework 1.0, section 8.1.3).
pub fn unlisting_takes_off()
    ensures { UnlistingTakesOff }
{}

/// On a stream that isn't disabled and delivers the event, a publication is due on a subject that was listed where no subject
/// is one of the stream's by default; where all are, it is due on one that was unlisted, and not on one that was listed
/// (Shared Signals Framework 1.0, sections 7.1 and 8.1.3).
pub fn listing_decides_what_is_due()
    ensures { ListingDecidesWhatIsDue }
{}

/// An enabled stream offers all that it owes, and a paused or disabled one the tokens alone that tell that its status changed
/// (Shared Signals Framework 1.0, sections 8.1.2 and 8.1.5).
pub fn status_decides_what_is_offered()
    ensures { StatusDecidesWhatIsOffered }
{}
