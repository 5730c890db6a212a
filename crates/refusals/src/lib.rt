// Why a call or a record is turned away: the refusals of documents 01 and 02, each with its number there.
#![tactic(auto)]

ghost use Rattle.std.specs.Prelude.{◌≡◌};
ghost use Rattle.refusals.specs.Numbers.{number};

#[derive(Clone, Copy, Debug, PartialEq, Eq)]
pub enum Refusal {
    // No header mark comes first, or a file is longer than one can be.
    File = 1,
    // A value of the header is out of range.
    Header = 2,
    // No whole record follows.
    Record = 3,
    // A kind above 6, or a step that is none.
    Kind = 4,
    // A field that is not used is not 0.
    Unused = 5,
    // A field names what is not there, or is out of range.
    Range = 6,
    // What is lent does not hold together.
    Tables = 10,
    // The role or the stage of the run does not fit.
    Stage = 11,
    // The clock does not go back.
    Clock = 12,
    // No room for a run.
    RunsFull = 13,
    // The message has another form.
    Form = 14,
    // The intruder cannot build the message.
    Underivable = 15,
    // The ticket's life is over.
    Ticket = 16,
    // The authenticator's life is over.
    Authenticator = 17,
    // The entry is in the replay cache.
    Replay = 18,
    // No room in the replay cache.
    CacheFull = 19,
    // No room for the new terms.
    TermsFull = 20,
    // No room in the buffer.
    Room = 21,
    // The authenticator's time is too far ahead of the clock.
    Ahead = 22,
}

impl From<Refusal> for u8 {
    ghost from_gives = { λ refusal n. n ≡ number refusal };

    fn from(refusal: Refusal) -> u8 {
        refusal as u8
    }
}
