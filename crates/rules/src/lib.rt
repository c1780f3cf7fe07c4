// What the calls of the store answer: refusals, figures, and the reply that both make.
#![tactic(auto)]

ghost use Rattle.std.specs.Prelude.{◌≡◌};
ghost use Rattle.rules.specs.Outcome.{refusal_number, outcome_number, reply_to, plain_reply};

// Why a call is refused. The lowest number that applies is given; lay tests 2, then 1, then 3.
#[derive(Clone, Copy, PartialEq, Eq)]
pub enum Refusal {
    // The table is not sound; at lay, its length does not fit.
    Unsound = 1,
    // A station, item, put sort, link state, n or m that there is not.
    NoSuchThing = 2,
    // A configuration that is not valid.
    FalseConfiguration = 3,
    // An opening while a round is open.
    Busy = 4,
    // Poll, put, commit, abandon or diagnose without a round.
    Idle = 5,
    // A poll or put at a station that is off.
    OffTheBus = 6,
    // A poll while a put set is not empty.
    ReadingOver = 7,
    // A put or commit in a round that is not heard.
    Unheard = 8,
    // A put in a read, a configuration put in a write.
    WrongPut = 9,
    // The version or generation to be raised is the last.
    Spent = 10,
    // Commit lacks a write set.
    Short = 11,
    // A line that is no frame; no call gives it.
    FalseFrame = 12,
    // Not 1 to 16 stations, or thresholds that do not fit.
    FalseVotes = 13,
    // More than eight smallest sets on a side.
    TooManySets = 14,
    // At plan: polls in rising number are never heard.
    OutOfHearing = 15,
}

impl Refusal {
    pub fn number(self) -> u64
        ensures { result ≡ refusal_number self }
    {
        self as u64
    }
}

// The number of an outcome: 0 is done.
pub fn number_of(outcome: Result<(), Refusal>) -> u64
    ensures { result ≡ outcome_number outcome }
{
    outcome.map_or_else(Refusal::number, |()| 0)
}

// What a call that is done shows.
#[derive(Clone, Copy)]
pub struct Figures {
    pub first: u64,
    pub second: u64,
    pub third: u64,
}

impl Figures {
    pub fn one(first: u64) -> Figures
        ensures { result ≡ record { first = first; second = 0; third = 0 } }
    {
        Figures {
            first,
            second: 0,
            third: 0,
        }
    }
}

// The reply of a call: "Every reply is a number and three figures." The functions of the store return it.
#[repr(C)]
#[derive(Clone, Copy)]
pub struct Reply {
    pub number: u64,
    pub first: u64,
    pub second: u64,
    pub third: u64,
}

// A refusal has zero figures.
impl From<Result<Figures, Refusal>> for Reply {
    ghost from_gives = { λ outcome r. r ≡ reply_to outcome };

    fn from(outcome: Result<Figures, Refusal>) -> Reply {
        match outcome {
            Ok(figures) => Reply {
                number: 0,
                first: figures.first,
                second: figures.second,
                third: figures.third,
            },
            Err(refusal) => refusal.into(),
        }
    }
}

// Of a call that has no figures.
impl From<Result<(), Refusal>> for Reply {
    ghost from_gives = { λ outcome r. r ≡ plain_reply outcome };

    fn from(outcome: Result<(), Refusal>) -> Reply {
        Reply {
            number: number_of(outcome),
            first: 0,
            second: 0,
            third: 0,
        }
    }
}

impl From<Refusal> for Reply {
    ghost from_gives = { λ refusal r. r ≡ record { number = refusal_number refusal; first = 0; second = 0; third = 0 } };

    fn from(refusal: Refusal) -> Reply {
        Reply {
            number: refusal.number(),
            first: 0,
            second: 0,
            third: 0,
        }
    }
}
