// A case of votes, as its line gives it.
ghost use Rattle.std.specs.Prelude.{◌≤◌, length, IfOk, Ok, OnOk};
ghost use Rattle.std.specs.List.{AllWithin};
ghost use Rattle.std.specs.Char.{IsAsciiDigit};

use arrayvec::ArrayVec;
use std::num::ParseIntError;
use std::str::{FromStr, Utf8Error};

// The longest output of a case.
pub const LONGEST: usize = 40;

// The thresholds, the length of the output and the votes.
#[derive(Drop)]
pub struct Case {
    pub read: u64,
    pub write: u64,
    pub length: usize,
    pub votes: ArrayVec<u8, 20>,
    ghost fits: { length ≤ 40 },
}

// Why a case cannot be run.
#[derive(Debug, Drop)]
pub enum Unfit {
    NoNumber,
    TooFewWords,
    TooManyVotes,
    OutputTooLong,
}

impl From<ParseIntError> for Unfit {
    fn from(_: ParseIntError) -> Unfit {
        Unfit::NoNumber
    }
}

impl From<Utf8Error> for Unfit {
    fn from(_: Utf8Error) -> Unfit {
        Unfit::NoNumber
    }
}

// A number in decimal digits, with no sign.
fn number<N: FromStr<Err = ParseIntError>>(word: &str) -> Result<N, Unfit>
    ensures digits { OnOk result (AllWithin IsAsciiDigit word.now 0 (length word.now)) }
    ensures value { IfOk result (λ n. N.from_str_gives word.now (Ok n)) }
{
    if !word.bytes().all(|b| b.is_ascii_digit()) {
        return Err(Unfit::NoNumber);
    }
    Ok(word.parse::<N>()?)
}

impl FromStr for Case {
    type Err = Unfit;

    fn from_str(text: &str) -> Result<Case, Unfit> {
        let mut words = text.split(' ').filter(|word| !word.is_empty());
        let read = number(words.next().ok_or(Unfit::TooFewWords)?)?;
        let write = number(words.next().ok_or(Unfit::TooFewWords)?)?;
        let length = number(words.next().ok_or(Unfit::TooFewWords)?)?;
        if length > LONGEST {
            return Err(Unfit::OutputTooLong);
        }
        let mut votes = ArrayVec::new();
        for word in words {
            let vote = number(word)?;
            votes.try_push(vote).map_err(|_| Unfit::TooManyVotes)?;
        }
        Ok(Case {
            read,
            write,
            length,
            votes,
        })
    }
}

impl TryFrom<&[u8]> for Case {
    type Error = Unfit;

    fn try_from(text: &[u8]) -> Result<Case, Unfit> {
        str::from_utf8(text)?.parse::<Case>()
    }
}
