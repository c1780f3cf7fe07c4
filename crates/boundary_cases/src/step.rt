// The steps of the script: a word and its numbers.
ghost use Rattle.std.specs.Prelude.{◌≡◌, ◌+◌, ◌-◌, ◌*◌, ◌^◌, ◌<◌, ◌≤◌};

use crate::call::Call;
use crate::rows::{Damaged, Laid};
use arrayvec::ArrayVec;

// What a step does on the table that is lent.
#[derive(Clone, Copy)]
pub enum Act {
    Call(Call),
    Byte { at: u64, value: u64 },
    Number { at: u64, value: u64 },
    Same,
    Form { n: u64, length: u64 },
    Eleven,
    Damaged(Damaged),
}

// One step: what is lent or kept from then on, or what is done on the table.
#[derive(Clone, Copy)]
pub enum Step {
    Lend { length: u64 },
    Pairs { length: u64 },
    Sets { read: u64, write: u64 },
    More { read: u64, write: u64 },
    Keep,
    Act(Act),
}

#[derive(Debug, Drop)]
pub struct UnknownWord;

// A step as it is written: its word, which is the last eight letters, and its three numbers.
#[derive(Drop)]
pub struct Written {
    word: ArrayVec<u8, 8>,
    numbers: [u64; 3],
}

// The letters are the bytes from `a` up, and the digits those below, but for the space.
fn is_letter(b: u8) -> bool {
    b >= b'a'
}

// A number with one more digit, the byte's low four bits modulo 10. From 1844674407370955161 on it is 18446744073709551610 and those bits
// modulo 6: of decimal digits the number itself, as long as it has 64 bits.
fn with_digit(number: u64, b: u8) -> u64
    ensures { 48 ≤ b → b < 58 → number * 10 + (b - 48) < 2 ^ 64 → result ≡ number * 10 + (b - 48) }
{
    let bits = (b % 16) as u64;
    if number < u64::MAX / 10 {
        number * 10 + bits % 10
    } else {
        u64::MAX / 10 * 10 + bits % 6
    }
}

// The numbers of the fields behind the first letter, which spaces part. The fields go round in four places, that of the word and those of
// the three numbers, and all digits that come to one place make one number.
fn numbers(text: &[u8]) -> [u64; 3] {
    let mut places = [0; 4];
    let start = text
        .iter()
        .position(|b| is_letter(*b))
        .unwrap_or(text.len());
    for (i, field) in text[start..].split(|b| *b == b' ').enumerate() {
        let digits = field.iter().filter(|b| !is_letter(**b));
        let place = &mut places[i % 4];
        *place = digits.fold(*place, |number, b| with_digit(number, *b));
    }
    let [_, first, second, third] = places;
    [first, second, third]
}

// The last eight letters.
fn word(text: &[u8]) -> ArrayVec<u8, 8> {
    let mut word = ArrayVec::<u8, 8>::new();
    for letter in text.iter().copied().filter(|b| is_letter(*b)) {
        if word.is_full() {
            word.remove(0);
        }
        word.push(letter);
    }
    word
}

impl Written {
    pub fn read(text: &[u8]) -> Written {
        Written {
            word: word(text),
            numbers: numbers(text),
        }
    }
}

impl TryFrom<&Written> for Call {
    type Error = UnknownWord;

    fn try_from(written: &Written) -> Result<Call, UnknownWord> {
        let [a, b, c] = written.numbers;
        Ok(match written.word.as_slice() {
            b"lay" => Call::Lay {
                n: a,
                m: b,
                value: c,
            },
            b"read" => Call::Read(a),
            b"write" => Call::Write { item: a, value: b },
            b"change" => Call::Change(a),
            b"poll" => Call::Poll(a),
            b"put" => Call::Put {
                station: a,
                sort: b,
            },
            b"commit" => Call::Commit,
            b"abandon" => Call::Abandon,
            b"link" => Call::Link {
                station: a,
                state: b,
            },
            b"reach" => Call::Reach(a),
            b"diagnose" => Call::Diagnose,
            b"plan" => Call::Plan(a),
            _ => return Err(UnknownWord),
        })
    }
}

impl TryFrom<&Written> for Act {
    type Error = UnknownWord;

    fn try_from(written: &Written) -> Result<Act, UnknownWord> {
        let [a, b, c] = written.numbers;
        let damaged = |laid| {
            Act::Damaged(Damaged {
                laid,
                round: a,
                at: b,
                value: c,
            })
        };
        Ok(match written.word.as_slice() {
            b"byte" => Act::Byte { at: a, value: b },
            b"number" => Act::Number { at: a, value: b },
            b"same" => Act::Same,
            b"form" => Act::Form { n: a, length: b },
            b"eleven" => Act::Eleven,
            b"three" => damaged(Laid::Three),
            b"fifteen" => damaged(Laid::Fifteen),
            _ => Act::Call(Call::try_from(written)?),
        })
    }
}

impl TryFrom<&Written> for Step {
    type Error = UnknownWord;

    fn try_from(written: &Written) -> Result<Step, UnknownWord> {
        let [a, b, _] = written.numbers;
        Ok(match written.word.as_slice() {
            b"lend" => Step::Lend { length: a },
            b"pairs" => Step::Pairs { length: a },
            b"sets" => Step::Sets { read: a, write: b },
            b"more" => Step::More { read: a, write: b },
            b"keep" => Step::Keep,
            _ => Step::Act(Act::try_from(written)?),
        })
    }
}
