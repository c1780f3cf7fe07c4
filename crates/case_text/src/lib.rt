// What the programs of cases share: cutting a line of a script, and printing a reply and an output.
#![tactic(auto)]

ghost use Rattle.std.specs.Prelude.{◌≡◌, ◌≢◌, ◌∷◌, ◌++◌, codes, decimal, length, IfNone, IfSome, Some};
ghost use Rattle.std.specs.List.{AllWithin};

use rules::Reply;
use std::fmt;

// What stands before the first such byte, and what stands behind it; nothing if there is none.
pub fn split_once(bytes: &[u8], at: u8) -> Option<(&[u8], &[u8])>
    ensures parts { IfSome result (λ p. bytes.now ≡ p.0.now ++ at ∷ p.1.now) }
    ensures first { IfSome result (λ p. AllWithin (λ b. b ≢ at) p.0.now 0 (length p.0.now)) }
    ensures none { IfNone result (AllWithin (λ b. b ≢ at) bytes.now 0 (length bytes.now)) }
{
    let place = bytes.iter().position(|b| *b == at)?;
    Some((&bytes[..place], &bytes[place + 1..]))
}

// A reply as it is printed: its number and three figures.
#[derive(Drop)]
pub struct Shown(pub Reply);

impl fmt::Display for Shown {
    ghost output = { λ x. Some (decimal x.0.number ++ codes " " ++ decimal x.0.first ++ codes " " ++ decimal x.0.second ++ codes " " ++ decimal x.0.third) };

    fn fmt<W: fmt::Write>(&self, f: &mut fmt::Formatter<W>) -> fmt::Result {
        let r = self.0;
        write!(f, "{} {} {} {}", r.number, r.first, r.second, r.third)
    }
}

// The bytes of an output as they are printed: in pairs, with a space before each pair.
#[derive(Drop)]
pub struct Pairs<'a>(pub &'a [u8]);

impl fmt::Display for Pairs<'_> {
    fn fmt<W: fmt::Write>(&self, f: &mut fmt::Formatter<W>) -> fmt::Result {
        for (i, b) in self.0.iter().enumerate() {
            let space = if i % 2 == 0 { " " } else { "" };
            write!(f, "{space}{b:02x}")?;
        }
        Ok(())
    }
}
