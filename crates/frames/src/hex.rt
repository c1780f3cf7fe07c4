// Hexadecimal, upper-case, both ways.
ghost use Rattle.std.specs.Prelude.{◌≡◌, ◌/◌, ◌%◌, ◌<◌};
ghost use Rattle.frames.specs.Hex.{digit_of};
ghost use Rattle.frames.specs.Reading.{value_in, byte_in};

// The value of an upper-case hexadecimal digit. Digit by digit, so that the machine looks it up in a table and takes no branch between numbers and
// letters.
#[tactic(auto, unfolding(crate::specs::Reading::value_in, crate::specs::Hex::value_of, crate::specs::Hex::is_digit))]
pub fn digit_value(c: u8) -> Option<u8>
    ensures { result ≡ value_in c }
{
    match c {
        b'0' => Some(0),
        b'1' => Some(1),
        b'2' => Some(2),
        b'3' => Some(3),
        b'4' => Some(4),
        b'5' => Some(5),
        b'6' => Some(6),
        b'7' => Some(7),
        b'8' => Some(8),
        b'9' => Some(9),
        b'A' => Some(10),
        b'B' => Some(11),
        b'C' => Some(12),
        b'D' => Some(13),
        b'E' => Some(14),
        b'F' => Some(15),
        _ => None,
    }
}

// The byte of two digits. Within the loop that reads them: a call for each byte takes the runner a tenth more time.
#[inline(always)]
pub fn byte_of(high: u8, low: u8) -> Option<u8>
    ensures { result ≡ byte_in high low }
{
    Some(16 * digit_value(high)? + digit_value(low)?)
}

#[tactic(auto, unfolding(crate::specs::Hex::digit_of))]
fn digit(value: u8) -> u8
    requires { value < 16 }
    ensures { result ≡ digit_of value }
{
    if value < 10 {
        b'0' + value
    } else {
        b'A' + (value - 10)
    }
}

// The first of the two characters of a byte.
pub fn high_digit(byte: u8) -> u8
    ensures { result ≡ digit_of (byte / 16) }
{
    digit(byte / 16)
}

// The second of the two characters of a byte.
pub fn low_digit(byte: u8) -> u8
    ensures { result ≡ digit_of (byte % 16) }
{
    digit(byte % 16)
}
