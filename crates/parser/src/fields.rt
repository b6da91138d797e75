// Numbers and literals.
ghost use Rattle.std.specs.Prelude.{◌≡◌, ◌-◌, position, ◌==◌, Some, None, cond};
ghost use Rattle.std.specs.Option.{option_map};
ghost use Rattle.parser.specs.Cuts.{halves};
ghost use Rattle.parser.specs.Fields.{is_digit, number_of, literal_of};

use formula::{Literal, Sign};

// The most digits of a number.
const MOST_DIGITS: usize = 5;

// What a digit stands for.
fn read_digit(byte: u8) -> Option<u32>
    ensures { result ≡ cond (is_digit byte) (Some (byte - 48)) None }
{
    if !byte.is_ascii_digit() {
        return None;
    }
    Some(u32::from(byte - b'0'))
}

// The number that 1 to 5 digits spell.
// kept: a loop that reads each digit once; `all`, `from_utf8` and `parse` were tried, but go over the digits three times, which makes a line `d 64` take twice as long.
pub(crate) fn read_number(field: &[u8]) -> Option<u32>
    ensures { result ≡ number_of field.now }
{
    if field.len() > MOST_DIGITS {
        return None;
    }
    let (first, rest) = field.split_first()?;
    let mut number = read_digit(*first)?;
    for byte in rest {
        number = number * 10 + read_digit(*byte)?;
    }
    Some(number)
}

// The place of the first mark.
fn find_mark(bytes: &[u8], mark: u8) -> Option<usize>
    ensures { result ≡ position (λ b. b == mark) bytes.now }
{
    bytes.iter().position(|byte| *byte == mark)
}

// The bytes before the first mark and those behind it, where there is one.
fn split_once(bytes: &[u8], mark: u8) -> Option<(&[u8], &[u8])>
    ensures { option_map (λ x. (x.0.now, x.1.now)) result ≡ halves mark bytes.now }
{
    let place = find_mark(bytes, mark)?;
    Some((&bytes[..place], &bytes[place + 1..]))
}

// A literal such as +1:2.
pub(crate) fn read_literal(field: &[u8]) -> Option<Literal>
    ensures { result ≡ literal_of field.now }
{
    let (first, rest) = field.split_first()?;
    let sign = Sign::try_from(*first).ok()?;
    let (variable, value) = split_once(rest, b':')?;
    Some(Literal {
        variable: read_number(variable)?,
        value: read_number(value)?,
        sign,
    })
}
