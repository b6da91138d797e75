// Signed literals.
ghost use Rattle.std.specs.Prelude.{◌≡◌};
ghost use Rattle.std.specs.Result.{result_ok};
ghost use Rattle.formula.specs.Signs.{sign_byte, sign_of};

// Whether a literal says that its variable has the value, or that it has another.
#[derive(Clone, Copy, Debug, PartialEq, Eq)]
pub enum Sign {
    Plus,
    Minus,
}

// A signed literal: a variable, numbered from 1, a value of it, numbered from 1, and a sign.
#[derive(Clone, Copy, Debug, PartialEq, Eq)]
pub struct Literal {
    pub variable: u32,
    pub value: u32,
    pub sign: Sign,
}

// A byte that is no sign.
#[derive(Clone, Copy, Debug, PartialEq, Eq)]
pub struct UnknownSign;

// The byte that a sign is written as.
impl From<Sign> for u8 {
    ghost from_gives = { λ s b. b ≡ sign_byte s };

    fn from(sign: Sign) -> u8 {
        match sign {
            Sign::Plus => b'+',
            Sign::Minus => b'-',
        }
    }
}

// The sign that a byte is read as.
impl TryFrom<u8> for Sign {
    type Error = UnknownSign;

    ghost try_from_gives = { λ b r. result_ok r ≡ sign_of b };

    fn try_from(byte: u8) -> Result<Sign, UnknownSign> {
        match byte {
            b'+' => Ok(Sign::Plus),
            b'-' => Ok(Sign::Minus),
            _ => Err(UnknownSign),
        }
    }
}
