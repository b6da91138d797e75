// The binary digits of a size.
// kept: `as` from u64 to u32: try_from would answer an Err that cannot be; it is proved to lose nothing.
ghost use Rattle.std.specs.Prelude.{◌≡◌};
ghost use Rattle.encodings.specs.Digits.{digits, spare};

// How many digits a size has, and how many patterns of them are more than the values.
#[derive(Clone, Copy, Debug, PartialEq, Eq)]
pub struct Digits {
    pub count: u32,
    pub spare: u32,
}

impl Digits {
    // The patterns are the next power of two.
    pub fn of_size(size: u32) -> Digits
        ensures count { result.count ≡ digits size }
        ensures spare { result.spare ≡ spare size }
    {
        let values = u64::from(size);
        let patterns = values.next_power_of_two();
        Digits {
            count: patterns.ilog2(),
            spare: (patterns - values) as u32,
        }
    }
}
