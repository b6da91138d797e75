// The sizes and values that a mapping speaks of.
ghost use Rattle.std.specs.Prelude.{◌≡◌, ◌&&◌, true, false, MatchOption};
ghost use Rattle.mapping.specs.Meanings.{is_size, is_value};

// Sizes are 2 to 64.
pub fn in_sizes(size: u32) -> bool
    ensures { result ≡ is_size size }
{
    (2..=64).contains(&size)
}

// The values of such a size are 1 to that size.
pub fn in_values(size: u32, value: u32) -> bool
    ensures { result ≡ (is_size size && is_value size value) }
{
    in_sizes(size) && (1..=size).contains(&value)
}

// A size in range.
#[derive(Clone, Copy, Debug, PartialEq, Eq)]
pub struct Size {
    pub count: u32,
    pub ghost in_range: { is_size count ≡ true },
}

impl Size {
    // This size, or none where it is out of range.
    pub fn new(count: u32) -> Option<Size>
        ensures { MatchOption result (is_size count ≡ false) (λ s. s.count ≡ count) }
    {
        if in_sizes(count) {
            Some(Size { count })
        } else {
            None
        }
    }
}

// A value of a size, both in range.
#[derive(Clone, Copy, Debug, PartialEq, Eq)]
pub struct Choice {
    pub size: u32,
    pub value: u32,
    pub ghost size_in_range: { is_size size ≡ true },
    pub ghost value_in_range: { is_value size value ≡ true },
}

impl Choice {
    // This value of this size, or none where one of them is out of range.
    pub fn new(size: u32, value: u32) -> Option<Choice>
        ensures { MatchOption result ((is_size size && is_value size value) ≡ false) (λ c. (c.size ≡ size) × (c.value ≡ value)) }
    {
        if in_values(size, value) {
            Some(Choice { size, value })
        } else {
            None
        }
    }
}
