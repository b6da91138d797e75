// Refusals: why a call says no.
ghost use Rattle.std.specs.Prelude.{◌≡◌, Some, ◌∷◌, []};
ghost use Rattle.formula.specs.Refusals.{layer_letter, reason_number, reason_word, reason_layer, detail, refusal_text};

use std::fmt;

// The two numbers that a refusal carries, each 0 where none is named.
// kept: two numbers and no options, since both are printed, and a 0 is printed where none is named.
#[derive(Clone, Copy, Debug, Default, PartialEq, Eq)]
pub struct Details {
    pub first: u64,
    pub second: u64,
}

// The part that refuses.
#[derive(Clone, Copy, Debug, PartialEq, Eq)]
pub enum Layer {
    Line,
    Workbook,
    Store,
}

// Why: each reason has a number, a word and a layer.
#[derive(Clone, Copy, Debug, PartialEq, Eq)]
pub enum Reason {
    Size,
    NamesSpent,
    Long,
    Stranger,
    Value,
    SheetFull,
    NumbersSpent,
    WordsShort,
    Line,
}

// A refusal as it is printed.
#[derive(Clone, Copy, Debug, PartialEq, Eq)]
pub struct Refusal {
    pub reason: Reason,
    pub details: Details,
}

// One number that is named.
impl From<u64> for Details {
    ghost from_gives = { λ n d. d ≡ detail n };

    fn from(first: u64) -> Details {
        Details { first, second: 0 }
    }
}

// The letter that a layer is printed as.
impl From<Layer> for u8 {
    ghost from_gives = { λ l b. b ≡ layer_letter l };

    fn from(layer: Layer) -> u8 {
        match layer {
            Layer::Line => b'L',
            Layer::Workbook => b'W',
            Layer::Store => b'S',
        }
    }
}

// A layer's letter.
impl fmt::Display for Layer {
    ghost output = { λ l. Some (layer_letter l ∷ []) };

    fn fmt<W: fmt::Write>(&self, f: &mut fmt::Formatter<W>) -> fmt::Result {
        f.write_char(char::from(u8::from(*self)))
    }
}

// The number that a reason has.
impl From<Reason> for u32 {
    ghost from_gives = { λ r n. n ≡ reason_number r };

    fn from(reason: Reason) -> u32 {
        match reason {
            Reason::Size => 1,
            Reason::NamesSpent => 2,
            Reason::Long => 3,
            Reason::Stranger => 4,
            Reason::Value => 5,
            Reason::SheetFull => 6,
            Reason::NumbersSpent => 7,
            Reason::WordsShort => 8,
            Reason::Line => 15,
        }
    }
}

impl Reason {
    // A reason's word.
    pub fn word(self) -> &'static str
        ensures { result.now ≡ reason_word self }
    {
        match self {
            Reason::Size => "size",
            Reason::NamesSpent => "names spent",
            Reason::Long => "long",
            Reason::Stranger => "stranger",
            Reason::Value => "value",
            Reason::SheetFull => "sheet full",
            Reason::NumbersSpent => "numbers spent",
            Reason::WordsShort => "words short",
            Reason::Line => "line",
        }
    }

    // The layer that refuses for it.
    pub fn layer(self) -> Layer
        ensures { result ≡ reason_layer self }
    {
        match self {
            Reason::NumbersSpent | Reason::WordsShort => Layer::Store,
            Reason::Line => Layer::Line,
            _ => Layer::Workbook,
        }
    }
}

// A reason's word.
impl fmt::Display for Reason {
    ghost output = { λ r. Some (reason_word r) };

    fn fmt<W: fmt::Write>(&self, f: &mut fmt::Formatter<W>) -> fmt::Result {
        f.write_str(self.word())
    }
}

// The number, the layer and both details.
impl fmt::Display for Refusal {
    ghost output = { λ r. Some (refusal_text r) };

    fn fmt<W: fmt::Write>(&self, f: &mut fmt::Formatter<W>) -> fmt::Result {
        let number = u32::from(self.reason);
        let layer = self.reason.layer();
        let Details { first, second } = self.details;
        write!(f, "{number} {layer} {first} {second}")
    }
}
