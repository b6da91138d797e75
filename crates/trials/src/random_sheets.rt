// Sheets made at random.
use crate::making::{Kind, Maker};
use crate::{library, models};
use reference::tally::{Case, Tally};
use std::alloc::AllocError;

// Short and long sheets, and sheets of few and of many values, literals or faults.
static KINDS: [Kind; 6] = [
    Kind {
        lines: 12,
        size: 4,
        literals: 3,
        booleans: 12,
        spoiled: 10,
    },
    Kind {
        lines: 40,
        size: 9,
        literals: 4,
        booleans: 100,
        spoiled: 5,
    },
    Kind {
        lines: 60,
        size: 64,
        literals: 6,
        booleans: 4000,
        spoiled: 20,
    },
    Kind {
        lines: 150,
        size: 5,
        literals: 18,
        booleans: 60,
        spoiled: 2,
    },
    Kind {
        lines: 400,
        size: 3,
        literals: 3,
        booleans: 700,
        spoiled: 1,
    },
    Kind {
        lines: 1300,
        size: 2,
        literals: 1,
        booleans: 300,
        spoiled: 1,
    },
];

// A sheet of each kind.
pub fn try_kinds(tally: &mut Tally, maker: &mut Maker) -> Result<(), AllocError> {
    for kind in KINDS.iter() {
        let input = maker.sheet(kind)?;
        library::run(tally, input.as_slice())?;
    }
    Ok(())
}

// Sheets of few Booleans.
const SMALL: Kind = Kind {
    lines: 14,
    size: 6,
    literals: 4,
    booleans: 11,
    spoiled: 8,
};

// A small sheet, with every assignment of its Booleans.
pub fn try_small(tally: &mut Tally, maker: &mut Maker) -> Result<(), AllocError> {
    let input = maker.sheet(&SMALL)?;
    let made = library::run(tally, input.as_slice())?;
    if !input.starts_with(b"m FR\n") {
        return Ok(());
    }
    let score = models::check(tally.heap, input.as_slice(), made.as_slice())?;
    let case = Case {
        input: input.as_slice(),
        wanted: made.as_slice(),
        made: made.as_slice(),
    };
    tally.try_count(score, &case)
}
