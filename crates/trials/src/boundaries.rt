// The limits of a sheet and its store, each met and passed by one. What is printed first is written out for each case.
use crate::library;
use crate::tables::{Part, fill, join};
use reference::tally::{Case, Tally};
use std::alloc::AllocError;

// The parts of a sheet behind its first line, and the front of what is printed.
struct Limit {
    parts: &'static [Part],
    front: &'static str,
}

static LIMITS: [Limit; 20] = [
    Limit {
        parts: &[],
        front: "p cnf 0 0~",
    },
    Limit {
        parts: &[(1, "s~")],
        front: "p cnf 0 1~0~",
    },
    Limit {
        parts: &[(1, "d 3~d 2~s +1:2 -2:1~s +3:1~")],
        front: "c refused 5 4 W 1 0~p cnf 3 3~-2 1 0~1 3 0~-2 3 0~",
    },
    // sizes
    Limit {
        parts: &[(1, "d 1~d 2~d 0~d 65~d 99999~")],
        front: "c refused 2 1 W 1 0~c refused 4 1 W 0 0~c refused 5 1 W 65 0~c refused 6 1 W 99999 0~p cnf 1 0~",
    },
    Limit {
        parts: &[(1, "d 3~")],
        front: "p cnf 2 1~-2 1 0~",
    },
    Limit {
        parts: &[(1, "d 64~")],
        front: "p cnf 63 62~-2 1 0~-3 2 0~",
    },
    Limit {
        parts: &[(1, "d 00064~d 00002~s +00002:00001~")],
        front: "p cnf 64 63~-2 1 0~-3 2 0~",
    },
    // variables
    Limit {
        parts: &[(255, "d 2~"), (1, "d 2~d 1~s +255:2 -254:1~s +256:1~")],
        front: "c refused 257 2 W 0 0~c refused 258 1 W 1 0~c refused 260 4 W 1 0~p cnf 255 1~255 254 0~",
    },
    Limit {
        parts: &[(255, "d 2~"), (769, "s~"), (1, "d 2~s~")],
        front: "c refused 1026 2 W 0 0~c refused 1027 6 W 0 0~p cnf 255 769~0~",
    },
    // literals of a clause
    Limit {
        parts: &[
            (1, "d 2~s"),
            (16, " -1:1"),
            (1, "~s"),
            (17, " -1:1"),
            (1, "~s"),
            (200, " -1:1"),
            (1, "~s"),
            (17, " -9:1"),
            (1, "~s"),
            (200, " -1:1"),
            (1, " ~"),
        ],
        front: "c refused 4 3 W 17 0~c refused 5 3 W 200 0~c refused 6 3 W 17 0~c refused 7 15 L 0 0~p cnf 1 1~1 1 1 1 1 1 1 1 1 1 1 1 1 1 1 1 0~",
    },
    // entries
    Limit {
        parts: &[(1024, "s~"), (1, "s~d 2~d 1~s +1:1~")],
        front: "c refused 1026 6 W 0 0~c refused 1027 6 W 0 0~c refused 1028 1 W 1 0~c refused 1029 4 W 1 0~p cnf 0 1024~0~",
    },
    Limit {
        parts: &[(1, "d 3~"), (1023, "s~"), (1, "s +1:2~s +1:4~")],
        front: "c refused 1026 6 W 0 0~c refused 1027 5 W 1 0~p cnf 2 1024~-2 1 0~0~",
    },
    Limit {
        parts: &[(1, "d 3~"), (1022, "s~"), (1, "s +1:2~s~")],
        front: "c refused 1026 6 W 0 0~p cnf 2 1025~-2 1 0~0~",
    },
    // strangers and values
    Limit {
        parts: &[(
            1,
            "d 3~s +1:9 +7:1~s +1:1 +7:1 +1:9~s +1:0~s -1:4~s +0:1~s -2:1~s +0:0~s +1:3~",
        )],
        front: "c refused 3 5 W 1 0~c refused 4 4 W 2 0~c refused 5 5 W 1 0~c refused 6 5 W 1 0~c refused 7 4 W 1 0~c refused 8 4 W 1 0~c refused 9 4 W 1 0~p cnf 2 2~-2 1 0~2 0~",
    },
    // words left: 3,640 less 19 times 186
    Limit {
        parts: &[(19, "d 64~"), (1, "d 38~d 37~s +1:1~s~s~d 2~d 3~s +22:1~")],
        front: "c refused 21 8 S 108 106~c refused 23 8 S 2 1~c refused 25 8 S 1 0~c refused 27 8 S 3 0~c refused 28 4 W 1 0~p cnf 1234 1214~",
    },
    Limit {
        parts: &[
            (19, "d 64~"),
            (1, "d 36~s +1:2 +1:3~s +1:1 -1:64 +1:1 -1:64~s +1:2~s~"),
        ],
        front: "c refused 22 8 S 12 4~c refused 23 8 S 5 4~c refused 25 8 S 1 0~p cnf 1232 1214~",
    },
    Limit {
        parts: &[(19, "d 64~"), (1, "d 36~s +1:1 -1:64 +1:1~s~")],
        front: "c refused 23 8 S 1 0~p cnf 1232 1213~",
    },
    // products
    Limit {
        parts: &[(1, "d 3~s"), (16, " +1:2"), (1, "~")],
        front: "c refused 3 8 S 1114112 3637~p cnf 2 1~-2 1 0~",
    },
    Limit {
        parts: &[(1, "d 3~s"), (4, " -1:2"), (1, "~s +1:2 +1:2~")],
        front: "p cnf 2 6~-2 1 0~-1 2 -1 2 -1 2 -1 2 0~1 1 0~1 -2 0~-2 1 0~-2 -2 0~",
    },
    Limit {
        parts: &[
            (1, "d 3~s"),
            (8, " +1:2"),
            (1, "~s"),
            (7, " +1:2"),
            (1, "~s"),
            (5, " +1:2"),
            (1, "~s"),
            (4, " +1:2"),
            (1, "~s"),
            (3, " +1:2"),
            (1, "~s +1:2~s~s~"),
        ],
        front: "c refused 10 8 S 1 0~p cnf 2 444~-2 1 0~1 1 1 1 1 1 1 1 0~1 1 1 1 1 1 1 -2 0~",
    },
];

impl Limit {
    // Compares the library's output with the second translator's, and its front with what is written out.
    fn run(&self, tally: &mut Tally) -> Result<(), AllocError> {
        let mut input = String::from_str(tally.heap, "m FR\n")?;
        input.push_str(join(tally.heap, self.parts)?.as_str())?;
        let mut made = library::run(tally, input.as_bytes())?;
        let wanted = fill(tally.heap, self.front, "")?;
        made.truncate(wanted.len());
        tally.try_compare(&Case {
            input: input.as_bytes(),
            wanted: wanted.as_bytes(),
            made: made.as_slice(),
        })
    }
}

pub fn run_all(tally: &mut Tally) -> Result<(), AllocError> {
    for limit in LIMITS.iter() {
        limit.run(tally)?;
    }
    Ok(())
}
