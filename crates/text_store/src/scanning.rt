// Finds the last of the pieces that a mark ends.
ghost use Rattle.std.specs.Prelude.{◌<◌, length, take};
ghost use Rattle.text_store.specs.Bytes.{Closed, PieceFrom};

// The last piece of bytes: where it begins, and how many of its bytes are below a bound.
#[derive(Clone, Copy)]
pub(crate) struct Piece {
    pub(crate) start: usize,
    pub(crate) lows: u64,
}

// It begins behind the mark before the one at the end, or at the start.
// kept: it counts as it searches; by rposition and filter().count() each byte was read twice, in twice the time.
pub(crate) fn last_piece(bytes: &[u8], mark: u8, bound: u8) -> Piece
    requires closed { Closed mark bytes.now }
    requires some { 0 < length bytes.now }
    ensures piece { PieceFrom mark bound bytes.now result.start result.lows }
    ensures before { Closed mark (take result.start bytes.now) }
{
    let mut lows = u64::from(mark < bound);
    for at in (0..bytes.len() - 1).rev() {
        let byte = bytes[at];
        if byte == mark {
            return Piece {
                start: at + 1,
                lows,
            };
        }
        lows += u64::from(byte < bound);
    }
    Piece { start: 0, lows }
}
