ghost use Rattle.ck_data.specs.Piece.{IsPiece};

use ck_model::BLOCK;

/// The part of a block that bytes of a call stand in: where it begins, with which of the bytes, and
/// how many of them it has.
#[derive(Clone, Copy, Debug, PartialEq, Eq)]
pub struct Piece {
    pub at: u64,
    pub from: u64,
    pub count: u64,
}

/// The part of the block with this index in which so many bytes from a place of the file on stand.
/// It is empty where they don't touch the block.
pub fn piece_of(place: u64, len: u64, index: u32) -> Piece
    ensures { IsPiece place len index result.at result.from result.count }
{
    let start = u64::from(index) * BLOCK;
    let at = place.saturating_sub(start).min(BLOCK);
    let from = start.saturating_sub(place).min(len);
    Piece {
        at,
        from,
        count: (BLOCK - at).min(len - from),
    }
}
