//! Numbers in a buffer, the lowest byte first.

ghost use Rattle.vortex_flat.specs.Answers.{Answers};
ghost use Rattle.vortex_flat.specs.Numbers.{piece_at, number};

use crate::error::FlatError;

#[tactic(auto, using(crate::proofs::NumbersLemmas::piece_here, crate::proofs::NumbersLemmas::piece_past))]
/// The `width` bytes from `place` on.
pub(crate) fn piece_at(bytes: &[u8], place: usize, width: usize) -> Result<&[u8], FlatError>
    ensures { Answers (λ piece. piece.now) result (piece_at bytes.now place width) }
{
    if bytes.len() < width || bytes.len() - width < place {
        return Err(FlatError::Outside);
    }
    Ok(&bytes[place..place + width])
}

#[tactic(auto, using(crate::proofs::NumbersLemmas::piece_len, crate::proofs::NumbersLemmas::number_1, crate::proofs::NumbersLemmas::no_number, crate::proofs::NumbersLemmas::passes_on))]
pub(crate) fn u8_at(bytes: &[u8], place: usize) -> Result<u8, FlatError>
    ensures { Answers (λ x. x) result (number bytes.now place 1) }
{
    let piece = piece_at(bytes, place, 1)?;
    Ok(piece[0])
}

#[tactic(auto, using(crate::proofs::NumbersLemmas::piece_len, crate::proofs::NumbersLemmas::number_2, crate::proofs::NumbersLemmas::no_number, crate::proofs::NumbersLemmas::passes_on))]
pub(crate) fn u16_at(bytes: &[u8], place: usize) -> Result<u16, FlatError>
    ensures { Answers (λ x. x) result (number bytes.now place 2) }
{
    let piece = piece_at(bytes, place, 2)?;
    Ok(u16::from_le_bytes([piece[0], piece[1]]))
}

/// The four bytes from `place` on as a number.
#[tactic(auto, using(crate::proofs::NumbersLemmas::piece_len, crate::proofs::NumbersLemmas::number_4, crate::proofs::NumbersLemmas::no_number, crate::proofs::NumbersLemmas::passes_on))]
pub fn u32_at(bytes: &[u8], place: usize) -> Result<u32, FlatError>
    ensures { Answers (λ x. x) result (number bytes.now place 4) }
{
    let piece = piece_at(bytes, place, 4)?;
    Ok(u32::from_le_bytes([piece[0], piece[1], piece[2], piece[3]]))
}

#[tactic(auto, using(crate::proofs::NumbersLemmas::piece_len, crate::proofs::NumbersLemmas::number_8, crate::proofs::NumbersLemmas::no_number, crate::proofs::NumbersLemmas::passes_on))]
pub(crate) fn u64_at(bytes: &[u8], place: usize) -> Result<u64, FlatError>
    ensures { Answers (λ x. x) result (number bytes.now place 8) }
{
    let piece = piece_at(bytes, place, 8)?;
    Ok(u64::from_le_bytes([
        piece[0], piece[1], piece[2], piece[3], piece[4], piece[5], piece[6], piece[7],
    ]))
}
