//! What offsets lead to.

ghost use Rattle.vortex_flat.specs.Answers.{Answers};
ghost use Rattle.vortex_flat.specs.Targets.{bytes_at, follow, text_at};

use crate::error::FlatError;
use crate::numbers::u32_at;
use crate::vector::vector_at;

#[tactic(auto, using(crate::proofs::NumbersLemmas::number_within))]
/// The place that the offset at `place` leads to.
pub(crate) fn follow(bytes: &[u8], place: usize) -> Result<usize, FlatError>
    ensures { Answers (λ x. x) result (follow bytes.now place) }
{
    Ok(place + u32_at(bytes, place)? as usize)
}

#[tactic(auto, using(crate::proofs::TargetsLemmas::vector_width))]
/// The bytes of the vector of width 1 at `place`.
pub(crate) fn bytes_at(bytes: &[u8], place: usize) -> Result<&[u8], FlatError>
    ensures { Answers (λ found. found.now) result (bytes_at bytes.now place) }
{
    Ok(vector_at(bytes, place, 1)?.bytes())
}

#[tactic(auto, using(crate::proofs::TargetsLemmas::text_here, crate::proofs::TargetsLemmas::text_fault))]
/// The same, where they are UTF-8.
pub(crate) fn text_at(bytes: &[u8], place: usize) -> Result<&str, FlatError>
    ensures { Answers (λ found. found.now) result (text_at bytes.now place) }
{
    match str::from_utf8(bytes_at(bytes, place)?) {
        Ok(text) => Ok(text),
        Err(_) => Err(FlatError::Outside),
    }
}
