//! Rows that are picked of masks, numbers and texts.

ghost use Rattle.std.specs.Prelude.{◌≡◌, length, MatchResult, true};
ghost use Rattle.vortex_leaves.specs.Numbers.{number_rows};
ghost use Rattle.vortex_leaves.specs.Selected.{AreNumbersOf};
ghost use Rattle.vortex_leaves.specs.Texts.{text_pieces};
ghost use Rattle.vortex_array_data.specs.Content.{IsMask};
ghost use Rattle.vortex_array_data.specs.inner.Picked.{picked, IsPickedTexts};
ghost use Rattle.vortex_array_data.specs.inner.PickedPlaces.{places_in, ArePicks, RefusesPick, TextsMuch};

use crate::error::ArrayError;
use crate::pick_rows::Picks;
use std::alloc::Global;
use vortex_leaves::{Decimals, Numbers, Texts};
use vortex_mask::{Mask, MaskError};

/// The truth values that are picked. Those of a range stay shared.
pub(crate) fn picked_truths(alloc: Global, mask: &Mask, picks: &Picks) -> Result<Mask, ArrayError>
    requires { ArePicks (length mask.now) picks.now }
    ensures { MatchResult result (λ m. m ≡ picked (places_in picks.now) mask.now)
        (λ e. e ≡ ArrayError.OutOfMemory) }
{
    match picks {
        Picks::Range(from, to) => match mask.slice(*from, *to) {
            Ok(mask) => Ok(mask),
            Err(MaskError::OutOfMemory) => Err(ArrayError::OutOfMemory),
        },
        Picks::Mask(keep) => match mask.filter(alloc, keep) {
            Ok(mask) => Ok(mask),
            Err(MaskError::OutOfMemory) => Err(ArrayError::OutOfMemory),
        },
        Picks::Places(places) => match mask.take(alloc, places) {
            Ok(mask) => Ok(mask),
            Err(MaskError::OutOfMemory) => Err(ArrayError::OutOfMemory),
        },
    }
}

/// The numbers that are picked. Those of a range stay shared.
pub(crate) fn picked_numbers(
    alloc: Global,
    numbers: &Numbers,
    picks: &Picks,
) -> Result<Numbers, ArrayError>
    requires { ArePicks numbers.now.count picks.now }
    ensures { MatchResult result
        (AreNumbersOf numbers.now.format (picked (places_in picks.now) (number_rows numbers.now)))
        (λ e. e ≡ ArrayError.OutOfMemory) }
{
    match picks {
        Picks::Range(from, to) => Ok(numbers.slice(*from, *to)?),
        Picks::Mask(mask) => Ok(numbers.filter(alloc, mask)?),
        Picks::Places(places) => Ok(numbers.take(alloc, places)?),
    }
}

/// The decimals that are picked. Those of a range stay shared.
pub(crate) fn picked_decimals(
    alloc: Global,
    decimals: &Decimals,
    picks: &Picks,
) -> Result<Decimals, ArrayError>
    requires { ArePicks decimals.now.count picks.now }
    ensures { MatchResult result
        (AreNumbersOf decimals.now.format (picked (places_in picks.now) (number_rows decimals.now)))
        (λ e. e ≡ ArrayError.OutOfMemory) }
{
    match picks {
        Picks::Range(from, to) => Ok(decimals.slice(*from, *to)?),
        Picks::Mask(mask) => Ok(decimals.filter(alloc, mask)?),
        Picks::Places(places) => Ok(decimals.take(alloc, places)?),
    }
}

/// The texts that are picked, under their mask. Those of a range stay shared, and others are joined
/// without gaps: at places, a null text has no bytes.
pub(crate) fn picked_texts(
    alloc: Global,
    texts: &Texts,
    validity: &Option<Mask>,
    picks: &Picks,
) -> Result<Texts, ArrayError>
    requires mask { IsMask (length (text_pieces texts.now)) true validity.now }
    requires picks { ArePicks (length (text_pieces texts.now)) picks.now }
    ensures { MatchResult result
        (IsPickedTexts (places_in picks.now) validity.now texts.now)
        (RefusesPick picks.now (TextsMuch validity.now texts.now)) }
{
    texts.law();
    let last = texts.offsets().get(texts.len());
    let _ = last;
    match picks {
        Picks::Range(from, to) => Ok(texts.slice(*from, *to)?),
        Picks::Mask(mask) => Ok(texts.filter(alloc, mask)?),
        Picks::Places(places) => match texts.take(alloc, validity.as_ref(), places)? {
            Some(texts) => Ok(texts),
            None => Err(ArrayError::TooLarge),
        },
    }
}
