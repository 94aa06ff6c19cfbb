//! Decimals.

ghost use Rattle.std.specs.Prelude.{◌≡◌, ◌<◌, IfOk, Some, slice_get, true};
ghost use Rattle.vortex_terms.specs.Row.{whole_row};
ghost use Rattle.vortex_body.specs.Node.{node_buffers, node_metadata};
ghost use Rattle.vortex_node_rows.specs.Leaves.{decimals_of};
ghost use Rattle.vortex_leaves.specs.Answers.{Answers};
ghost use Rattle.vortex_leaves.specs.Numbers.{decimal_format, number_format, number_rows};

use crate::LeafError;
use crate::format::NumberFormat;
use crate::numbers::Numbers;
use std::marker::Model;
use vortex_body::NodeParts;
use vortex_wire::DecimalMetadata;

/// So many decimals, each as its digits. They are held in 8, 16, 32, 64 or 128 bits.
#[derive(Drop)]
pub struct Decimals {
    pub(crate) digits: Numbers,
}

impl Model for Decimals {
    ghost use Rattle.std.specs.Prelude.{◌≡◌, true};
    ghost use Rattle.vortex_leaves.specs.Numbers.{NumberBytes};

    ghost Value = { NumberBytes };

    ghost view = { λ a. a.digits };

    ghost invariant = { λ a. a.digits.format.signed ≡ true };
}

/// The format that the metadata tells.
#[tactic(auto, unfolding(crate::specs::Numbers::decimal_format))]
fn format_in(metadata: &[u8]) -> Result<NumberFormat, LeafError>
    ensures format { Answers number_format result (decimal_format metadata.now) }
    ensures signed { IfOk result (λ f. (number_format f).signed ≡ true) }
{
    let Ok(metadata) = DecimalMetadata::read(metadata) else {
        return Err(LeafError::Malformed);
    };
    match NumberFormat::of_value_type(metadata.value_type) {
        Some(format) => Ok(format),
        None => Err(LeafError::Malformed),
    }
}

impl Decimals {
    /// The decimals that the one buffer is, held as the metadata tells.
    #[tactic(auto, unfolding(vortex_node_rows::specs::Leaves::decimals_of, crate::specs::Numbers::decimal_format))]
    pub fn read(parts: &NodeParts, n: usize) -> Result<Decimals, LeafError>
        ensures rows { Answers number_rows result
            (decimals_of (node_metadata parts.now) n (node_buffers parts.now)) }
        ensures count { IfOk result (λ a. a.count ≡ n) }
    {
        let format = format_in(parts.metadata())?;
        Ok(Decimals {
            digits: Numbers::read_in(parts, format, n)?,
        })
    }

    /// The digits, as numbers.
    pub fn digits(&self) -> &Numbers
        ensures { result.now ≡ self.now }
    {
        &self.digits
    }

    /// How many there are.
    pub fn len(&self) -> usize
        ensures { result ≡ self.now.count }
    {
        self.digits.len()
    }

    /// The digits of decimal `i`.
    pub fn number(&self, i: usize) -> i128
        requires { i < self.now.count }
        ensures { slice_get (number_rows self.now) i ≡ Some (whole_row result) }
    {
        self.digits.number(i)
    }

    /// They are numbers with a sign. This does nothing when the program runs.
    pub fn law(&self)
        ensures { self.now.format.signed ≡ true }
    {
        let _ = &self.digits;
    }
}
