//! The buffers of a node, where it has exactly so many.

ghost use Rattle.std.specs.Prelude.{◌≡◌};
ghost use Rattle.std.specs.Option.{option_map};
ghost use Rattle.vortex_terms.specs.Types.{IsBytes};
ghost use Rattle.vortex_body.specs.Node.{node_buffers};
ghost use Rattle.vortex_node_rows.specs.Buffers.{one_buffer, two_buffers};

use bytes::Bytes;
use vortex_body::NodeParts;

/// The one buffer, and None where there are none or more.
#[tactic(auto, using(crate::proofs::Counts::one_of, crate::proofs::Counts::not_one))]
pub fn one_buffer(parts: &NodeParts) -> Option<&Bytes>
    ensures { option_map (λ b. b.now) result ≡ one_buffer (node_buffers parts.now) }
{
    if parts.buffer_count() != 1 {
        return None;
    }
    Some(parts.buffer(0))
}

/// The two buffers, and None where there are fewer or more.
#[tactic(auto, using(crate::proofs::Counts::two_of, crate::proofs::Counts::not_two))]
pub fn two_buffers(parts: &NodeParts) -> Option<(&Bytes, &Bytes)>
    ensures { option_map (λ p. (p.0.now, p.1.now)) result ≡ two_buffers (node_buffers parts.now) }
{
    if parts.buffer_count() != 2 {
        return None;
    }
    Some((parts.buffer(0), parts.buffer(1)))
}

/// A slice of bytes has numbers below 256. This does nothing when the program runs.
pub(crate) fn are_bytes(bytes: &[u8])
    ensures { IsBytes bytes.now }
{
    let _ = bytes;
}
