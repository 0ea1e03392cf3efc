// Side data as the 20 bytes of the bits program: weighting, filter count, two orders, sixteen indices.
// Bytes are read and what they hold is priced, whatever they are; and bytes are written.
#![tactic(auto)]

ghost use Rattle.std.specs.Prelude.{◌≡◌, ◌++◌};
ghost use Rattle.cost_bytes.specs.SideBytes.{line_of, bytes_say};

use check_refusals::Refusal;
use cost_call::cost;

// The cost of the side data in the first 20 of some bytes: what the cost call answers, or nothing where the
// bytes are too few.
#[tactic(auto, using(crate::proofs::BytesCost::too_few, crate::proofs::BytesCost::enough))]
pub fn bytes_cost(bytes: &[u8]) -> Option<Result<u16, Refusal>>
    ensures { bytes_say result ≡ line_of bytes.now }
{
    let bytes = bytes.first_chunk::<20>()?;
    Some(cost(bytes[0], bytes[1], &bytes[2..4], &bytes[4..]))
}

// The 20 bytes: the four that come first, which are weighting, filter count and both orders, and after
// them the indices of the two filters.
pub fn side_bytes(head: [u8; 4], first: [u8; 8], second: [u8; 8]) -> [u8; 20]
    ensures { result ≡ head ++ (first ++ second) }
{
    let mut bytes = [0; 20];
    bytes[..4].copy_from_slice(&head);
    bytes[4..12].copy_from_slice(&first);
    bytes[12..20].copy_from_slice(&second);
    bytes
}
