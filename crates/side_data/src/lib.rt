// The side data of a frame, E's `TnsResult`: two filters as they are quantized, and their indices and
// coefficients as the bits program and the calls take them.
#![tactic(auto)]

ghost use Rattle.std.specs.Prelude.{◌≡◌, ◌++◌};
ghost use Rattle.side_data.specs.Side.{bytes_in, coefficients_in};

use cost_bytes::side_bytes;
use side_quantized::Quantized;

// What goes beside the bits: the weighting, the number of filters, and both filters. Where the row has
// no second band, the second filter is that of `side_quantized::none`.
#[derive(Clone, Copy, Debug, PartialEq)]
pub struct SideData {
    pub weighting: u8,
    pub filters: u8,
    pub first: Quantized,
    pub second: Quantized,
}

// Side data as the 20 bytes of the bits program.
pub fn bytes_of(side: SideData) -> [u8; 20]
    ensures { result ≡ bytes_in side }
{
    side_bytes(
        [
            side.weighting,
            side.filters,
            side.first.order,
            side.second.order,
        ],
        side.first.indices,
        side.second.indices,
    )
}

// The coefficients of both filters.
pub fn coefficients_of(side: SideData) -> [f32; 16]
    ensures { result ≡ coefficients_in side }
{
    let mut both = [0.0; 16];
    both[..8].copy_from_slice(&side.first.coefficients);
    both[8..].copy_from_slice(&side.second.coefficients);
    both
}
