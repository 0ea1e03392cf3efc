// What becomes of a filter's reflection coefficients: E's `apply_quantization`, by the index rule and
// its table. Any eight numbers may be given.
#![tactic(auto)]

ghost use Rattle.std.specs.Prelude.{◌≡◌, map};
ghost use Rattle.index_choice.specs.Indices.{index_of};
ghost use Rattle.index_coefficients.specs.Coefficients.{coefficient_of};
ghost use Rattle.side_quantized.specs.Quantized.{quantized_of, absent};

use index_choice::{index_of, order_of};
use index_coefficients::coefficient_of;
use std::array::from_fn;

// A filter's order, eight indices, and the coefficients that they stand for.
#[derive(Clone, Copy, Debug, PartialEq)]
pub struct Quantized {
    pub coefficients: [f32; 8],
    pub indices: [u8; 8],
    pub order: u8,
}

// By places: with `reflections.map(index_of)` an encoder call takes 1 to 3 percent more instructions.
fn indices_of(reflections: [f32; 8]) -> [u8; 8]
    ensures { result ≡ map index_of reflections }
{
    from_fn(|k| index_of(reflections[k]))
}

// Not `eight_coefficients` of index_coefficients, which is the decoder's alone: with two callers the compiler would leave it
// out of line, and the decoder would miss its marks (docs/DECISIONS.md, "Speed").
fn table_coefficients(indices: [u8; 8]) -> [f32; 8]
    ensures { result ≡ map coefficient_of indices }
{
    indices.map(coefficient_of)
}

// A filter of eight reflection coefficients.
#[tactic(auto, unfolding(crate::specs::Quantized::quantized_of))]
pub fn quantize_all(reflections: [f32; 8]) -> Quantized
    ensures { result ≡ quantized_of reflections }
{
    let indices = indices_of(reflections);
    Quantized {
        order: order_of(indices),
        indices,
        coefficients: table_coefficients(indices),
    }
}

// The filter of a band that the row does not have. It is no `Default`, since index 8 stands for a coefficient of 0.
#[tactic(auto, unfolding(crate::specs::Quantized::absent))]
pub fn none() -> Quantized
    ensures { result ≡ absent }
{
    Quantized {
        order: 0,
        indices: [8; 8],
        coefficients: [0.0; 8],
    }
}
