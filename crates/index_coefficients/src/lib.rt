// The coefficient of an index: what `apply_quantization` does in E, with a table in the place of the sine.
// The table comes from a sweep of the Rust (oracle/RESULTS.txt).
#![tactic(auto)]

ghost use Rattle.std.specs.Prelude.{◌≡◌, map};
ghost use Rattle.index_coefficients.specs.Coefficients.{coefficient_of};

const COEFFICIENTS: [f32; 17] = [
    -0.99573416,
    -0.96182567,
    -0.8951633,
    -0.7980172,
    -0.6736956,
    -0.52643216,
    -0.36124167,
    -0.18374951,
    0.0,
    0.18374951,
    0.36124167,
    0.52643216,
    0.6736956,
    0.7980172,
    0.8951633,
    0.96182567,
    0.99573416,
];

// The coefficient of an index from 0 to 16, and 0 of any other.
#[tactic(auto, unfolding(crate::specs::Coefficients::coefficient_of))]
pub fn coefficient_of(index: u8) -> f32
    ensures { result ≡ coefficient_of index }
{
    COEFFICIENTS.get(index as usize).copied().unwrap_or(0.0)
}

// The coefficients of a filter's eight indices, for the decoder. The table is bound once: read by
// `coefficient_of`, it would be written out for each of them. The decoder is its one caller, so that
// the compiler puts it there: handed back through memory, the coefficients would not stay in registers
// (docs/DECISIONS.md).
pub fn eight_coefficients(indices: [u8; 8]) -> [f32; 8]
    ensures { result ≡ map coefficient_of indices }
{
    let table = COEFFICIENTS;
    indices.map(|index| table.get(index as usize).copied().unwrap_or(0.0))
}
