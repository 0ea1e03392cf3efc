// The encode call: its door. A frame goes through it in the order of this file: its checks and its
// weighting in `encode`, and in `row_encoded` its analysis, and then the filters that this finds, in the
// caller's own spectrum.
#![tactic(auto)]

ghost use Rattle.std.specs.Prelude.{◌≡◌, length};
ghost use Rattle.row_durations.specs.Durations.{duration_of};
ghost use Rattle.row_bands.specs.Bands.{row_of};
ghost use Rattle.row_bands.proofs.Bands.{SoundRow};
ghost use Rattle.side_data.specs.Side.{no_filter};
ghost use Rattle.shape_gain.specs.Gains.{no_gains};
ghost use Rattle.shape_lags.specs.LongBands.{LongRow};
ghost use Rattle.shape_frame.specs.FrameSide.{side_of, gains_of};
ghost use Rattle.call_encode.specs.Encoder.{encode_verdict, gains_found, Encodes, refused_with, RowEncodes};

use check_frame::check_frame;
use check_refusals::Refusal;
use row_bands::Row;
use row_durations::{duration_of, lpc_weighting};
use shape_frame::analyse_frame;
use shape_gain::{FilterGain, Gains};
use side_data::SideData;
use side_encoded::two_encoded;
use side_quantized::Quantized;

// The answer of `encode`, the bits of the side data or why there are none, with the side data and the gains
// beside it. These stand beside it, and not in its `Ok`, since `Encodes` promises what they are of a refused
// call too.
#[derive(Clone, Copy)]
pub struct Encoded {
    pub answer: Result<u16, Refusal>,
    pub side: SideData,
    pub gains: Gains,
}

// Encodes a spectrum in place. Any numbers may be given: a frame that docs/RULES.md refuses is refused
// by number, leaves every line as it was, and has no side data and no gains. `flag` is the near-Nyquist flag.
pub fn encode(duration: u8, bandwidth: u8, nbits: u64, flag: bool, lines: &mut [f32]) -> Encoded
    ensures { Encodes (encode_verdict duration bandwidth nbits flag lines.old) (gains_found duration bandwidth nbits flag lines.old) (row_of (duration_of duration) bandwidth) lines.old lines.new result }
{
    match check_frame(duration, bandwidth, lines.len()) {
        Err(why) => refused(why),
        Ok(row) => {
            let weighting = lpc_weighting(duration_of(duration), nbits);
            row_encoded(row, flag, weighting, lines)
        }
    }
}

// Zeros in all places, as a refused call reports them. They are no `Default` of their types: a band that a row does not
// have gets index 8 and damping 1 (`none`, `absent_gain`), which a default would be taken for.
fn no_filter() -> Quantized
    ensures { result ≡ no_filter }
{
    Quantized {
        coefficients: [0.0; 8],
        indices: [0; 8],
        order: 0,
    }
}

fn no_gains() -> Gains
    ensures { result ≡ no_gains }
{
    Gains {
        first: FilterGain {
            gain: 0.0,
            damping: 0.0,
            on: false,
        },
        second: FilterGain {
            gain: 0.0,
            damping: 0.0,
            on: false,
        },
    }
}

// What a refused call gives beside the refusal: nothing.
fn refused(why: Refusal) -> Encoded
    ensures { result ≡ refused_with why }
{
    let first = no_filter();
    let second = no_filter();
    let side = SideData {
        weighting: 0,
        filters: 0,
        first,
        second,
    };
    let gains = no_gains();
    Encoded {
        answer: Err(why),
        side,
        gains,
    }
}

// A sound frame: the bits, the side data and the gains of its filters, and its bands filtered. What is known of row and
// lines are clauses, as in side_decoded and shape_frame.
fn row_encoded(row: Row, flag: bool, weighting: u8, lines: &mut [f32]) -> Encoded
    requires sound_row { SoundRow row (length lines.old) }
    requires long_row { LongRow row (length lines.old) }
    ensures { RowEncodes (side_of row lines.old flag weighting) (gains_of row lines.old flag weighting) row lines.old lines.new result }
{
    let found = analyse_frame(lines, row, flag, weighting);
    let side = found.side;
    let gains = found.gains;
    two_encoded(row, side, lines);
    Encoded {
        answer: Ok(found.bits),
        side,
        gains,
    }
}
