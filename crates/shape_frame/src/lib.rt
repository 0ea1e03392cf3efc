// The analysis of a frame: a filter for each band of its row, analysed by shape_filter and quantized, its
// gain, and what the side data costs. It assumes a frame that the encode call has checked: the row is one of the
// table's, and its lines are there. That (`Long`, `LongRow`) stays a clause of each function: a type for it would
// join a band or a row with a borrow of the caller's lines, which the definitions take one by one.
#![tactic(auto)]

ghost use Rattle.std.specs.Prelude.{◌≡◌, length};
ghost use Rattle.shape_lags.specs.LongBands.{Long, LongRow};
ghost use Rattle.check_side.specs.Sides.{SoundSide};
ghost use Rattle.cost_call.specs.Cost.{counted_bits};
ghost use Rattle.side_data.specs.Side.{orders_in, indices_in};
ghost use Rattle.shape_frame.specs.FrameSide.{count_of, shaped_of, shaped_second, frame_found};

use check_side::CheckedSide;
use cost_call::counted_bits;
use row_bands::{Band, Row};
use shape_filter::analyse;
use shape_gain::{FilterGain, Gains, absent_gain};
use side_data::{SideData, bytes_of};
use side_quantized::{Quantized, none, quantize_all};

// What the analysis finds in a frame: its side data, their bits, and the gains.
#[derive(Clone, Copy, Debug, PartialEq)]
pub struct Found {
    pub bits: u16,
    pub side: SideData,
    pub gains: Gains,
}

// What it finds in a band: the filter, and its record of gain, damping and on/off.
#[derive(Clone, Copy)]
struct Shaped {
    filter: Quantized,
    gain: FilterGain,
}

// The filter of a band, and its record. Lines, band or row, flag and weighting stand one by one here and below, as in
// the definitions: a struct of them would hold a borrow and be taken apart at once.
fn filter_of(lines: &[f32], band: Band, flag: bool, weighting: u8) -> Shaped
    requires { Long band (length lines.now) }
    ensures { result ≡ shaped_of band lines.now flag weighting }
{
    let found = analyse(lines, band, flag, weighting);
    let filter = if found.gain.on {
        quantize_all(found.reflections)
    } else {
        none()
    };
    Shaped {
        filter,
        gain: found.gain,
    }
}

// The same of the second band, or of none.
fn second_of(lines: &[f32], row: Row, flag: bool, weighting: u8) -> Shaped
    requires { LongRow row (length lines.now) }
    ensures { result ≡ shaped_second row lines.now flag weighting }
{
    if row.second.stop == 0 {
        Shaped {
            filter: none(),
            gain: absent_gain(),
        }
    } else {
        filter_of(lines, row.second, flag, weighting)
    }
}

fn count_of(row: Row) -> u8
    ensures { result ≡ count_of row }
{
    if row.second.stop == 0 { 1 } else { 2 }
}

// The bits of side data at a weighting. The 20 bytes have both filters' orders and indices one after the
// other. The weighting comes from the caller, though the side data has it too: of the caller's the compiler
// knows that it is 0 or 1, and so it lays out the loop over the filters only once (docs/DECISIONS.md).
fn side_bits(weighting: u8, side: SideData) -> u16
    requires { SoundSide side.filters (orders_in side) (indices_in side) }
    ensures { result ≡ counted_bits weighting side.filters (orders_in side) (indices_in side) }
{
    let bytes = bytes_of(side);
    let side = CheckedSide {
        filters: side.filters,
        orders: [bytes[2], bytes[3]],
        indices: bytes[4..].try_into().unwrap(),
    };
    counted_bits(weighting, &side)
}

// The side data of a frame, their bits, and the gains. The `requires` is what the encode call has checked: the row
// is one of the table's, and its lines are there. `flag` is the near-Nyquist flag.
pub fn analyse_frame(lines: &[f32], row: Row, flag: bool, weighting: u8) -> Found
    requires { LongRow row (length lines.now) }
    ensures { result ≡ frame_found row lines.now flag weighting }
{
    let first = filter_of(lines, row.first, flag, weighting);
    let second = second_of(lines, row, flag, weighting);
    let side = SideData {
        weighting,
        filters: count_of(row),
        first: first.filter,
        second: second.filter,
    };
    Found {
        bits: side_bits(weighting, side),
        side,
        gains: Gains {
            first: first.gain,
            second: second.gain,
        },
    }
}
