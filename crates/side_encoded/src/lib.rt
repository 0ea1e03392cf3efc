// What encoding does to the lines of a frame: both filters of its side data in the caller's own
// spectrum, each over the lines of its band. Nothing is checked here: the encode call has done so.
#![tactic(auto)]

ghost use Rattle.std.specs.Prelude.{◌≡◌, ◌≤◌, length};
ghost use Rattle.row_bands.proofs.Bands.{Fits, SoundRow};
ghost use Rattle.lattice_encoder.specs.EncoderLattice.{line_encoded};
ghost use Rattle.lattice_rows.specs.Filters.{filter_with, FilteredIn};
ghost use Rattle.side_data.specs.Limits.{Reported};
ghost use Rattle.side_encoded.specs.SideFilters.{filter_in, filtered_by};

use lattice_bands::band_filtered;
use lattice_encoder::Encoder;
use row_bands::{Band, Row};
use side_data::SideData;
use side_quantized::Quantized;

// Both filters, each in its band, the states carried from the first to the second. The `requires` are
// what the encode call has just checked of the frame, that the bands of the row lie in the lines (a clause, as in
// side_decoded), and what its analysis promises of the side data that it finds.
pub fn two_encoded(row: Row, side: SideData, lines: &mut [f32])
    requires sound_row { SoundRow row (length lines.old) }
    requires reported { Reported side }
    ensures { lines.new ≡ filtered_by side row lines.old }
{
    let states = unless_idle(row.first, side.first, [0.0; 8], lines);
    unless_idle(row.second, side.second, states, lines);
}

// One filter, from some states. Where it has order 0 nothing is done.
fn unless_idle(band: Band, filter: Quantized, states: [f32; 8], lines: &mut [f32]) -> [f32; 8]
    requires fits { Fits band (length lines.old) }
    requires order_bound { filter.order ≤ 8 }
    ensures { FilteredIn line_encoded band (filter_in filter) states lines.old result lines.new }
{
    if filter.order == 0 {
        return states;
    }
    let q = filter.coefficients;
    filter_encoded(band, q, filter.order, states, lines)
}

// A filter that acts, in its band of the whole spectrum. It answers the states after it. The lattice's loop
// stays in here, apart from the test of the order: so a filter of order 0 makes no call and copies nothing
// (docs/DECISIONS.md, "Speed").
#[inline(never)]
fn filter_encoded(
    band: Band,
    q: [f32; 8],
    order: u8,
    states: [f32; 8],
    lines: &mut [f32],
) -> [f32; 8]
    requires fits { Fits band (length lines.old) }
    requires order_bound { order ≤ 8 }
    ensures { FilteredIn line_encoded band (filter_with q order) states lines.old result lines.new }
{
    band_filtered::<Encoder>(q, order, states, &mut lines[band.start..band.stop])
}
