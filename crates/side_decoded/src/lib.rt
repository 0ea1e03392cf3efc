// The decoder's filters that orders and indices stand for, over the bands of a row of the caller's own
// spectrum: each over the lines of its band, with coefficients by its indices. This undoes the encoder's
// filter. It stands below the doors, which check the frame and the side data first.
#![tactic(auto)]

ghost use Rattle.std.specs.Prelude.{◌≡◌, ◌≤◌, length};
ghost use Rattle.law_lists.specs.Counted.{counted};
ghost use Rattle.row_bands.proofs.Bands.{Fits, SoundRow};
ghost use Rattle.lattice_decoder.specs.DecoderLattice.{line_decoded};
ghost use Rattle.lattice_rows.specs.Filters.{FilteredIn, FilteredRow};
ghost use Rattle.side_decoded.specs.DecoderFilters.{decoder_filter};

use check_side::CheckedSide;
use index_coefficients::eight_coefficients;
use lattice_bands::band_filtered;
use lattice_decoder::Decoder;
use row_bands::{Band, Row};

// The counted filters, each in its band, the states carried from the first to the second. It answers
// the states after them. It requires a row that lies within the lines: the doors have just checked that.
// It is a clause, here and for a band, since it ties a row to the caller's lines, which no type of ours holds.
#[tactic(auto, using(crate::proofs::CountedFilters::if_none, check_limits::proofs::Stands::none_over))]
pub fn filters_decoded(
    row: Row,
    side: &CheckedSide,
    states: [f32; 8],
    lines: &mut [f32],
) -> [f32; 8]
    requires { SoundRow row (length lines.old) }
    ensures { FilteredRow line_decoded row (counted decoder_filter side.now.filters side.now.orders side.now.indices) states lines.old result lines.new }
{
    if side.filters == 0 {
        return states;
    }
    let after = filter_decoded(row.first, side.orders[0], &side.indices[..8], states, lines);
    if side.filters == 1 {
        return after;
    }
    filter_decoded(row.second, side.orders[1], &side.indices[8..], after, lines)
}

// One filter, in its band of the whole spectrum. It answers the states after it. Its eight indices are a part of sixteen
// and a clause: as arrays, by `first_chunk` and `last_chunk`, each call would unwrap them, which is no plainer.
fn filter_decoded(
    band: Band,
    order: u8,
    indices: &[u8],
    states: [f32; 8],
    lines: &mut [f32],
) -> [f32; 8]
    requires fits { Fits band (length lines.old) }
    requires order_bound { order ≤ 8 }
    requires eight { length indices.now ≡ 8 }
    ensures { FilteredIn line_decoded band (decoder_filter order indices.now) states lines.old result lines.new }
{
    if order == 0 {
        return states;
    }
    if band.start == band.stop {
        return states;
    }
    let q = eight_coefficients(indices.try_into().unwrap());
    band_filtered::<Decoder>(q, order, states, &mut lines[band.start..band.stop])
}
