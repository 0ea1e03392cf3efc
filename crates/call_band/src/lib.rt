// The band that a caller asks for: that part of its own spectrum, as the decoder hands it back. It refuses
// nothing: a frame that is refused has no band.
#![tactic(auto)]

ghost use Rattle.std.specs.Prelude.{◌≡◌, length};
ghost use Rattle.row_bands.specs.Bands.{band_of};
ghost use Rattle.call_band.specs.AskedBand.{asked_band, PartOf};

use check_frame::check_frame;
use row_bands::{Band, Row};

// The band of a filter in a row, and none of a third filter.
fn band_of(row: Row, filter: u8) -> Band
    ensures { result ≡ band_of row filter }
{
    if filter == 0 {
        return row.first;
    }
    if filter == 1 {
        return row.second;
    }
    Band::default()
}

// Where a caller's band lies in a spectrum of so many lines: nowhere if the row has no such band, or
// if the frame would be refused.
pub fn asked_band(duration: u8, bandwidth: u8, filter: u8, lines: usize) -> Band
    ensures { result ≡ asked_band duration bandwidth filter lines }
{
    check_frame(duration, bandwidth, lines).map_or(Band::default(), |row| band_of(row, filter))
}

// The band itself, as a part of the caller's own spectrum; it may be empty. What it holds and where it
// lies is promised. Of the other lines nothing is: the language says nothing of a `&mut` parameter that
// goes into the result (docs/DECISIONS.md).
pub fn band_lines(duration: u8, bandwidth: u8, filter: u8, lines: &mut [f32]) -> &mut [f32]
    ensures { PartOf (asked_band duration bandwidth filter (length lines.old)) lines.entry.ref_ptr lines.old result.ref_ptr result.now }
{
    let asked = asked_band(duration, bandwidth, filter, lines.len());
    &mut lines[asked.start..asked.stop]
}
