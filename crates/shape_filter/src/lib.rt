// The analysis of one filter: from the lines of a band to the record of gain, damping and on/off, and to
// eight reflection coefficients, everything in E's order of float operations. Nothing is quantized here.
#![tactic(auto)]

ghost use Rattle.std.specs.Prelude.{◌≡◌, length};
ghost use Rattle.shape_lags.specs.LongBands.{Long};
ghost use Rattle.shape_filter.specs.Analysis.{analysed_of};

use row_bands::Band;
use shape_gain::{FilterGain, gain_record};
use shape_lags::autocorrelated;
use shape_recursion::predict;
use shape_reflections::{damped_row, reflected_row};

// What the analysis gives: the record, and eight reflection coefficients, which are zeros where the filter is off. They
// are no Option, since `reflections_of` has zeros there too, and the promise of `analyse` is the promise of those.
#[derive(Clone, Copy, Debug, PartialEq)]
pub struct Analysed {
    pub gain: FilterGain,
    pub reflections: [f32; 8],
}

// The analysis of a band. It requires what the lags require: three subbands of eight lines or more, all of
// them there. The bands of every row keep it, and the encode call has checked that the row's lines are
// there, before shape_frame calls this for each band. `flag` is the near-Nyquist flag.
#[tactic(auto, unfolding(crate::specs::Analysis::filter_record, crate::specs::Analysis::reflections_of))]
pub fn analyse(lines: &[f32], band: Band, flag: bool, weighting: u8) -> Analysed
    requires { Long band (length lines.now) }
    ensures { result ≡ analysed_of band lines.now flag weighting }
{
    let r = autocorrelated(lines, band);
    let p = predict(r);
    let gain = gain_record(r[0], p.error, flag, weighting);
    let reflections = if gain.on {
        reflected_row(damped_row(p.row, gain.damping))
    } else {
        [0.0; 8]
    };
    Analysed { gain, reflections }
}
