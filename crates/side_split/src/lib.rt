// The decoder's run from a lent spectrum into a lent output, cut at a line: below it and then from it
// on, with the states between them, or from it on alone. It stands below the doors of save and restart,
// which check everything first.
#![tactic(auto)]

ghost use Rattle.std.specs.Prelude.{◌≡◌, ◌++◌, ◌≤◌, length, take, drop};
ghost use Rattle.check_line.proofs.LineChecks.{Ready};
ghost use Rattle.side_split.specs.SplitRun.{lines_from, SavedRow};

use check_side::CheckedSide;
use lattice_rows::{row_below_line, row_from_line};
use row_bands::Row;
use side_decoded::filters_decoded;

// A sound frame, decoded into the output in two runs. It answers the states between them. It requires
// that row, side data, line and output are `Ready`: `save` has just checked them.
pub fn row_saved(
    row: Row,
    side: &CheckedSide,
    spectrum: &[f32],
    output: &mut [f32],
    n: usize,
) -> [f32; 8]
    requires { Ready row side.now.filters side.now.orders side.now.indices (length spectrum.now) n (length output.old) }
    ensures { SavedRow n row side.now.filters side.now.orders side.now.indices spectrum.now output.new result }
{
    copy_from(spectrum, 0, output);
    let below = row_below_line(n, row);
    let before = filters_decoded(below, side, [0.0; 8], output);
    let rest = row_from_line(n, row);
    filters_decoded(rest, side, before, output);
    before
}

// A sound frame, decoded into the output from line n on. It requires that row, side data, line and
// output are `Ready`: `restart` has just checked them.
pub fn row_restarted(
    row: Row,
    side: &CheckedSide,
    spectrum: &[f32],
    output: &mut [f32],
    n: usize,
    states: [f32; 8],
)
    requires { Ready row side.now.filters side.now.orders side.now.indices (length spectrum.now) n (length output.old) }
    ensures { output.new ≡ take n output.old ++ lines_from n row side.now.filters side.now.orders side.now.indices states spectrum.now }
{
    copy_from(spectrum, n, output);
    let rest = row_from_line(n, row);
    filters_decoded(rest, side, states, output);
}

// The lines of the spectrum from line n on, into the output. By copy_from_slice save and restart took up to 14
// percent longer, and the archive would call memmove (docs/DECISIONS.md).
fn copy_from(spectrum: &[f32], n: usize, output: &mut [f32])
    requires output_len { length output.old ≡ length spectrum.now }
    requires n_in_bounds { n ≤ length spectrum.now }
    ensures { output.new ≡ take n output.old ++ drop n spectrum.now }
{
    for i in n..output.len() {
        output[i] = spectrum[i];
    }
}
