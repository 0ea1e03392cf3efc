// The checks of a frame's codes, which calls on spectra and records of a narration share.
ghost use Rattle.std.specs.Prelude.{◌≡◌};
ghost use Rattle.check_verdicts.specs.Verdicts.{no_fault, verdict_by};
ghost use Rattle.check_refusals.specs.Refusals.{says};
ghost use Rattle.check_side.specs.Sides.{code_checks};

use check_refusals::Refusal;

// Refusals 1 and 2, in number order, the first standing.
pub fn check_codes(duration: u8, bandwidth: u8) -> Result<(), Refusal>
    ensures { verdict_by says result ≡ code_checks duration bandwidth no_fault }
{
    if duration > 1 {
        return Err(Refusal::Duration);
    }
    if bandwidth > 4 {
        return Err(Refusal::Bandwidth);
    }
    Ok(())
}
