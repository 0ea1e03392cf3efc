// The search for a number over a limit: whether there is one, and the lowest place of one. It knows nothing
// of what the numbers are.
#![tactic(auto)]

ghost use Rattle.std.specs.Prelude.{◌≡◌, is_none, nat_lt, position};
ghost use Rattle.check_limits.specs.LowestOver.{lowest_over};

// A number over a limit: where it stands, and what it is.
#[derive(Clone, Copy, Debug, PartialEq, Eq)]
pub struct Over {
    pub place: usize,
    pub found: u8,
}

// Whether no number is over `limit`. It has no early way out, as `all` has, so that the compiler can compare
// them all at once.
pub fn none_over(numbers: &[u8], limit: u8) -> bool
    ensures { result ≡ is_none (lowest_over limit 0 numbers.now) }
{
    numbers
        .iter()
        .fold(true, |none, number| none & (*number <= limit))
}

// The first place whose number is over `limit`.
fn first_over(numbers: &[u8], limit: u8) -> Option<usize>
    ensures { result ≡ position (λ x. nat_lt limit x) numbers.now }
{
    numbers.iter().position(|number| *number > limit)
}

// The lowest place whose number is over `limit`, and that number. That there is none is told soonest.
pub fn lowest_over(numbers: &[u8], limit: u8) -> Option<Over>
    ensures { result ≡ lowest_over limit 0 numbers.now }
{
    if none_over(numbers, limit) {
        return None;
    }
    let place = first_over(numbers, limit)?;
    let found = numbers[place];
    Some(Over { place, found })
}
