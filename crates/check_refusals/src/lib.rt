// The eight refusals of docs/RULES.md, "Refusal numbers", for every call on a spectrum or its side data.
#![tactic(auto)]

ghost use Rattle.std.specs.Prelude.{◌≡◌};
ghost use Rattle.check_verdicts.specs.Verdicts.{number_of, place_of, found_of};
ghost use Rattle.check_refusals.specs.Refusals.{says};

// Why a call is refused, in the order of the numbers 1 to 8. A refusal of an order or an
// index holds the lowest bad place and the number found there.
#[derive(Clone, Copy, Debug, PartialEq, Eq)]
pub enum Refusal {
    Duration,
    Bandwidth,
    SpectrumLength,
    ListLength,
    FilterCount,
    Order { place: usize, found: u8 },
    Index { place: usize, found: u8 },
    Weighting,
}

impl Refusal {
    // The refusal's number. `as` takes no enum whose variants have fields.
    pub fn number(self) -> u8
        ensures { result ≡ number_of (says self) }
    {
        match self {
            Refusal::Duration => 1,
            Refusal::Bandwidth => 2,
            Refusal::SpectrumLength => 3,
            Refusal::ListLength => 4,
            Refusal::FilterCount => 5,
            Refusal::Order { .. } => 6,
            Refusal::Index { .. } => 7,
            Refusal::Weighting => 8,
        }
    }

    // The lowest bad place of refusals 6 and 7, and 0 of the others, as callers are told it.
    pub fn place(self) -> usize
        ensures { result ≡ place_of (says self) }
    {
        match self {
            Refusal::Order { place, .. } | Refusal::Index { place, .. } => place,
            _ => 0,
        }
    }

    // The number found at that place, and 0 of the others. It has the shape of `place`, and reads another field.
    pub fn found(self) -> u8
        ensures { result ≡ found_of (says self) }
    {
        match self {
            Refusal::Order { found, .. } | Refusal::Index { found, .. } => found,
            _ => 0,
        }
    }
}
