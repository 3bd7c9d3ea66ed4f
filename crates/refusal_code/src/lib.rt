// A refusal's number and place.
#![tactic(auto)]

ghost use Rattle.std.specs.Prelude.{◌≡◌};
ghost use Rattle.refusal.specs.Refusals.{number_of, place_of};

use refusal::Refusal;

// The refusal's number in document 01's table.
pub fn number(e: Refusal) -> usize
    ensures { result ≡ number_of e }
{
    match e {
        Refusal::Ended(_) => 1,
        Refusal::Malformed(_) => 2,
        Refusal::WrongKind => 3,
        Refusal::OutsideLimits(_) => 4,
        Refusal::Trailing(_) => 5,
        Refusal::BadRow(_) => 6,
        Refusal::Crowded(_) => 7,
        Refusal::WrongFigure(_) => 8,
        Refusal::NoBlock => 9,
        Refusal::ShortWork(_) => 10,
        Refusal::ShortOutput(_) => 11,
        Refusal::BadOrder(_) => 12,
        Refusal::Unjoinable => 13,
        Refusal::BadWish => 14,
        Refusal::OutOfService(_) => 15,
        Refusal::BadCounts => 16,
        Refusal::TooManySets => 17,
        Refusal::BadRounds => 18,
        Refusal::EarlierEvent(_) => 19,
        Refusal::BadEvent(_) => 20,
        Refusal::SharedFeeder(_) => 21,
    }
}

// The refusal's place.
pub fn place(e: Refusal) -> usize
    ensures { result ≡ place_of e }
{
    match e {
        Refusal::Ended(p) => p,
        Refusal::Malformed(p) => p,
        Refusal::WrongKind => 0,
        Refusal::OutsideLimits(p) => p,
        Refusal::Trailing(p) => p,
        Refusal::BadRow(p) => p,
        Refusal::Crowded(p) => p,
        Refusal::WrongFigure(p) => p,
        Refusal::NoBlock => 0,
        Refusal::ShortWork(p) => p,
        Refusal::ShortOutput(p) => p,
        Refusal::BadOrder(p) => p,
        Refusal::Unjoinable => 0,
        Refusal::BadWish => 0,
        Refusal::OutOfService(p) => p,
        Refusal::BadCounts => 0,
        Refusal::TooManySets => 0,
        Refusal::BadRounds => 0,
        Refusal::EarlierEvent(p) => p,
        Refusal::BadEvent(p) => p,
        Refusal::SharedFeeder(p) => p,
    }
}
