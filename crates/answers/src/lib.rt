// The answers of the calls, their numbers, and the checks of what the calls are given. An inner crate, but no function here requires
// anything.
#![tactic(auto)]

ghost use Rattle.std.specs.Prelude.{◌≡◌, ℕ};
ghost use Rattle.answers.specs.Answers.{doubt_number, refusal_number, place_named, finding_number, result_number};

mod checks;
mod maps;
mod places;
mod side;
mod volume;

pub use checks::{check_pair, check_parts, check_size};
pub use maps::check_count_and_map;
pub use places::Places;
pub use side::{Side, check_open};
pub use volume::{Lengths, Volume};

// Document 01's three places.
#[derive(Clone, Copy, Debug, PartialEq, Eq)]
pub enum Place {
    Local,
    Tag,
    Remote,
}

// Document 01's refusals, from 1 on, and then those of the change requests. 12 is the program `frames`'s, 8 to 11 and 13 are a
// volume's.
#[derive(Clone, Copy, Debug, PartialEq, Eq)]
pub enum Refusal {
    KeyLength,
    SectorSize,
    OtherLength,
    UnknownSide,
    NoneFits,
    Lost,
    Clashing,
    VolumeShape,
    SectorNumber,
    StageOrder,
    ListLength,
    NoFrame,
    MapLength,
    ZeroHashKey,
}

// What judging finds where it does not refuse.
#[derive(Clone, Copy, Debug, PartialEq, Eq)]
pub enum Found {
    Whole,
    Doubtful(Place),
}

// ---- the numbers of answers

impl From<Place> for u8 {
    ghost from_gives = { λ place n. n ≡ doubt_number (place_named place) };

    fn from(place: Place) -> u8 {
        match place {
            Place::Local => 0x81,
            Place::Tag => 0x82,
            Place::Remote => 0x83,
        }
    }
}

impl From<Refusal> for u8 {
    ghost from_gives = { λ refusal n. n ≡ refusal_number refusal };

    fn from(refusal: Refusal) -> u8 {
        match refusal {
            Refusal::KeyLength => 1,
            Refusal::SectorSize => 2,
            Refusal::OtherLength => 3,
            Refusal::UnknownSide => 4,
            Refusal::NoneFits => 5,
            Refusal::Lost => 6,
            Refusal::Clashing => 7,
            Refusal::VolumeShape => 8,
            Refusal::SectorNumber => 9,
            Refusal::StageOrder => 10,
            Refusal::ListLength => 11,
            Refusal::NoFrame => 12,
            Refusal::MapLength => 13,
            Refusal::ZeroHashKey => 14,
        }
    }
}

// What a call answers, as the number that a C caller reads.
pub trait Answer {
    ghost number: { Self → ℕ };

    fn number(self) -> u8
        ensures { result ≡ number self };
}

impl Answer for () {
    ghost number = { λ _. 0 };

    fn number(self) -> u8 {
        0
    }
}

impl Answer for Found {
    ghost number = { finding_number };

    fn number(self) -> u8 {
        match self {
            Found::Whole => 0,
            Found::Doubtful(place) => u8::from(place),
        }
    }
}

impl<T: Answer> Answer for Result<T, Refusal> {
    ghost number = { result_number T.number };

    fn number(self) -> u8 {
        match self {
            Ok(found) => found.number(),
            Err(refusal) => u8::from(refusal),
        }
    }
}
