// Why a call is refused: a case for each question that can be answered by no. The documents give each its number, which C, the vectors and
// the definitions have; in code it is a case of this type.
#![tactic(auto)]

ghost use Rattle.std.specs.Prelude.{◌≡◌, ◌<◌, ◌≤◌};
ghost use Rattle.refusals.specs.Refusal.{number_of, number_in};

use std::fmt;

#[derive(Clone, Copy, Debug, PartialEq, Eq)]
pub enum Refusal {
    Unmarked,
    UnknownVersion,
    WrongLength,
    InvalidHeader,
    InvalidUser,
    InvalidTrade,
    WrongPosition,
    UnknownUser,
    NoShipper,
    InvalidPosting,
    NotDue,
    AssignedTooLow,
    AssignedSuffices,
    NothingToCut,
    UnevenList,
    MalformedStore,
    NoSetInForce,
    EmptyLog,
    OtherLog,
    FullLog,
    InformationLost,
    VersionOutputTooShort,
    UnknownTarget,
    TargetOutOfReach,
    TriesOutOfRange,
    NotPermitted,
    BalanceOutOfRange,
    TooManyUsers,
    InvalidForm,
    FormOutputTooShort,
}

impl Refusal {
    // The number of its question.
    pub fn number(self) -> u32
        ensures value { result ≡ number_of self }
        ensures in_range { (1 ≤ result) × (result ≤ 30) }
    {
        match self {
            Refusal::Unmarked => 1,
            Refusal::UnknownVersion => 2,
            Refusal::WrongLength => 3,
            Refusal::InvalidHeader => 4,
            Refusal::InvalidUser => 5,
            Refusal::InvalidTrade => 6,
            Refusal::WrongPosition => 7,
            Refusal::UnknownUser => 8,
            Refusal::NoShipper => 9,
            Refusal::InvalidPosting => 10,
            Refusal::NotDue => 11,
            Refusal::AssignedTooLow => 12,
            Refusal::AssignedSuffices => 13,
            Refusal::NothingToCut => 14,
            Refusal::UnevenList => 15,
            Refusal::MalformedStore => 16,
            Refusal::NoSetInForce => 17,
            Refusal::EmptyLog => 18,
            Refusal::OtherLog => 19,
            Refusal::FullLog => 20,
            Refusal::InformationLost => 21,
            Refusal::VersionOutputTooShort => 22,
            Refusal::UnknownTarget => 23,
            Refusal::TargetOutOfReach => 24,
            Refusal::TriesOutOfRange => 25,
            Refusal::NotPermitted => 26,
            Refusal::BalanceOutOfRange => 27,
            Refusal::TooManyUsers => 28,
            Refusal::InvalidForm => 29,
            Refusal::FormOutputTooShort => 30,
        }
    }
}

impl fmt::Display for Refusal {
    fn fmt<W: fmt::Write>(&self, f: &mut fmt::Formatter<W>) -> fmt::Result {
        write!(f, "refused {}", self.number())
    }
}

// The number of a call: 0 where it is carried out.
pub fn number_of(outcome: Result<(), Refusal>) -> u32
    ensures { result ≡ number_in outcome }
{
    match outcome {
        Ok(()) => 0,
        Err(refusal) => refusal.number(),
    }
}
