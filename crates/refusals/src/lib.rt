// Document 01's table of refusals, for code: what a call is refused by, and the tests that refuse.
#![tactic(auto)]

ghost use Rattle.std.specs.Prelude.{◌≡◌};
ghost use Rattle.refusals.specs.Outcome.{outcome_of};
ghost use Rattle.refusals.specs.Refusals.{unless};
ghost use Rattle.refusals.specs.Faults.{number};

pub mod numbers;

// What a call may be refused by: document 01's table of numbers, by name.
#[derive(Clone, Copy, Debug, PartialEq, Eq)]
pub enum Fault {
    BadModulus,
    OverLimit,
    Malformed,
    OutsidePlan,
    RepeatedPlace,
    ValueOutOfRange,
    StorageTooShort,
    BadPlan,
    WrongLength,
    BadHeader,
    NoPermutation,
    RankTooLarge,
    BadFactors,
    ProductDiffers,
    QuestionTooLarge,
    OwnerTooLarge,
}

// A refusal: the fault, and document 01's detail of it, which is 0 where there is none.
#[derive(Clone, Copy, Debug, PartialEq, Eq)]
pub struct Refusal {
    pub fault: Fault,
    pub detail: u32,
}

// A fault's number in document 01's table.
impl From<Fault> for u32 {
    ghost from_gives = { λ fault n. n ≡ number fault };

    fn from(fault: Fault) -> u32 {
        match fault {
            Fault::BadModulus => numbers::BAD_MODULUS,
            Fault::OverLimit => numbers::OVER_LIMIT,
            Fault::Malformed => numbers::MALFORMED,
            Fault::OutsidePlan => numbers::OUTSIDE_PLAN,
            Fault::RepeatedPlace => numbers::REPEATED_PLACE,
            Fault::ValueOutOfRange => numbers::VALUE_OUT_OF_RANGE,
            Fault::StorageTooShort => numbers::STORAGE_TOO_SHORT,
            Fault::BadPlan => numbers::BAD_PLAN,
            Fault::WrongLength => numbers::WRONG_LENGTH,
            Fault::BadHeader => numbers::BAD_HEADER,
            Fault::NoPermutation => numbers::NO_PERMUTATION,
            Fault::RankTooLarge => numbers::RANK_TOO_LARGE,
            Fault::BadFactors => numbers::BAD_FACTORS,
            Fault::ProductDiffers => numbers::PRODUCT_DIFFERS,
            Fault::QuestionTooLarge => numbers::QUESTION_TOO_LARGE,
            Fault::OwnerTooLarge => numbers::OWNER_TOO_LARGE,
        }
    }
}

// A fault that has no detail.
impl From<Fault> for Refusal {
    ghost from_gives = { λ fault r. r ≡ record { fault = fault; detail = 0 } };

    fn from(fault: Fault) -> Refusal {
        Refusal { fault, detail: 0 }
    }
}

// Passed where the test holds, else refused by that fault, without a detail.
pub fn demand(holds: bool, fault: Fault) -> Result<(), Refusal>
    ensures { outcome_of result ≡ unless holds (number fault) 0 }
{
    if holds { Ok(()) } else { Err(fault.into()) }
}
