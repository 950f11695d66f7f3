// Why a file is not planned, or a plan not carried out, as an error of its own; document 01's number of each crosses to C.
// Assumes nothing.

ghost use Rattle.std.specs.Prelude.{◌≡◌};
ghost use Rattle.load_plan.specs.Refusal.{number_of, fault_of};
ghost use Rattle.load_plan.specs.declared.refusal.Refusal.TheVariants.{Unreadable};

use endian::Fault;

#[derive(Clone, Copy, Debug, PartialEq, Eq)]
pub enum Refusal {
    // the table has no room for the records, or has not so many
    ShortTable,
    // 20: the file is longer than 1 GiB, has no segments, or can't be opened
    TooLong,
    NoSegments,
    Unreadable(Fault),
    // the tests 21 to 27
    OtherKind,
    Unfit,
    Skewed,
    Outside,
    Clash,
    WriteExec,
    NoEntry,
}

impl Refusal {
    // What the reader says of a file that can't be opened.
    pub fn reader(self) -> Option<Fault>
        ensures { result ≡ fault_of self }
    {
        match self {
            Refusal::Unreadable(fault) => Some(fault),
            _ => None,
        }
    }
}

impl From<Fault> for Refusal {
    ghost from_gives = { λ f r. r ≡ Unreadable f };

    fn from(fault: Fault) -> Refusal {
        Refusal::Unreadable(fault)
    }
}

impl From<Refusal> for u32 {
    ghost from_gives = { λ r n. n ≡ number_of r };

    fn from(r: Refusal) -> u32 {
        match r {
            Refusal::ShortTable => 14,
            Refusal::TooLong | Refusal::NoSegments | Refusal::Unreadable(_) => 20,
            Refusal::OtherKind => 21,
            Refusal::Unfit => 22,
            Refusal::Skewed => 23,
            Refusal::Outside => 24,
            Refusal::Clash => 25,
            Refusal::WriteExec => 26,
            Refusal::NoEntry => 27,
        }
    }
}
