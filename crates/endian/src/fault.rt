// What a refusal says, as an error of its own; document 01's number of each is what crosses to C.
// Assumes nothing.

ghost use Rattle.std.specs.Prelude.{◌≡◌};
ghost use Rattle.endian.specs.Range.{number_of};

#[derive(Clone, Copy, Debug, PartialEq, Eq)]
pub enum Fault {
    BadMagic,
    BadClass,
    BadOrder,
    BadVersion,
    BadOffset,
    NoZeroByte,
    BadEntrySize,
    BadSectionType,
    OutsideData,
    Overflow,
    NotUtf8,
    NoRoom,
}

impl From<Fault> for u32 {
    ghost from_gives = { λ f n. n ≡ number_of f };

    fn from(f: Fault) -> u32 {
        match f {
            Fault::BadMagic => 1,
            Fault::BadClass => 2,
            Fault::BadOrder => 3,
            Fault::BadVersion => 4,
            Fault::BadOffset => 5,
            Fault::NoZeroByte => 6,
            Fault::BadEntrySize => 7,
            Fault::BadSectionType => 8,
            Fault::OutsideData => 11,
            Fault::Overflow => 12,
            Fault::NotUtf8 => 13,
            Fault::NoRoom => 14,
        }
    }
}
