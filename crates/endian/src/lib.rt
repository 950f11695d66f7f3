// Numbers of 1 to 8 bytes at an offset of a byte slice, lowest byte first or highest byte first: read and written.
// The types that every other crate shares stand here too: the order, the class, and the fault that a refusal carries.
// `read` is for callers that have tested the range of a whole entry; `number_at` tests it itself.
#![tactic(auto)]

mod fault;
mod number;

ghost use Rattle.std.specs.Prelude.{◌≡◌, ◌+◌, ◌≤◌, length};
ghost use Rattle.endian.specs.Number.{number_at, signed};
ghost use Rattle.endian.specs.Place.{word};
ghost use Rattle.endian.specs.Range.{range_fault, answer};
ghost use Rattle.endian.specs.Said.{class_of, order_of, class_byte, order_byte};

pub use fault::Fault;
pub use number::{Number, Store};

#[derive(Clone, Copy, Debug, PartialEq, Eq)]
pub enum Order {
    Little,
    Big,
}

#[derive(Clone, Copy, Debug, PartialEq, Eq)]
pub enum Class {
    Elf32,
    Elf64,
}

// The order that a byte of the identification says.
impl TryFrom<u8> for Order {
    type Error = Fault;

    ghost try_from_gives = { λ b r. r ≡ order_of b };

    fn try_from(b: u8) -> Result<Order, Fault> {
        match b {
            1 => Ok(Order::Little),
            2 => Ok(Order::Big),
            _ => Err(Fault::BadOrder),
        }
    }
}

// The class that a byte of the identification says.
impl TryFrom<u8> for Class {
    type Error = Fault;

    ghost try_from_gives = { λ b r. r ≡ class_of b };

    fn try_from(b: u8) -> Result<Class, Fault> {
        match b {
            1 => Ok(Class::Elf32),
            2 => Ok(Class::Elf64),
            _ => Err(Fault::BadClass),
        }
    }
}

// And the bytes that say them.
impl From<Order> for u8 {
    ghost from_gives = { λ e b. b ≡ order_byte e };

    fn from(order: Order) -> u8 {
        match order {
            Order::Little => 1,
            Order::Big => 2,
        }
    }
}

impl From<Class> for u8 {
    ghost from_gives = { λ c b. b ≡ class_byte c };

    fn from(class: Class) -> u8 {
        match class {
            Class::Elf32 => 1,
            Class::Elf64 => 2,
        }
    }
}

impl Class {
    // The bytes of a number that is as wide as the class.
    #[inline(always)]
    pub fn word(self) -> usize
        ensures { result ≡ word self }
    {
        match self {
            Class::Elf32 => 4,
            Class::Elf64 => 8,
        }
    }
}

// The number as wide as the class at o, where the caller has tested the range.
#[inline(always)]
pub fn word_in(class: Class, order: Order, d: &[u8], o: usize) -> u64
    requires { o + word class ≤ length d.now }
    ensures { result ≡ number_at order (word class) d.now o }
{
    match class {
        Class::Elf32 => u64::from(u32::read(order, d, o)),
        Class::Elf64 => u64::read(order, d, o),
    }
}

// The same number read as two's complement, as wide as the entries of both classes have it.
#[inline(always)]
pub fn signed_in(class: Class, order: Order, d: &[u8], o: usize) -> i64
    requires { o + word class ≤ length d.now }
    ensures { result ≡ signed (word class) (number_at order (word class) d.now o) }
{
    match class {
        Class::Elf32 => i64::from(i32::read(order, d, o)),
        Class::Elf64 => i64::read(order, d, o),
    }
}

// Whether the w bytes at o lie in the length: Overflow where their end overflows, OutsideData where it is outside.
#[tactic(auto, unfolding(crate::specs::Range::range_fault))]
pub fn range_fault(len: usize, o: usize, w: usize) -> Result<(), Fault>
    ensures { result ≡ range_fault len o w }
{
    let end = o.checked_add(w).ok_or(Fault::Overflow)?;
    if end <= len {
        Ok(())
    } else {
        Err(Fault::OutsideData)
    }
}

// In the order given, at any offset.
#[tactic(auto, unfolding(crate::specs::Range::range_fault))]
pub fn number_at<N: Number>(order: Order, d: &[u8], o: usize) -> Result<N, Fault>
    ensures { result ≡ answer (range_fault (length d.now) o N.SIZE) (N.value (number_at order N.SIZE d.now o)) }
{
    range_fault(d.len(), o, N::SIZE)?;
    Ok(N::read(order, d, o))
}
