// Tables and ranges: entry i of a table, how many entries it has, the first of a kind, a range of the data.
// A table is a part of the data with entries of one size; what stands behind the last whole entry is ignored.
// Each kind of entry says its size and its fields by the trait `ParseAt`; `entry` and `entry_in` are one function for all kinds.
#![tactic(auto)]

ghost use Rattle.std.specs.Prelude.{◌≡◌, ℕ, ◌+◌, ◌*◌, ◌^◌, ◌<◌, ◌≤◌, leb, List, length};
ghost use Rattle.endian.specs.declared.Class.{Class};
ghost use Rattle.endian.specs.declared.Order.{Order};
ghost use Rattle.endian.specs.Range.{answer};
ghost use Rattle.parse.specs.Entry.{entry_fault, count_of, range_at, part_of};
ghost use Rattle.parse.specs.First.{first_kind};

use endian::{Class, Fault, Number, Order};

// An entry of fixed size: how many bytes it has in a class, and what the bytes at an offset say. Class and order come apart, here
// and wherever entries are read: `entry_in` calls a reader with both as constants, a size asks for the class alone, a number for
// the order.
pub trait ParseAt: Copy {
    ghost size: { Class → ℕ };

    ghost at: { Class → Order → List ℕ → ℕ → Self };

    fn size_of(class: Class) -> usize
        ensures { result ≡ size class };

    // The entry at o, which the caller knows to be whole.
    fn read(class: Class, order: Order, t: &[u8], o: usize) -> Self
        requires { o + size class ≤ length t.now }
        ensures { result ≡ at class order t.now o };

    // No entry is empty.
    ghost some_bytes: { (c : Class) → 0 < size c };
}

// A part of the data, from the first byte up to, not including, the last: two offsets, as they cross to C.
#[derive(Clone, Copy, Debug, PartialEq, Eq)]
pub struct Range {
    pub from: usize,
    pub to: usize,
}

impl Range {
    // The bytes of a range that lies in the data.
    pub fn part(self, d: &[u8]) -> &[u8]
        requires { (self.from ≤ self.to) × (self.to ≤ length d.now) }
        ensures { result.now ≡ part_of d.now self }
    {
        &d[self.from..self.to]
    }
}

// Ok where entry i of a table of len bytes is whole, else the fault of the first test that fails.
#[tactic(auto, unfolding(crate::specs::Entry::entry_fault))]
pub fn entry_fault(size: usize, len: usize, i: usize) -> Result<(), Fault>
    ensures { result ≡ entry_fault size len i }
{
    if len == 0 {
        return Err(Fault::BadOffset);
    }
    let start = i.checked_mul(size).ok_or(Fault::Overflow)?;
    if start > len {
        return Err(Fault::BadOffset);
    }
    if size <= len - start {
        return Ok(());
    }
    Err(Fault::OutsideData)
}

// The entry at o, which is whole. Class and order are told apart here, once for all fields and all kinds of entries.
pub fn entry_in<E: ParseAt>(class: Class, order: Order, t: &[u8], o: usize) -> E
    requires { o + E.size class ≤ length t.now }
    ensures { result ≡ E.at class order t.now o }
{
    match (class, order) {
        (Class::Elf32, Order::Little) => E::read(Class::Elf32, Order::Little, t, o),
        (Class::Elf32, Order::Big) => E::read(Class::Elf32, Order::Big, t, o),
        (Class::Elf64, Order::Little) => E::read(Class::Elf64, Order::Little, t, o),
        (Class::Elf64, Order::Big) => E::read(Class::Elf64, Order::Big, t, o),
    }
}

// The class is told apart first, so that the quotient in the test is of two constants.
pub fn fault_in<E: ParseAt>(class: Class, len: usize, i: usize) -> Result<(), Fault>
    ensures { result ≡ entry_fault (E.size class) len i }
{
    match class {
        Class::Elf32 => entry_fault(E::size_of(Class::Elf32), len, i),
        Class::Elf64 => entry_fault(E::size_of(Class::Elf64), len, i),
    }
}

// Entry i of a table.
#[tactic(auto, using(crate::proofs::Laws::whole))]
pub fn entry<E: ParseAt>(class: Class, order: Order, t: &[u8], i: usize) -> Result<E, Fault>
    ensures { result ≡ answer (entry_fault (E.size class) (length t.now) i) (E.at class order t.now (i * E.size class)) }
{
    fault_in::<E>(class, t.len(), i)?;
    Ok(entry_in(class, order, t, i * E::size_of(class)))
}

// Does the product overflow?
pub fn overflows(n: usize, size: usize) -> bool
    ensures { result ≡ leb (2 ^ 64) (n * size) }
{
    n.checked_mul(size).is_none()
}

// How many whole entries a table of len bytes has: as many as a walk visits.
#[tactic(auto, unfolding(crate::specs::Entry::count_of))]
pub fn count(size: usize, len: usize) -> usize
    ensures { result ≡ count_of size len }
{
    len.checked_div(size).unwrap_or(0)
}

// The n bytes at o of data of len bytes.
#[tactic(auto, unfolding(endian::specs::Range::range_fault, crate::specs::Entry::range_at))]
pub fn range_at(len: usize, o: usize, n: usize) -> Result<Range, Fault>
    ensures { result ≡ range_at len o n }
{
    endian::range_fault(len, o, n)?;
    Ok(Range { from: o, to: o + n })
}

// The first whole entry, of size bytes, with the kind in the four bytes at the place `at`. `position` over the numbers would need
// clauses at its closure, and be no plainer.
#[tactic(auto, using(crate::proofs::Laws::first_here, crate::proofs::Laws::first_later, crate::proofs::Laws::first_none), unfolding(crate::specs::First::first_kind))]
pub fn first_kind(order: Order, t: &[u8], size: usize, at: usize, kind: u32) -> Option<usize>
    requires { at + 4 ≤ size }
    ensures { result ≡ first_kind order t.now size at kind }
{
    for i in 0..t.len() / size {
        if u32::read(order, t, i * size + at) == kind {
            return Some(i);
        }
    }
    None
}
