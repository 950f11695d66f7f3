// The entries as rows of numbers, as they cross to C: the values in the order in which include/loadplan.h lists them.
// Each kind of entry says its row by the trait `Row`, so that a walk is one function for all kinds.
// Signed numbers cross as two's complement of 64 bits.
#![tactic(auto)]

ghost use Rattle.std.specs.Prelude.{◌≡◌, ◌<◌, ◌≤◌, ℕ, List, length, refl};
ghost use Rattle.std.proofs.Common.{lit<, lit≤};
ghost use Rattle.endian.specs.declared.Class.{Class};
ghost use Rattle.endian.specs.declared.Class.TheVariants.{Elf32, Elf64};
ghost use Rattle.endian.specs.Place.{size_of, symbol};
ghost use Rattle.rows.specs.Row.{section_row, segment_row, symbol_row, packed_at, packed_row, rel_row, rela_row, dyn_row};

use dynamic::Dyn;
use endian::{Class, Order};
use parse::ParseAt;
use relocation::{Rel, Rela};
use section::SectionHeader;
use segment::ProgramHeader;
use symbol::Symbol;

// An entry that crosses as N numbers, its `values`.
pub trait Row<const N: usize>: ParseAt {
    ghost values: { Self → List ℕ };

    fn row(self) -> [u64; N]
        ensures { result ≡ values self };

    // A row is not empty and not long, and it has as many values as it says.

    ghost some_values: { 0 < N };

    ghost few_values: { N ≤ 16 };

    ghost wide: { (x : Self) → length (values x) ≡ N };
}

impl Row<10> for SectionHeader {
    ghost values = { section_row };

    fn row(self) -> [u64; 10] {
        [
            u64::from(self.name),
            u64::from(self.kind),
            self.flags,
            self.addr,
            self.offset,
            self.size,
            u64::from(self.link),
            u64::from(self.info),
            self.addralign,
            self.entsize,
        ]
    }

    ghost some_values = { lit< tt };

    ghost few_values = { lit≤ tt };

    ghost wide = { λ x. refl };
}

impl Row<8> for ProgramHeader {
    ghost values = { segment_row };

    fn row(self) -> [u64; 8] {
        [
            u64::from(self.kind),
            self.offset,
            self.vaddr,
            self.paddr,
            self.filesz,
            self.memsz,
            u64::from(self.flags),
            self.align,
        ]
    }

    ghost some_values = { lit< tt };

    ghost few_values = { lit≤ tt };

    ghost wide = { λ x. refl };
}

impl Row<6> for Symbol {
    ghost values = { symbol_row };

    fn row(self) -> [u64; 6] {
        [
            u64::from(self.name),
            u64::from(self.shndx),
            u64::from(self.info),
            u64::from(self.other),
            self.value,
            self.size,
        ]
    }

    ghost some_values = { lit< tt };

    ghost few_values = { lit≤ tt };

    ghost wide = { λ x. refl };
}

// A symbol in four values: info, other and shndx share the second.
#[derive(Clone, Copy, Debug, PartialEq, Eq)]
pub struct PackedSymbol(pub Symbol);

impl ParseAt for PackedSymbol {
    ghost size = { size_of symbol };

    ghost at = { packed_at };

    fn size_of(class: Class) -> usize {
        Symbol::size_of(class)
    }

    #[inline(always)]
    fn read(class: Class, order: Order, t: &[u8], o: usize) -> PackedSymbol {
        PackedSymbol(Symbol::read(class, order, t, o))
    }

    ghost some_bytes = { elim [ Elf32 ↦ lit< tt | Elf64 ↦ lit< tt ] };
}

impl Row<4> for PackedSymbol {
    ghost values = { λ x. packed_row x.0 };

    fn row(self) -> [u64; 4] {
        let s = self.0;
        let rest = u64::from(s.info) + (u64::from(s.other) << 8) + (u64::from(s.shndx) << 16);
        [u64::from(s.name), rest, s.value, s.size]
    }

    ghost some_values = { lit< tt };

    ghost few_values = { lit≤ tt };

    ghost wide = { λ x. refl };
}

impl Row<3> for Rel {
    ghost values = { rel_row };

    fn row(self) -> [u64; 3] {
        [self.offset, u64::from(self.sym), u64::from(self.kind)]
    }

    ghost some_values = { lit< tt };

    ghost few_values = { lit≤ tt };

    ghost wide = { λ x. refl };
}

impl Row<4> for Rela {
    ghost values = { rela_row };

    #[tactic(auto, using(crate::proofs::Twos::twos_cast))]
    fn row(self) -> [u64; 4] {
        [
            self.offset,
            u64::from(self.sym),
            u64::from(self.kind),
            self.addend.cast_unsigned(),
        ]
    }

    ghost some_values = { lit< tt };

    ghost few_values = { lit≤ tt };

    ghost wide = { λ x. refl };
}

impl Row<2> for Dyn {
    ghost values = { dyn_row };

    #[tactic(auto, using(crate::proofs::Twos::twos_cast))]
    fn row(self) -> [u64; 2] {
        [self.tag.cast_unsigned(), self.un]
    }

    ghost some_values = { lit< tt };

    ghost few_values = { lit≤ tt };

    ghost wide = { λ x. refl };
}
