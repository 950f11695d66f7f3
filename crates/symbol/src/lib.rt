// Symbols in both classes and both orders: what the trait of entries asks of them, and the small questions of a symbol.
#![tactic(auto)]

ghost use Rattle.std.specs.Prelude.{◌≡◌};
ghost use Rattle.std.proofs.Common.{lit<};
ghost use Rattle.endian.specs.declared.Class.TheVariants.{Elf32, Elf64};
ghost use Rattle.endian.specs.Place.{size_of, symbol};
ghost use Rattle.symbol.specs.Layout.{symbol_at};
ghost use Rattle.symbol.specs.Small.{is_undefined, bind_of, type_of, visibility_of};

use endian::{Class, Number, Order};
use parse::ParseAt;

#[derive(Clone, Copy, Debug, PartialEq, Eq)]
pub struct Symbol {
    pub name: u32,
    pub shndx: u16,
    pub info: u8,
    pub other: u8,
    pub value: u64,
    pub size: u64,
}

impl ParseAt for Symbol {
    ghost size = { size_of symbol };

    ghost at = { symbol_at };

    fn size_of(class: Class) -> usize {
        match class {
            Class::Elf32 => 16,
            Class::Elf64 => 24,
        }
    }

    // The places are the ABI's, w being the bytes of a number as wide as the class; info, other and section number stand
    // last in a 32-bit entry and second in a 64-bit one.
    #[inline(always)]
    #[tactic(auto, unfolding(crate::specs::Layout::symbol_at))]
    fn read(class: Class, order: Order, t: &[u8], o: usize) -> Symbol {
        let w = class.word();
        let small = match class {
            Class::Elf32 => o + 12,
            Class::Elf64 => o + 4,
        };
        Symbol {
            name: u32::read(order, t, o),
            shndx: u16::read(order, t, small + 2),
            info: u8::read(order, t, small),
            other: u8::read(order, t, small + 1),
            value: endian::word_in(class, order, t, o + w),
            size: endian::word_in(class, order, t, o + 2 * w),
        }
    }

    ghost some_bytes = { elim [ Elf32 ↦ lit< tt | Elf64 ↦ lit< tt ] };
}

impl Symbol {
    // Whether the symbol is defined in another file: its section is the undefined one.
    pub fn is_undefined(self) -> bool
        ensures { result ≡ is_undefined self }
    {
        self.shndx == 0
    }

    // The binding, in the upper half of the info field.
    pub fn st_bind(self) -> u8
        ensures { result ≡ bind_of self }
    {
        self.info / 16
    }

    // The type, in the lower half.
    pub fn st_symtype(self) -> u8
        ensures { result ≡ type_of self }
    {
        self.info % 16
    }

    // The visibility, in the low two bits of the other field.
    pub fn st_vis(self) -> u8
        ensures { result ≡ visibility_of self }
    {
        self.other % 4
    }
}
