// Relocations with and without addend in both classes and both orders: what the trait of entries asks of them.
// The info field is taken apart as each class has it; the addend is signed, as wide as in 64-bit entries.
#![tactic(auto)]

ghost use Rattle.std.proofs.Common.{lit<};
ghost use Rattle.endian.specs.declared.Class.TheVariants.{Elf32, Elf64};
ghost use Rattle.endian.specs.Place.{size_of, rel, rela};
ghost use Rattle.relocation.specs.Layout.{rel_at, rela_at};

use endian::{Class, Number, Order};
use parse::ParseAt;

#[derive(Clone, Copy, Debug, PartialEq, Eq)]
pub struct Rel {
    pub offset: u64,
    pub sym: u32,
    pub kind: u32,
}

#[derive(Clone, Copy, Debug, PartialEq, Eq)]
pub struct Rela {
    pub offset: u64,
    pub sym: u32,
    pub kind: u32,
    pub addend: i64,
}

impl ParseAt for Rel {
    ghost size = { size_of rel };

    ghost at = { rel_at };

    fn size_of(class: Class) -> usize {
        match class {
            Class::Elf32 => 8,
            Class::Elf64 => 16,
        }
    }

    #[inline(always)]
    #[tactic(auto, unfolding(crate::specs::Layout::rel_at))]
    fn read(class: Class, order: Order, t: &[u8], o: usize) -> Rel {
        let (sym, kind) = match class {
            Class::Elf32 => {
                let info = u32::read(order, t, o + 4);
                (info / 256, info % 256)
            }
            Class::Elf64 => {
                let info = u64::read(order, t, o + 8);
                ((info >> 32) as u32, (info % 0x1_0000_0000) as u32)
            }
        };
        Rel {
            offset: endian::word_in(class, order, t, o),
            sym,
            kind,
        }
    }

    ghost some_bytes = { elim [ Elf32 ↦ lit< tt | Elf64 ↦ lit< tt ] };
}

impl ParseAt for Rela {
    ghost size = { size_of rela };

    ghost at = { rela_at };

    fn size_of(class: Class) -> usize {
        match class {
            Class::Elf32 => 12,
            Class::Elf64 => 24,
        }
    }

    // An entry with addend starts as one without.
    #[inline(always)]
    #[tactic(auto, unfolding(crate::specs::Layout::rel_at, crate::specs::Layout::rela_at))]
    fn read(class: Class, order: Order, t: &[u8], o: usize) -> Rela {
        let Rel { offset, sym, kind } = Rel::read(class, order, t, o);
        Rela {
            offset,
            sym,
            kind,
            addend: endian::signed_in(class, order, t, o + 2 * class.word()),
        }
    }

    ghost some_bytes = { elim [ Elf32 ↦ lit< tt | Elf64 ↦ lit< tt ] };
}
