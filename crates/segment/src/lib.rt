// Program headers in both classes and both orders: what the trait of entries asks of them.
#![tactic(auto)]

ghost use Rattle.std.proofs.Common.{lit<};
ghost use Rattle.endian.specs.declared.Class.TheVariants.{Elf32, Elf64};
ghost use Rattle.endian.specs.Place.{size_of, program_header};
ghost use Rattle.segment.specs.Layout.{segment_at};

use endian::{Class, Number, Order};
use parse::ParseAt;

#[derive(Clone, Copy, Debug, PartialEq, Eq)]
pub struct ProgramHeader {
    pub kind: u32,
    pub offset: u64,
    pub vaddr: u64,
    pub paddr: u64,
    pub filesz: u64,
    pub memsz: u64,
    pub flags: u32,
    pub align: u64,
}

impl ParseAt for ProgramHeader {
    ghost size = { size_of program_header };

    ghost at = { segment_at };

    fn size_of(class: Class) -> usize {
        match class {
            Class::Elf32 => 32,
            Class::Elf64 => 56,
        }
    }

    // The places are the ABI's, w being the bytes of a number as wide as the class; the flags stand seventh in a 32-bit
    // entry and second in a 64-bit one.
    #[inline(always)]
    #[tactic(auto, unfolding(crate::specs::Layout::segment_at))]
    fn read(class: Class, order: Order, t: &[u8], o: usize) -> ProgramHeader {
        let w = class.word();
        let flags = match class {
            Class::Elf32 => o + 24,
            Class::Elf64 => o + 4,
        };
        ProgramHeader {
            kind: u32::read(order, t, o),
            offset: endian::word_in(class, order, t, o + w),
            vaddr: endian::word_in(class, order, t, o + 2 * w),
            paddr: endian::word_in(class, order, t, o + 3 * w),
            filesz: endian::word_in(class, order, t, o + 4 * w),
            memsz: endian::word_in(class, order, t, o + 5 * w),
            flags: u32::read(order, t, flags),
            align: endian::word_in(class, order, t, o + 8 + 5 * w),
        }
    }

    ghost some_bytes = { elim [ Elf32 ↦ lit< tt | Elf64 ↦ lit< tt ] };
}
