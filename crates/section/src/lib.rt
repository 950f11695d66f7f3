// Section headers in both classes and both orders: what the trait of entries asks of them.
#![tactic(auto)]

ghost use Rattle.std.specs.Prelude.{◌≡◌, ◌+◌, ◌≤◌, length};
ghost use Rattle.std.proofs.Common.{lit<};
ghost use Rattle.endian.specs.declared.Class.TheVariants.{Elf32, Elf64};
ghost use Rattle.endian.specs.Place.{size_of, section_header};
ghost use Rattle.section.specs.Layout.{section_at, extent_of};

use endian::{Class, Number, Order};
use parse::ParseAt;

#[derive(Clone, Copy, Debug, PartialEq, Eq)]
pub struct SectionHeader {
    pub name: u32,
    pub kind: u32,
    pub flags: u64,
    pub addr: u64,
    pub offset: u64,
    pub size: u64,
    pub link: u32,
    pub info: u32,
    pub addralign: u64,
    pub entsize: u64,
}

// Where a section's bytes stand, and what they are entries of: what a walk over sections asks of most of them.
#[derive(Clone, Copy, Debug, PartialEq, Eq)]
pub struct Extent {
    pub offset: u64,
    pub size: u64,
    pub link: u32,
    pub entsize: u64,
}

impl SectionHeader {
    pub fn extent(self) -> Extent
        ensures { result ≡ extent_of self }
    {
        Extent {
            offset: self.offset,
            size: self.size,
            link: self.link,
            entsize: self.entsize,
        }
    }
}

impl ParseAt for Extent {
    ghost size = { size_of section_header };

    ghost at = { λ c e s o. extent_of (section_at c e s o) };

    fn size_of(class: Class) -> usize {
        SectionHeader::size_of(class)
    }

    // The places are the ABI's, w being the bytes of a number as wide as the class.
    #[inline(always)]
    #[tactic(auto, unfolding(crate::specs::Layout::section_at))]
    fn read(class: Class, order: Order, t: &[u8], o: usize) -> Extent {
        let w = class.word();
        Extent {
            offset: endian::word_in(class, order, t, o + 8 + 2 * w),
            size: endian::word_in(class, order, t, o + 8 + 3 * w),
            link: u32::read(order, t, o + 8 + 4 * w),
            entsize: endian::word_in(class, order, t, o + 16 + 5 * w),
        }
    }

    ghost some_bytes = { elim [ Elf32 ↦ lit< tt | Elf64 ↦ lit< tt ] };
}

impl ParseAt for SectionHeader {
    ghost size = { size_of section_header };

    ghost at = { section_at };

    fn size_of(class: Class) -> usize {
        match class {
            Class::Elf32 => 40,
            Class::Elf64 => 64,
        }
    }

    #[inline(always)]
    #[tactic(auto, unfolding(crate::specs::Layout::section_at))]
    fn read(class: Class, order: Order, t: &[u8], o: usize) -> SectionHeader {
        let w = class.word();
        let x = Extent::read(class, order, t, o);
        SectionHeader {
            name: u32::read(order, t, o),
            kind: u32::read(order, t, o + 4),
            flags: endian::word_in(class, order, t, o + 8),
            addr: endian::word_in(class, order, t, o + 8 + w),
            offset: x.offset,
            size: x.size,
            link: x.link,
            info: u32::read(order, t, o + 12 + 4 * w),
            addralign: endian::word_in(class, order, t, o + 16 + 4 * w),
            entsize: x.entsize,
        }
    }

    ghost some_bytes = { elim [ Elf32 ↦ lit< tt | Elf64 ↦ lit< tt ] };
}
