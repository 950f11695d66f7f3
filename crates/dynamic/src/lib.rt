// Dynamic entries in both classes and both orders: what the trait of entries asks of them, and what an entry holds.
// The tag is signed, as wide as in 64-bit entries.
#![tactic(auto)]

ghost use Rattle.std.specs.Prelude.{◌≡◌};
ghost use Rattle.std.proofs.Common.{lit<};
ghost use Rattle.endian.specs.declared.Class.TheVariants.{Elf32, Elf64};
ghost use Rattle.endian.specs.Place.{size_of, dynamic};
ghost use Rattle.dynamic.specs.Layout.{dyn_at, val_of, ptr_of};

use endian::{Class, Order};
use parse::ParseAt;

// `un` is the union of the ABI's d_val and d_ptr: the tag says which of the two it is.
#[derive(Clone, Copy, Debug, PartialEq, Eq)]
pub struct Dyn {
    pub tag: i64,
    pub un: u64,
}

impl ParseAt for Dyn {
    ghost size = { size_of dynamic };

    ghost at = { dyn_at };

    fn size_of(class: Class) -> usize {
        match class {
            Class::Elf32 => 8,
            Class::Elf64 => 16,
        }
    }

    #[inline(always)]
    #[tactic(auto, unfolding(crate::specs::Layout::dyn_at))]
    fn read(class: Class, order: Order, t: &[u8], o: usize) -> Dyn {
        Dyn {
            tag: endian::signed_in(class, order, t, o),
            un: endian::word_in(class, order, t, o + class.word()),
        }
    }

    ghost some_bytes = { elim [ Elf32 ↦ lit< tt | Elf64 ↦ lit< tt ] };
}

impl Dyn {
    // What an entry holds, as a number.
    pub fn d_val(self) -> u64
        ensures { result ≡ val_of self }
    {
        self.un
    }

    // The same as an address.
    pub fn d_ptr(self) -> u64
        ensures { result ≡ ptr_of self }
    {
        self.un
    }
}
