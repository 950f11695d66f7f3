// Numbers as their bytes, one trait over the width: read where a caller has tested the range, and written.
// Assumes nothing.

ghost use Rattle.std.specs.Prelude.{◌≡◌, ℕ, ◌+◌, ◌≤◌, List, length};
ghost use Rattle.std.proofs.lemmas.List.Edits.{sets};
ghost use Rattle.endian.specs.Number.{number_at, bytes_of, signed};

use crate::Order;

// A number of SIZE bytes. `value` is what their number says in the type.
pub trait Number: Copy {
    const SIZE: usize;

    ghost SIZE: { ℕ };

    ghost value: { ℕ → Self };

    fn read(order: Order, d: &[u8], o: usize) -> Self
        requires { o + SIZE ≤ length d.now }
        ensures { result ≡ value (number_at order SIZE d.now o) };
}

// A number that can be written, from `o` on. `code` is the number that its bytes are made of.
pub trait Store: Number {
    ghost code: { Self → ℕ };

    fn put(self, order: Order, d: &mut [u8], o: usize)
        requires { o + Self.SIZE ≤ length d.old }
        ensures { d.new ≡ sets d.old o (bytes_of order Self.SIZE (code self)) };
}

// An impl for each width: each calls the methods of its own type, which no trait of the library has.
impl Number for u8 {
    const SIZE: usize = 1;

    ghost SIZE = { 1 };

    ghost value = { λ n. n };

    #[tactic(auto, unfolding(crate::specs::Number::number_at))]
    fn read(_order: Order, d: &[u8], o: usize) -> u8 {
        d[o]
    }
}

impl Number for u16 {
    const SIZE: usize = 2;

    ghost SIZE = { 2 };

    ghost value = { λ n. n };

    #[tactic(auto, unfolding(crate::specs::Number::number_at))]
    fn read(order: Order, d: &[u8], o: usize) -> u16 {
        let bytes = [d[o], d[o + 1]];
        match order {
            Order::Little => u16::from_le_bytes(bytes),
            Order::Big => u16::from_be_bytes(bytes),
        }
    }
}

impl Number for u32 {
    const SIZE: usize = 4;

    ghost SIZE = { 4 };

    ghost value = { λ n. n };

    #[tactic(auto, unfolding(crate::specs::Number::number_at))]
    fn read(order: Order, d: &[u8], o: usize) -> u32 {
        let bytes = [d[o], d[o + 1], d[o + 2], d[o + 3]];
        match order {
            Order::Little => u32::from_le_bytes(bytes),
            Order::Big => u32::from_be_bytes(bytes),
        }
    }
}

impl Number for u64 {
    const SIZE: usize = 8;

    ghost SIZE = { 8 };

    ghost value = { λ n. n };

    #[tactic(auto, unfolding(crate::specs::Number::number_at))]
    fn read(order: Order, d: &[u8], o: usize) -> u64 {
        let bytes = [
            d[o],
            d[o + 1],
            d[o + 2],
            d[o + 3],
            d[o + 4],
            d[o + 5],
            d[o + 6],
            d[o + 7],
        ];
        match order {
            Order::Little => u64::from_le_bytes(bytes),
            Order::Big => u64::from_be_bytes(bytes),
        }
    }
}

impl Number for i32 {
    const SIZE: usize = 4;

    ghost SIZE = { 4 };

    ghost value = { signed 4 };

    #[tactic(auto, using(crate::proofs::Signed::cast32))]
    fn read(order: Order, d: &[u8], o: usize) -> i32 {
        u32::read(order, d, o).cast_signed()
    }
}

impl Number for i64 {
    const SIZE: usize = 8;

    ghost SIZE = { 8 };

    ghost value = { signed 8 };

    #[tactic(auto, using(crate::proofs::Signed::cast64))]
    fn read(order: Order, d: &[u8], o: usize) -> i64 {
        u64::read(order, d, o).cast_signed()
    }
}

// Bytes from `o` on. `walks::put_row` does the like with u64, and promises another definition: `put` of a row, where this is a
// store for each byte (`sets`), as numbers are read back.
fn place(d: &mut [u8], o: usize, bytes: &[u8])
    requires { o + length bytes.now ≤ length d.old }
    ensures { d.new ≡ sets d.old o bytes.now }
{
    d[o..o + bytes.len()].copy_from_slice(bytes);
}

impl Store for u16 {
    ghost code = { λ n. n };

    #[tactic(auto, using(crate::proofs::Stored::little2, crate::proofs::Stored::big2))]
    fn put(self, order: Order, d: &mut [u8], o: usize) {
        match order {
            Order::Little => place(d, o, &u16::to_le_bytes(self)),
            Order::Big => place(d, o, &u16::to_be_bytes(self)),
        }
    }
}

impl Store for u32 {
    ghost code = { λ n. n };

    #[tactic(auto, using(crate::proofs::Stored::little4, crate::proofs::Stored::big4))]
    fn put(self, order: Order, d: &mut [u8], o: usize) {
        match order {
            Order::Little => place(d, o, &u32::to_le_bytes(self)),
            Order::Big => place(d, o, &u32::to_be_bytes(self)),
        }
    }
}

impl Store for u64 {
    ghost code = { λ n. n };

    #[tactic(auto, using(crate::proofs::Stored::little8, crate::proofs::Stored::big8))]
    fn put(self, order: Order, d: &mut [u8], o: usize) {
        match order {
            Order::Little => place(d, o, &u64::to_le_bytes(self)),
            Order::Big => place(d, o, &u64::to_be_bytes(self)),
        }
    }
}
