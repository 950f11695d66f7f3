// Walks over a table in batches: as many whole entries as there are and as a lent array has room for, one behind the other.
// How many they are is computed once, so no turn tests a range. `walk` tells class and order apart once: each of its four
// calls has a loop of its own with nothing left to choose.
#![tactic(auto)]

ghost use Rattle.std.specs.Prelude.{◌≡◌, ◌+◌, ◌≤◌, ◌<◌, length};
ghost use Rattle.memory.specs.Run.{put};
ghost use Rattle.walks.specs.Walk.{batch_of, Wrote};

use endian::{Class, Order};
use rows::Row;

// A row from `at` on.
fn put_row(out: &mut [u64], at: usize, row: &[u64])
    requires { at + length row.now ≤ length out.old }
    ensures { out.new ≡ put at row.now out.old }
{
    out[at..at + row.len()].copy_from_slice(row);
}

// How many entries of a table of len bytes there are from number `from` on, and how many have room: the smaller number.
#[tactic(auto, unfolding(crate::specs::Walk::batch_of))]
fn batch(size: usize, len: usize, from: usize, width: usize, room: usize) -> usize
    requires some_size { 0 < size }
    requires some_width { 0 < width }
    ensures { result ≡ batch_of size len from width room }
{
    (len / size).saturating_sub(from).min(room / width)
}

// A walk in one class and order.
fn walk_in<const N: usize, E: Row<N>>(
    class: Class,
    order: Order,
    t: &[u8],
    from: usize,
    out: &mut [u64],
) -> usize
    ensures { Wrote E.size N (λ c e t o. E.values (E.at c e t o)) class order t.now from out.old out.new result }
{
    let size = E::size_of(class);
    let n = batch(size, t.len(), from, N, out.len());
    for k in 0..n {
        let entry = E::read(class, order, t, (from + k) * size);
        put_row(out, k * N, &entry.row());
    }
    n
}

// As many entries from number `from` on as there are and as `out` has room for; answers how many: `out` is lent from C.
pub fn walk<const N: usize, E: Row<N>>(
    class: Class,
    order: Order,
    t: &[u8],
    from: usize,
    out: &mut [u64],
) -> usize
    ensures { Wrote E.size N (λ c e t o. E.values (E.at c e t o)) class order t.now from out.old out.new result }
{
    match (class, order) {
        (Class::Elf32, Order::Little) => walk_in::<N, E>(Class::Elf32, Order::Little, t, from, out),
        (Class::Elf32, Order::Big) => walk_in::<N, E>(Class::Elf32, Order::Big, t, from, out),
        (Class::Elf64, Order::Little) => walk_in::<N, E>(Class::Elf64, Order::Little, t, from, out),
        (Class::Elf64, Order::Big) => walk_in::<N, E>(Class::Elf64, Order::Big, t, from, out),
    }
}
