// The records of a load plan in a lent table: 48 bytes each, six numbers of 8 bytes, lowest byte first.
// A record holds absolute addresses; it says nothing of the file's class and order.
#![tactic(auto)]

ghost use Rattle.std.specs.Prelude.{◌≡◌, ◌+◌, ◌*◌, ◌≤◌, length};
ghost use Rattle.memory.specs.Run.{put};
ghost use Rattle.records.specs.Record.{record_at, record_bytes};

use endian::{Number, Order, Store};

#[derive(Clone, Copy, Debug, PartialEq, Eq)]
pub struct Record {
    // start and length of the pages
    pub page: u64,
    pub len: u64,
    // protection bits, as in a segment's flags
    pub prot: u64,
    // where the file bytes start, how many, from which file offset
    pub at: u64,
    pub count: u64,
    pub from: u64,
}

impl Record {
    // In bytes.
    pub const SIZE: usize = 48;

    // The k-th record of a table.
    #[tactic(auto, unfolding(crate::specs::Record::record_at))]
    pub fn read(t: &[u8], k: usize) -> Record
        requires { 48 * k + 48 ≤ length t.now }
        ensures { result ≡ record_at t.now k }
    {
        let o = Record::SIZE * k;
        Record {
            page: u64::read(Order::Little, t, o),
            len: u64::read(Order::Little, t, o + 8),
            prot: u64::read(Order::Little, t, o + 16),
            at: u64::read(Order::Little, t, o + 24),
            count: u64::read(Order::Little, t, o + 32),
            from: u64::read(Order::Little, t, o + 40),
        }
    }

    // In the 48 bytes from o on.
    #[tactic(auto, using(crate::proofs::Laws::six_puts))]
    pub fn put(self, t: &mut [u8], o: usize)
        requires { o + 48 ≤ length t.old }
        ensures { t.new ≡ put o (record_bytes self) t.old }
    {
        self.page.put(Order::Little, t, o);
        self.len.put(Order::Little, t, o + 8);
        self.prot.put(Order::Little, t, o + 16);
        self.at.put(Order::Little, t, o + 24);
        self.count.put(Order::Little, t, o + 32);
        self.from.put(Order::Little, t, o + 40);
    }
}
