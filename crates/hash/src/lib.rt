// The SysV hash table: the hash of a name, the table's header, and the lookup of a name.
// A lookup takes at most as many turns as the table has chain entries. A turn tests one range for the symbol and one for the chain
// entry, and reads the symbol's name field only. Where the string table's last zero byte stands is found once, so no turn searches
// for the end of a string, and so is whether the name holds a zero byte, which its type then says, so no turn looks for one. That a
// string is not the name is noted if the name is long, so a chain that returns to itself compares no more than one that does not.
#![tactic(auto)]

ghost use Rattle.std.specs.Prelude.{◌≡◌, ℕ, ◌+◌, ◌*◌, ◌≤◌, length, Result};
ghost use Rattle.endian.specs.declared.fault.Fault.{Fault};
ghost use Rattle.endian.specs.Range.{answer};
ghost use Rattle.endian.specs.Place.{size_of, symbol};
ghost use Rattle.parse.specs.Entry.{entry_fault, count_of};
ghost use Rattle.string_table.specs.Names.{bytes_of};
ghost use Rattle.string_table.specs.Noted.{Notes};
ghost use Rattle.std.proofs.Props.{props};
ghost use Rattle.hash.specs.declared.Turn.{Turn};
ghost use Rattle.hash.specs.Sysv.{sysv_step, sysv_hash};
ghost use Rattle.hash.specs.Table.{bucket_count, chain_count, hash_fault, head_of};
ghost use Rattle.hash.specs.Find.{symbol_count, next_of, turn_of, place_of, walk_by, find_of};

use endian::{Class, Fault, Number, Order};
use parse::ParseAt;
use string_table::{CleanName, Strings, UncleanName};
use symbol::Symbol;

// The two counts at the start of a table.
#[derive(Clone, Copy, Debug, PartialEq, Eq)]
pub struct Head {
    pub buckets: u32,
    pub chains: u32,
}

// What a turn of a lookup finds: that the symbol has the name, or the next index.
#[derive(Clone, Copy, Debug, PartialEq, Eq)]
enum Turn {
    Same,
    Next(usize),
}

// One byte, in 32 bits.
#[tactic(auto, unfolding(crate::specs::Sysv::sysv_step))]
fn hash_step(h: u32, b: u8) -> u32
    ensures { result ≡ sysv_step h b }
{
    let n = h.wrapping_mul(16).wrapping_add(u32::from(b));
    n ^ ((n >> 24) & 0xf0)
}

// The hash of a name.
pub fn sysv_hash(name: &[u8]) -> u32
    ensures { result ≡ sysv_hash name.now }
{
    name.iter().fold(0, |h, b| hash_step(h, *b)) % 0x1000_0000
}

// The header of a table: the counts, and both tables, must lie in the data.
#[tactic(auto, unfolding(crate::specs::Table::head_of), using(crate::proofs::Laws::head_short, crate::proofs::Laws::head_fine, crate::proofs::Laws::head_out))]
pub fn header(order: Order, h: &[u8]) -> Result<Head, Fault>
    ensures { result ≡ answer (hash_fault order h.now) (head_of order h.now) }
{
    if h.len() < 8 {
        return Err(Fault::OutsideData);
    }
    let head = Head {
        buckets: u32::read(order, h, 0),
        chains: u32::read(order, h, 4),
    };
    if 8 + 4 * (head.buckets as usize) + 4 * (head.chains as usize) <= h.len() {
        return Ok(head);
    }
    Err(Fault::OutsideData)
}

// How many whole symbols len bytes hold. Each class divides by a constant of its own, so no division is made.
#[tactic(auto, unfolding(parse::specs::Entry::count_of))]
fn symbol_count(class: Class, len: usize) -> usize
    ensures { result ≡ count_of (size_of symbol class) len }
{
    match class {
        Class::Elf32 => len / 16,
        Class::Elf64 => len / 24,
    }
}

// What a lookup searches: the table with its header, the symbols and how many whole ones there are, and the strings.
#[derive(Clone, Copy)]
struct Search<'a> {
    class: Class,
    order: Order,
    table: &'a [u8],
    head: Head,
    symbols: &'a [u8],
    whole: usize,
    strings: Strings<'a>,
    ghost buckets_read: { head.buckets ≡ bucket_count order table.now },
    ghost chains_read: { head.chains ≡ chain_count order table.now },
    ghost room: { 8 + 4 * head.buckets + 4 * head.chains ≤ length table.now },
    ghost counted: { whole ≡ symbol_count class symbols.now },
}

impl<'a> Search<'a> {
    // Whether symbol i is there. The count of whole entries tells in one comparison that it is.
    #[tactic(auto, using(parse::proofs::Laws::readable, crate::proofs::Laws::size_room))]
    fn symbol_fault(&self, i: usize) -> Result<(), Fault>
        ensures { result ≡ entry_fault (size_of symbol self.now.class) (length self.now.symbols.now) i }
    {
        if i < self.whole {
            return Ok(());
        }
        parse::fault_in::<Symbol>(self.class, self.symbols.len(), i)
    }

    // Whether chain entry i is there.
    #[tactic(auto, using(crate::proofs::Laws::entry_here))]
    fn chain_fault(&self, i: usize) -> Result<(), Fault>
        ensures { result ≡ entry_fault 4 (4 * chain_count self.now.order self.now.table.now) i }
    {
        let chains = self.head.chains as usize;
        if i < chains {
            return Ok(());
        }
        parse::entry_fault(4, 4 * chains, i)
    }

    // Where in the string table the name of symbol i stands.
    #[tactic(auto, unfolding(crate::specs::Find::place_of), using(parse::proofs::Laws::whole, crate::proofs::Laws::size_room, crate::proofs::Laws::name_read))]
    fn name_at(&self, i: usize) -> Result<usize, Fault>
        ensures { result ≡ place_of self.now.class self.now.order self.now.symbols.now i }
    {
        self.symbol_fault(i)?;
        Ok(u32::read(self.order, self.symbols, i * Symbol::size_of(self.class)) as usize)
    }

    // The index behind i in its chain.
    #[tactic(auto, unfolding(crate::specs::Find::next_of), using(crate::proofs::Laws::entry_below))]
    fn next(&self, i: usize) -> Result<Turn, Fault>
        ensures { result ≡ next_of self.now.order self.now.table.now i }
    {
        self.chain_fault(i)?;
        let place = 8 + 4 * (self.head.buckets as usize) + 4 * i;
        Ok(Turn::Next(u32::read(self.order, self.table, place) as usize))
    }
}

// The turns of a walk along a chain. What one finds at a symbol depends on the symbol only, and not on the turns before.
trait Turning {
    ghost at: { Self → ℕ → Result Turn Fault };

    fn turn(&mut self, i: usize) -> Result<Turn, Fault>
        ensures found { result ≡ at self.old i }
        ensures kept { at self.new ≡ at self.old };
}

// The lookup of a name.
#[derive(Clone, Copy)]
struct Plain<'a, 'b> {
    search: Search<'a>,
    name: Result<CleanName<'b>, UncleanName<'b>>,
}

// The symbol, its name, the comparison, the chain entry.
impl<'a, 'b> Turning for Plain<'a, 'b> {
    ghost at = { λ s i. turn_of s.search.class s.search.order s.search.table.now s.search.symbols.now s.search.strings.bytes.now (bytes_of s.name) i };

    #[tactic(auto, unfolding(crate::specs::Find::turn_of, crate::specs::Find::place_of))]
    fn turn(&mut self, i: usize) -> Result<Turn, Fault> {
        let search = &self.search;
        let o = search.name_at(i)?;
        if search.strings.compare(o, &self.name)? {
            return Ok(Turn::Same);
        }
        search.next(i)
    }
}

// The same of a name that holds no zero byte, with notes.
#[derive(Drop)]
struct Noting<'a, 'b> {
    search: Search<'a>,
    name: CleanName<'b>,
    marks: [u8; 1024],
    ghost noted: { Notes search.strings.bytes.now name.bytes.now marks } by { Prim.hlevel props },
}

impl<'a, 'b> Noting<'a, 'b> {
    fn new(search: Search<'a>, name: CleanName<'b>) -> Noting<'a, 'b>
        ensures searched { result.search ≡ search.entry }
        ensures named { result.name ≡ name.entry }
    {
        Noting {
            search,
            name,
            // fixed, since there is no heap
            marks: [0; 1024],
        }
    }
}

impl<'a, 'b> Turning for Noting<'a, 'b> {
    ghost at = { λ s i. turn_of s.search.class s.search.order s.search.table.now s.search.symbols.now s.search.strings.bytes.now s.name.bytes.now i };

    #[tactic(auto, unfolding(crate::specs::Find::turn_of, crate::specs::Find::place_of), using(string_table::proofs::Notes::noted_true))]
    fn turn(&mut self, i: usize) -> Result<Turn, Fault> {
        let search = &self.search;
        let o = search.name_at(i)?;
        search.strings.fault(o)?;
        let same = search.strings.same_noted(o, &self.name, &mut self.marks);
        if same {
            return Ok(Turn::Same);
        }
        search.next(i)
    }
}

// Along the chain of the name's bucket, at most so many turns. One loop for all names, made into one of its own for each kind of
// turns: with a test in each turn it costs a short name a tenth more instructions or more.
#[tactic(auto, using(crate::proofs::Laws::walk_ended, crate::proofs::Laws::walk_over, crate::proofs::Laws::walk_turn))]
fn walk<T: Turning + Drop>(mut turns: T, most: u32, start: usize) -> Result<Option<usize>, Fault>
    ensures { result ≡ walk_by (T.at turns) most start }
{
    let mut i = start;
    for _taken in 0..most {
        if i == 0 {
            return Ok(None);
        }
        match turns.turn(i)? {
            Turn::Same => return Ok(Some(i)),
            Turn::Next(j) => i = j,
        }
    }
    Ok(None)
}

// The lookup of a name in the table h, over the symbols and the strings of a file. A name that holds a zero byte is nobody's, and a
// short one is compared in a few turns: neither needs notes.
#[tactic(auto, unfolding(crate::specs::Find::find_of, crate::specs::Table::head_of), using(crate::proofs::Laws::head_told, crate::proofs::Laws::head_room))]
pub fn find(
    class: Class,
    order: Order,
    h: &[u8],
    syms: &[u8],
    strs: &[u8],
    name: &[u8],
) -> Result<Option<usize>, Fault>
    ensures { result ≡ find_of class order h.now syms.now strs.now name.now }
{
    let head = header(order, h)?;
    if head.buckets == 0 {
        return Ok(None);
    }
    let at = sysv_hash(name) % head.buckets;
    let start = u32::read(order, h, 8 + 4 * (at as usize)) as usize;
    let search = Search {
        class,
        order,
        table: h,
        head,
        symbols: syms,
        whole: symbol_count(class, syms.len()),
        strings: Strings::new(strs),
    };
    match CleanName::new(name) {
        Ok(clean) if string_table::is_long(name) => {
            let noting = Noting::new(search, clean);
            walk(noting, head.chains, start)
        }
        name => walk(Plain { search, name }, head.chains, start),
    }
}
