// What crosses to C: the values of an answer in a lent array, or the number of a refusal and the array as it was.
// `tell` is one function for all answers: it is given how an answer's values stand in a row. The rows are functions, since the trait
// `rows::Row` is of entries, and `From` for an array can't be implemented here.
#![tactic(auto)]

ghost use Rattle.std.specs.Prelude.{◌≡◌};
ghost use Rattle.file.specs.Open.{header_of};
ghost use Rattle.elf_bytes.specs.Open.{open_of};
ghost use Rattle.replies.specs.Reply.{Told, range_row, table_row, pair_row, symbols_row, found_row, head_row, opening_of, opened_row, common_row};

use common::Common;
use contents::SymbolTable;
use endian::Fault;
use file::FileHeader;
use hash::Head;
use parse::Range;

// An answer's values in `out` and 0, or the number of a refusal and `out` as it was.
pub fn tell<T, R: Copy, F: FnOnce(T) -> R>(answer: Result<T, Fault>, out: &mut R, row: F) -> u32
    requires { F.IsAlwaysCallable row }
    ensures { (values : T → R) → ((x : T) (r : R) → F.post row x r → r ≡ values x) → Told values answer out.old out.new result }
{
    match answer {
        Ok(x) => {
            *out = row(x);
            0
        }
        Err(f) => u32::from(f),
    }
}

// ---- ranges and tables

pub fn range_row(r: Range) -> [u64; 2]
    ensures { result ≡ range_row r }
{
    [r.from as u64, r.to as u64]
}

pub fn table_row(t: Option<Range>) -> [u64; 3]
    ensures { result ≡ table_row t }
{
    match t {
        None => [0; 3],
        Some(r) => [1, r.from as u64, r.to as u64],
    }
}

pub fn pair_row(t: SymbolTable) -> [u64; 4]
    ensures { result ≡ pair_row t }
{
    let SymbolTable { symbols, strings } = t;
    [
        symbols.from as u64,
        symbols.to as u64,
        strings.from as u64,
        strings.to as u64,
    ]
}

pub fn symbols_row(s: Option<SymbolTable>) -> [u64; 5]
    ensures { result ≡ symbols_row s }
{
    match s {
        None => [0; 5],
        Some(t) => {
            let [a, b, c, d] = pair_row(t);
            [1, a, b, c, d]
        }
    }
}

// ---- what is looked for

pub fn found_row(found: Option<usize>) -> [u64; 2]
    ensures { result ≡ found_row found }
{
    match found {
        None => [0; 2],
        Some(i) => [1, i as u64],
    }
}

pub fn head_row(h: Head) -> [u64; 2]
    ensures { result ≡ head_row h }
{
    [u64::from(h.buckets), u64::from(h.chains)]
}

// ---- an opened file

// A file's header, and where its tables stand.
#[derive(Clone, Copy, Debug, PartialEq, Eq)]
pub struct Opening {
    pub header: FileHeader,
    pub sections: Option<Range>,
    pub segments: Option<Range>,
}

impl Opening {
    // The answer of opening d. The header is read again from d, in the class and the order that opening found.
    #[tactic(auto, using(crate::proofs::Openings::header_room, crate::proofs::Openings::opening_told, crate::proofs::Openings::opening_refused))]
    pub fn of(d: &[u8]) -> Result<Opening, Fault>
        ensures { result ≡ opening_of (header_of d.now) (open_of d.now) }
    {
        let elf = elf_bytes::open(d)?;
        Ok(Opening {
            header: file::header_in(elf.class, elf.order, d),
            sections: elf.sections,
            segments: elf.segments,
        })
    }
}

pub fn opened_row(x: Opening) -> [u64; 23]
    ensures { result ≡ opened_row x }
{
    let h = x.header;
    let [s, s_from, s_to] = table_row(x.sections);
    let [p, p_from, p_to] = table_row(x.segments);
    [
        u64::from(u8::from(h.class)),
        u64::from(u8::from(h.order)),
        u64::from(h.osabi),
        u64::from(h.abiversion),
        u64::from(h.version),
        u64::from(h.kind),
        u64::from(h.machine),
        h.entry,
        h.phoff,
        h.shoff,
        u64::from(h.flags),
        u64::from(h.ehsize),
        u64::from(h.phentsize),
        u64::from(h.phnum),
        u64::from(h.shentsize),
        u64::from(h.shnum),
        u64::from(h.shstrndx),
        s,
        s_from,
        s_to,
        p,
        p_from,
        p_to,
    ]
}

// ---- common data

pub fn common_row(c: Common) -> [u64; 16]
    ensures { result ≡ common_row c }
{
    let [a, a1, a2, a3, a4] = symbols_row(c.symtab);
    let [b, b1, b2, b3, b4] = symbols_row(c.dynsym);
    let [d, d1, d2] = table_row(c.dynamic);
    let [h, h1, h2] = table_row(c.hash);
    [a, a1, a2, a3, a4, b, b1, b2, b3, b4, d, d1, d2, h, h1, h2]
}
