// Opening a file: its class and order, and where its section and program headers stand.
// Opening walks nothing. Each question opens the file again, so that no state of a caller is trusted. Sections come before segments,
// and the first test that fails decides.
#![tactic(auto)]

ghost use Rattle.std.specs.Prelude.{◌≡◌, ◌+◌, ◌*◌, ◌≤◌, length, Ok, Err, MatchResult};
ghost use Rattle.std.proofs.Props.{props};
ghost use Rattle.endian.specs.Place.{size_of, file_header, section_header};
ghost use Rattle.file.specs.Layout.{header_at};
ghost use Rattle.elf_bytes.specs.Open.{zero_fault, section_count, segment_count, zero_header, table_at, sections_in, segments_in, open_with, open_of, Whole};

use endian::{Class, Fault, Order};
use file::Ident;
use parse::{ParseAt, Range};
use section::SectionHeader;
use segment::ProgramHeader;

// What the questions ask of an opened file; a table may be absent.
#[derive(Clone, Copy, Debug, PartialEq, Eq)]
pub struct Elf {
    pub class: Class,
    pub order: Order,
    pub kind: u16,
    pub entry: u64,
    pub names: u16,
    pub sections: Option<Range>,
    pub segments: Option<Range>,
}

// An opened file with its bytes: its tables lie in them.
#[derive(Clone, Copy)]
pub struct ElfBytes<'a> {
    pub bytes: &'a [u8],
    pub elf: Elf,
    ghost whole: { Whole bytes.now elf } by { Prim.hlevel props },
}

// Whether section header 0 can be read at o: Overflow where the end of its first field overflows, OutsideData where it is outside.
#[tactic(auto, unfolding(crate::specs::Open::zero_fault))]
fn zero_fault(class: Class, len: usize, o: usize) -> Result<(), Fault>
    ensures { result ≡ zero_fault class len o }
{
    if o > usize::MAX - 4 {
        return Err(Fault::Overflow);
    }
    let size = SectionHeader::size_of(class);
    if size <= len && o <= len - size {
        Ok(())
    } else {
        Err(Fault::OutsideData)
    }
}

// Section header 0. Where it is put into its callers only the one field that each asks for is read; else two whole headers would
// lie on the stack of every question.
#[inline(always)]
#[tactic(auto, using(crate::proofs::Laws::zero_whole))]
fn zero_header(class: Class, order: Order, d: &[u8], o: usize) -> Result<SectionHeader, Fault>
    ensures { result ≡ zero_header class order d.now o }
{
    zero_fault(class, d.len(), o)?;
    Ok(parse::entry_in(class, order, d, o))
}

// How many sections: 0 in the header means the size field of section header 0. Segments have another number and another field, so
// one function for both would take these as parameters and be no plainer.
fn section_count(class: Class, order: Order, d: &[u8], o: usize, n: usize) -> Result<usize, Fault>
    ensures { result ≡ section_count class order d.now o n }
{
    if n == 0 {
        Ok(zero_header(class, order, d, o)?.size as usize)
    } else {
        Ok(n)
    }
}

// How many segments: ffff in the header means the info field of section header 0.
fn segment_count(class: Class, order: Order, d: &[u8], o: usize, n: usize) -> Result<usize, Fault>
    ensures { result ≡ segment_count class order d.now o n }
{
    if n == 0xffff {
        Ok(zero_header(class, order, d, o)?.info as usize)
    } else {
        Ok(n)
    }
}

// The table of n entries of size bytes at o: the entry size that the header gives must be the ABI's, and the whole table must lie in
// the file.
#[tactic(auto, using(crate::proofs::Laws::table_whole), unfolding(crate::specs::Open::table_fault, endian::specs::Range::range_fault))]
fn table_at(len: usize, o: usize, n: usize, given: u16, size: usize) -> Result<Range, Fault>
    ensures { result ≡ table_at len o n given size }
{
    if given as usize != size {
        return Err(Fault::BadEntrySize);
    }
    if parse::overflows(n, size) {
        return Err(Fault::Overflow);
    }
    endian::range_fault(len, o, n * size)?;
    Ok(Range {
        from: o,
        to: o + n * size,
    })
}

// The section headers: offset 0 means none. That of the program headers counts otherwise, in the same few lines.
#[tactic(auto, unfolding(crate::specs::Open::sections_in))]
fn sections_in(
    class: Class,
    order: Order,
    d: &[u8],
    o: usize,
    n: u16,
    given: u16,
) -> Result<Option<Range>, Fault>
    ensures { result ≡ sections_in class order d.now o n given }
{
    if o == 0 {
        return Ok(None);
    }
    let n = section_count(class, order, d, o, n as usize)?;
    let table = table_at(d.len(), o, n, given, SectionHeader::size_of(class))?;
    Ok(Some(table))
}

// The program headers at o, with section header 0, if it is asked, at z: offset 0 means none.
#[tactic(auto, unfolding(crate::specs::Open::segments_in))]
fn segments_in(
    class: Class,
    order: Order,
    d: &[u8],
    z: usize,
    o: usize,
    n: u16,
    given: u16,
) -> Result<Option<Range>, Fault>
    ensures { result ≡ segments_in class order d.now z o n given }
{
    if o == 0 {
        return Ok(None);
    }
    let n = segment_count(class, order, d, z, n as usize)?;
    let table = table_at(d.len(), o, n, given, ProgramHeader::size_of(class))?;
    Ok(Some(table))
}

#[tactic(auto, unfolding(crate::specs::Open::open_with, file::specs::Layout::header_at))]
fn open_in(class: Class, order: Order, d: &[u8]) -> Result<Elf, Fault>
    requires { size_of file_header class ≤ length d.now }
    ensures { result ≡ open_with d.now (header_at class order d.now) }
{
    let h = file::outline_in(class, order, d);
    let shoff = h.shoff as usize;
    let phoff = h.phoff as usize;
    let sections = sections_in(class, order, d, shoff, h.shnum, h.shentsize)?;
    let segments = segments_in(class, order, d, shoff, phoff, h.phnum, h.phentsize)?;
    Ok(Elf {
        class,
        order,
        kind: h.kind,
        entry: h.entry,
        names: h.shstrndx,
        sections,
        segments,
    })
}

// A file's tables, or the fault of the first test that fails.
#[tactic(auto, unfolding(crate::specs::Open::open_of))]
pub fn open(d: &[u8]) -> Result<Elf, Fault>
    ensures { result ≡ open_of d.now }
{
    let Ident { class, order } = file::identify(d)?;
    if file::size_of(class) > d.len() {
        return Err(Fault::OutsideData);
    }
    open_in(class, order, d)
}

impl<'a> ElfBytes<'a> {
    // The same with the file's bytes.
    #[tactic(auto, using(crate::proofs::Laws::opened))]
    pub fn open(bytes: &'a [u8]) -> Result<ElfBytes<'a>, Fault>
        ensures { MatchResult result
            (λ file. (file.bytes.now ≡ bytes.now) × (open_of bytes.now ≡ Ok file.elf))
            (λ f. open_of bytes.now ≡ Err f) }
    {
        let elf = open(bytes)?;
        Ok(ElfBytes { bytes, elf })
    }
}
