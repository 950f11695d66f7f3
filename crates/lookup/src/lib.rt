// What is found in a whole file: the table of section names, a section by its name, the symbol tables, the dynamic entries.
// Each public question opens the file itself. The `.._in` functions take an opened file, whose tables lie in it.
#![tactic(auto)]

ghost use Rattle.std.specs.Prelude.{◌≡◌, ◌+◌, ◌≤◌, true, length};
ghost use Rattle.string_table.specs.Noted.{Notes};
ghost use Rattle.string_table.specs.Utf8.{well_formed};
ghost use Rattle.elf_bytes.specs.Open.{Tabled};
ghost use Rattle.lookup.specs.Lookup.{name_index, names_in, names_of, text_named, first_named, by_name_in, by_name_of, first_in, first_section, first_segment, symbols_at, symbol_table_in, symbol_table_of, dynamic_at, segment_bytes, dynamic_segment, dynamic_in, dynamic_of};

use contents::{Asked, SymbolTable};
use elf_bytes::ElfBytes;
use endian::{Fault, Number, Order};
use parse::{ParseAt, Range};
use section::SectionHeader;
use segment::ProgramHeader;
use string_table::{CleanName, Strings};

// ---- names of sections

// Which section holds the names: ffff means the link field of section header 0.
#[tactic(auto, unfolding(crate::specs::Lookup::name_index))]
fn name_index(file: &ElfBytes) -> Result<usize, Fault>
    ensures { result ≡ name_index file.now.bytes.now file.now.elf }
{
    if file.elf.names == 0xffff {
        let zero = contents::section_in(file, 0)?;
        return Ok(zero.link as usize);
    }
    Ok(file.elf.names as usize)
}

// The bytes of that section, as they stand in its header; none if there are no sections or the index is 0.
#[tactic(auto, unfolding(crate::specs::Lookup::names_in))]
fn names_in(file: &ElfBytes) -> Result<Option<Range>, Fault>
    ensures { result ≡ names_in file.now.bytes.now file.now.elf }
{
    if file.elf.sections.is_none() || file.elf.names == 0 {
        return Ok(None);
    }
    let i = name_index(file)?;
    let h = contents::section_in(file, i)?;
    let names = parse::range_at(file.bytes.len(), h.offset as usize, h.size as usize)?;
    Ok(Some(names))
}

// The range of the table of section names in the file, or none.
#[tactic(auto, unfolding(crate::specs::Lookup::names_of))]
pub fn name_table(d: &[u8]) -> Result<Option<Range>, Fault>
    ensures { result ≡ names_of d.now }
{
    names_in(&ElfBytes::open(d)?)
}

// ---- a section by its name

// Whether the string at o is the name, which is UTF-8. `hash::Noting` keeps the same three with its search; here they are lent by the
// one loop that has them.
#[tactic(auto, using(crate::proofs::Names::named_beyond, crate::proofs::Names::named_there, crate::proofs::Names::stays_noted))]
fn is_named(strings: &Strings, o: usize, name: &CleanName, marks: &mut [u8]) -> bool
    requires utf8 { well_formed name.now.bytes.now ≡ true }
    requires noted_before { Notes strings.now.bytes.now name.now.bytes.now marks.old }
    ensures answer { result ≡ text_named strings.now.bytes.now o name.now.bytes.now }
    ensures noted_after { Notes strings.now.bytes.now name.now.bytes.now marks.new }
{
    match strings.fault(o) {
        Err(_) => false,
        Ok(()) if string_table::is_long(name.bytes) => strings.same_noted(o, name, marks),
        Ok(()) => strings.same_at(o, name),
    }
}

// The first section whose name, at the offset that stands first in its header, is the name.
#[tactic(auto, using(parse::proofs::Laws::first_here, parse::proofs::Laws::first_later, parse::proofs::Laws::first_none, string_table::proofs::Notes::none_noted), unfolding(crate::specs::Lookup::first_named, crate::specs::Lookup::named))]
fn search(order: Order, t: &[u8], size: usize, strings: &Strings, name: &CleanName) -> Option<usize>
    requires wide { 4 ≤ size }
    requires utf8 { well_formed name.now.bytes.now ≡ true }
    ensures { result ≡ first_named order t.now size strings.now.bytes.now name.now.bytes.now }
{
    // fixed, since there is no heap
    let mut marks = [0u8; 1024];
    for i in 0..t.len() / size {
        let o = u32::read(order, t, i * size) as usize;
        if is_named(strings, o, name, &mut marks) {
            return Some(i);
        }
    }
    None
}

// Only strings that are UTF-8 are compared, and no string holds a zero byte, so a name that is not UTF-8 or holds one is nobody's.
// Both are found out here, once for all sections; and before them whether there is any string: where there is none, neither the name
// nor a section is looked at.
#[tactic(auto, using(crate::proofs::Names::none_nowhere, crate::proofs::Names::none_unclean, crate::proofs::Names::none_other))]
fn first_named(order: Order, t: &[u8], size: usize, strs: &[u8], name: &[u8]) -> Option<usize>
    requires { 4 ≤ size }
    ensures { result ≡ first_named order t.now size strs.now name.now }
{
    let strings = Strings::new(strs);
    if strings.ends == 0 {
        return None;
    }
    match CleanName::new(name) {
        Ok(clean) if string_table::is_utf8(name) => search(order, t, size, &strings, &clean),
        _ => None,
    }
}

#[tactic(auto, using(crate::proofs::Names::names_whole, section::proofs::Filled::wide), unfolding(crate::specs::Lookup::by_name_in))]
fn by_name_in(file: &ElfBytes, name: &[u8]) -> Result<Option<usize>, Fault>
    ensures { result ≡ by_name_in file.now.bytes.now file.now.elf name.now }
{
    match (names_in(file)?, file.elf.sections) {
        (Some(names), Some(sections)) => {
            let size = SectionHeader::size_of(file.elf.class);
            let strs = names.part(file.bytes);
            Ok(first_named(file.elf.order, sections.part(file.bytes), size, strs, name))
        }
        _ => Ok(None),
    }
}

// The number of the first section with that name.
#[tactic(auto, unfolding(crate::specs::Lookup::by_name_of))]
pub fn by_name(d: &[u8], name: &[u8]) -> Result<Option<usize>, Fault>
    ensures { result ≡ by_name_of d.now name.now }
{
    by_name_in(&ElfBytes::open(d)?, name)
}

// ---- the first of a type

// The first entry of a table of an opened file, or of none, with the kind at the place `at`.
fn first_in<E: ParseAt>(
    file: &ElfBytes,
    table: Option<Range>,
    at: usize,
    kind: u32,
) -> Option<usize>
    requires whole { Tabled file.now.bytes.now table }
    requires wide { at + 4 ≤ E.size file.now.elf.class }
    ensures { result ≡ first_in E.size file.now.bytes.now file.now.elf at kind table }
{
    let t = table?.part(file.bytes);
    parse::first_kind(file.elf.order, t, E::size_of(file.elf.class), at, kind)
}

// A line for each of the two tables, which names the definition of one question.
#[tactic(auto, using(section::proofs::Filled::wide), unfolding(crate::specs::Lookup::first_section))]
pub fn first_section(file: &ElfBytes, kind: u32) -> Option<usize>
    ensures { result ≡ first_section file.now.bytes.now file.now.elf kind }
{
    first_in::<SectionHeader>(file, file.elf.sections, 4, kind)
}

#[tactic(auto, using(segment::proofs::Filled::wide), unfolding(crate::specs::Lookup::first_segment))]
pub fn first_segment(file: &ElfBytes, kind: u32) -> Option<usize>
    ensures { result ≡ first_segment file.now.bytes.now file.now.elf kind }
{
    first_in::<ProgramHeader>(file, file.elf.segments, 0, kind)
}

// ---- symbol tables

// Section i as symbols.
#[tactic(auto, unfolding(crate::specs::Lookup::symbols_at))]
pub fn symbols_at(file: &ElfBytes, i: usize) -> Result<SymbolTable, Fault>
    ensures { result ≡ symbols_at file.now.bytes.now file.now.elf i }
{
    let x = contents::extent_in(file, i)?;
    contents::symbols_in(file, Asked::from(x))
}

// Not in line, so that what opening leaves on the stack and what reading headers needs there are not added up.
#[inline(never)]
#[tactic(auto, unfolding(crate::specs::Lookup::symbol_table_in))]
fn symbol_table_in(file: &ElfBytes, kind: u32) -> Result<Option<SymbolTable>, Fault>
    ensures { result ≡ symbol_table_in file.now.bytes.now file.now.elf kind }
{
    match first_section(file, kind) {
        None => Ok(None),
        Some(i) => Ok(Some(symbols_at(file, i)?)),
    }
}

// The symbols of the first section of a type.
#[tactic(auto, unfolding(crate::specs::Lookup::symbol_table_of))]
fn symbol_table_of(d: &[u8], kind: u32) -> Result<Option<SymbolTable>, Fault>
    ensures { result ≡ symbol_table_of d.now kind }
{
    symbol_table_in(&ElfBytes::open(d)?, kind)
}

// Two questions of document 01, each under its name and with its own number in its promise.
pub fn symbol_table(d: &[u8]) -> Result<Option<SymbolTable>, Fault>
    ensures { result ≡ symbol_table_of d.now 2 }
{
    symbol_table_of(d, 2)
}

pub fn dynamic_symbol_table(d: &[u8]) -> Result<Option<SymbolTable>, Fault>
    ensures { result ≡ symbol_table_of d.now 11 }
{
    symbol_table_of(d, 11)
}

// ---- dynamic entries

// Section i as dynamic entries.
#[tactic(auto, unfolding(crate::specs::Lookup::dynamic_at))]
pub fn dynamic_at(file: &ElfBytes, i: usize) -> Result<Range, Fault>
    ensures { result ≡ dynamic_at file.now.bytes.now file.now.elf i }
{
    let h = contents::section_in(file, i)?;
    contents::dynamic_in(file, h.kind, Asked::from(h.extent()))
}

// The bytes of segment i that stand in the file.
#[tactic(auto, unfolding(crate::specs::Lookup::segment_bytes))]
fn segment_bytes(file: &ElfBytes, i: usize) -> Result<Range, Fault>
    ensures { result ≡ segment_bytes file.now.bytes.now file.now.elf i }
{
    let h = contents::segment_in(file, i)?;
    parse::range_at(file.bytes.len(), h.offset as usize, h.filesz as usize)
}

// The first segment of type 2.
#[tactic(auto, unfolding(crate::specs::Lookup::dynamic_segment))]
pub fn dynamic_segment(file: &ElfBytes) -> Result<Option<Range>, Fault>
    ensures { result ≡ dynamic_segment file.now.bytes.now file.now.elf }
{
    match first_segment(file, 2) {
        None => Ok(None),
        Some(i) => Ok(Some(segment_bytes(file, i)?)),
    }
}

// If there are sections, the first of type 6, and none if there is none; only without sections, the segment.
#[tactic(auto, unfolding(crate::specs::Lookup::dynamic_in))]
fn dynamic_in(file: &ElfBytes) -> Result<Option<Range>, Fault>
    ensures { result ≡ dynamic_in file.now.bytes.now file.now.elf }
{
    if file.elf.sections.is_none() {
        return dynamic_segment(file);
    }
    match first_section(file, 6) {
        None => Ok(None),
        Some(i) => Ok(Some(dynamic_at(file, i)?)),
    }
}

#[tactic(auto, unfolding(crate::specs::Lookup::dynamic_of))]
pub fn dynamic(d: &[u8]) -> Result<Option<Range>, Fault>
    ensures { result ≡ dynamic_of d.now }
{
    dynamic_in(&ElfBytes::open(d)?)
}
