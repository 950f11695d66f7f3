// What a section or a segment holds: its header by number, its bytes, and its bytes as strings, relocations, symbols or dynamic entries.
// A section's numbers (type, offset, size, ..) come from the caller, and nothing is believed of them.
// The flag for compressed data is ignored. The `.._in` functions take an opened file, whose tables lie in it.
// Types are the ABI's numbers and no enum: a file may have any number there, and it is told as it stands.
#![tactic(auto)]

ghost use Rattle.std.specs.Prelude.{◌≡◌, length};
ghost use Rattle.parse.specs.Entry.{range_at};
ghost use Rattle.elf_bytes.specs.Open.{Tabled};
ghost use Rattle.contents.specs.Contents.{header_from, extent_in, section_in, section_of, segment_of, segment_in, data_of, typed_of, dynamic_in, dynamic_of, symbols_with, symbols_in, symbols_of, asked_of};

use dynamic::Dyn;
use elf_bytes::ElfBytes;
use endian::{Class, Fault};
use parse::{ParseAt, Range};
use section::{Extent, SectionHeader};
use segment::ProgramHeader;
use symbol::Symbol;

// Symbols and their strings.
#[derive(Clone, Copy, Debug, PartialEq, Eq)]
pub struct SymbolTable {
    pub symbols: Range,
    pub strings: Range,
}

// What a section's header says of its bytes, as a question gives it.
#[derive(Clone, Copy, Debug, PartialEq, Eq)]
pub struct Asked {
    pub offset: usize,
    pub size: usize,
    pub link: usize,
    pub entsize: usize,
}

impl From<Extent> for Asked {
    ghost from_gives = { λ x a. a ≡ asked_of x };

    fn from(x: Extent) -> Asked {
        Asked {
            offset: x.offset as usize,
            size: x.size as usize,
            link: x.link as usize,
            entsize: x.entsize as usize,
        }
    }
}

// ---- headers by number

// Header i of a table of an opened file: without a table as with an empty one.
fn header_in<E: ParseAt>(file: &ElfBytes, table: Option<Range>, i: usize) -> Result<E, Fault>
    requires { Tabled file.now.bytes.now table }
    ensures { result ≡ header_from E.size E.at file.now.bytes.now file.now.elf table i }
{
    let headers = table.ok_or(Fault::BadOffset)?.part(file.bytes);
    parse::entry(file.elf.class, file.elf.order, headers, i)
}

// Section header i: this and the two like it are a line each, which names the definition of one question.
#[tactic(auto, unfolding(crate::specs::Contents::section_in))]
pub fn section_in(file: &ElfBytes, i: usize) -> Result<SectionHeader, Fault>
    ensures { result ≡ section_in file.now.bytes.now file.now.elf i }
{
    header_in(file, file.elf.sections, i)
}

// Its extent.
#[tactic(auto, unfolding(crate::specs::Contents::extent_in))]
pub fn extent_in(file: &ElfBytes, i: usize) -> Result<Extent, Fault>
    ensures { result ≡ extent_in file.now.bytes.now file.now.elf i }
{
    header_in::<Extent>(file, file.elf.sections, i)
}

// The question of a whole file: a name, and a promise, for each of the two tables.
#[tactic(auto, unfolding(crate::specs::Contents::section_of))]
pub fn section_at(d: &[u8], i: usize) -> Result<SectionHeader, Fault>
    ensures { result ≡ section_of d.now i }
{
    section_in(&ElfBytes::open(d)?, i)
}

// Program header i, likewise.
#[tactic(auto, unfolding(crate::specs::Contents::segment_in))]
pub fn segment_in(file: &ElfBytes, i: usize) -> Result<ProgramHeader, Fault>
    ensures { result ≡ segment_in file.now.bytes.now file.now.elf i }
{
    header_in(file, file.elf.segments, i)
}

#[tactic(auto, unfolding(crate::specs::Contents::segment_of))]
pub fn segment_at(d: &[u8], i: usize) -> Result<ProgramHeader, Fault>
    ensures { result ≡ segment_of d.now i }
{
    segment_in(&ElfBytes::open(d)?, i)
}

// ---- bytes

// The bytes of a section: type 8 has none.
#[tactic(auto, unfolding(crate::specs::Contents::data_of))]
pub fn section_data(d: &[u8], kind: u32, offset: usize, size: usize) -> Result<Range, Fault>
    ensures { result ≡ data_of (length d.now) kind offset size }
{
    if kind == 8 {
        return Ok(Range { from: 0, to: 0 });
    }
    parse::range_at(d.len(), offset, size)
}

// The bytes of a section whose type must be the one wanted.
#[tactic(auto, unfolding(crate::specs::Contents::typed_of))]
fn typed_data(d: &[u8], want: u32, kind: u32, offset: usize, size: usize) -> Result<Range, Fault>
    ensures { result ≡ typed_of (length d.now) want kind offset size }
{
    if kind != want {
        return Err(Fault::BadSectionType);
    }
    section_data(d, kind, offset, size)
}

// Three questions of document 01, each under its name and with its own number in its promise.
pub fn strings_data(d: &[u8], kind: u32, offset: usize, size: usize) -> Result<Range, Fault>
    ensures { result ≡ typed_of (length d.now) 3 kind offset size }
{
    typed_data(d, 3, kind, offset, size)
}

pub fn rels_data(d: &[u8], kind: u32, offset: usize, size: usize) -> Result<Range, Fault>
    ensures { result ≡ typed_of (length d.now) 9 kind offset size }
{
    typed_data(d, 9, kind, offset, size)
}

pub fn relas_data(d: &[u8], kind: u32, offset: usize, size: usize) -> Result<Range, Fault>
    ensures { result ≡ typed_of (length d.now) 4 kind offset size }
{
    typed_data(d, 4, kind, offset, size)
}

// The bytes of a segment that stand in the file.
pub fn segment_data(d: &[u8], offset: usize, filesz: usize) -> Result<Range, Fault>
    ensures { result ≡ range_at (length d.now) offset filesz }
{
    parse::range_at(d.len(), offset, filesz)
}

// As dynamic entries: the type, then the entry size, then the bytes.
#[tactic(auto, unfolding(crate::specs::Contents::dynamic_in))]
pub fn dynamic_in(file: &ElfBytes, kind: u32, asked: Asked) -> Result<Range, Fault>
    ensures { result ≡ dynamic_in file.now.elf.class (length file.now.bytes.now) kind asked.offset asked.size asked.entsize }
{
    if kind != 6 {
        return Err(Fault::BadSectionType);
    }
    if asked.entsize != Dyn::size_of(file.elf.class) {
        return Err(Fault::BadEntrySize);
    }
    section_data(file.bytes, kind, asked.offset, asked.size)
}

#[tactic(auto, unfolding(crate::specs::Contents::dynamic_of))]
pub fn dynamic_data(
    d: &[u8],
    kind: u32,
    offset: usize,
    size: usize,
    entsize: usize,
) -> Result<Range, Fault>
    ensures { result ≡ dynamic_of d.now kind offset size entsize }
{
    let asked = Asked {
        offset,
        size,
        link: 0, // not asked for
        entsize,
    };
    dynamic_in(&ElfBytes::open(d)?, kind, asked)
}

// ---- symbols

// As symbols, with the extent of the section that holds their strings: the entry size, the symbols' bytes, the strings' bytes.
#[tactic(auto, unfolding(crate::specs::Contents::symbols_with))]
fn symbols_with(
    class: Class,
    len: usize,
    asked: Asked,
    strings: Extent,
) -> Result<SymbolTable, Fault>
    ensures { result ≡ symbols_with class len asked strings }
{
    if asked.entsize != Symbol::size_of(class) {
        return Err(Fault::BadEntrySize);
    }
    let symbols = parse::range_at(len, asked.offset, asked.size)?;
    let strings = parse::range_at(len, strings.offset as usize, strings.size as usize)?;
    Ok(SymbolTable { symbols, strings })
}

// The linked section's header comes first, as it does in the Rust.
#[tactic(auto, unfolding(crate::specs::Contents::symbols_in))]
pub fn symbols_in(file: &ElfBytes, asked: Asked) -> Result<SymbolTable, Fault>
    ensures { result ≡ symbols_in file.now.bytes.now file.now.elf asked }
{
    let strings = extent_in(file, asked.link)?;
    symbols_with(file.elf.class, file.bytes.len(), asked, strings)
}

#[tactic(auto, unfolding(crate::specs::Contents::symbols_of))]
pub fn symbols_data(
    d: &[u8],
    offset: usize,
    size: usize,
    link: usize,
    entsize: usize,
) -> Result<SymbolTable, Fault>
    ensures { result ≡ symbols_of d.now offset size link entsize }
{
    let asked = Asked {
        offset,
        size,
        link,
        entsize,
    };
    symbols_in(&ElfBytes::open(d)?, asked)
}
