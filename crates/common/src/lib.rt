// The common data of a file in one walk over its sections: both symbol tables, the dynamic entries, the hash table.
// Later sections replace earlier ones, and any fault among them is the answer.
#![tactic(auto)]

ghost use Rattle.std.specs.Prelude.{◌≡◌, ◌+◌, ◌^◌, ◌<◌, length};
ghost use Rattle.endian.specs.Range.{answer};
ghost use Rattle.section.specs.Layout.{extent_of};
ghost use Rattle.section.specs.declared.SectionHeader.{SectionHeader};
ghost use Rattle.common.specs.Common.{hash_in, hash_of, adding, collected, sections_of, below_of, finished, common_of};

use contents::{Asked, SymbolTable};
use elf_bytes::ElfBytes;
use endian::{Fault, Number, Order};
use parse::{ParseAt, Range};
use section::{Extent, SectionHeader};

// A file's symbol tables of types 2 and 11, its dynamic entries, and its hash table from the header to the end of the chains.
#[derive(Clone, Copy, Debug, PartialEq, Eq)]
pub struct Common {
    pub symtab: Option<SymbolTable>,
    pub dynsym: Option<SymbolTable>,
    pub dynamic: Option<Range>,
    pub hash: Option<Range>,
}

// A hash table that starts at `from`, of which `part` are the section's bytes: up to the end of its chains.
#[tactic(auto, using(crate::proofs::Laws::tables_inside, crate::proofs::Laws::hash_is, crate::proofs::Laws::hash_refused))]
fn hash_in(order: Order, from: usize, part: &[u8]) -> Result<Range, Fault>
    requires { from + length part.now < 2 ^ 64 }
    ensures { result ≡ hash_in order from part.now }
{
    let h = hash::header(order, part)?;
    Ok(Range {
        from,
        to: from + (8 + 4 * h.buckets as usize + 4 * h.chains as usize),
    })
}

// Offset and size are taken as they stand.
#[tactic(auto, unfolding(crate::specs::Common::hash_of), using(parse::proofs::Laws::range_inside))]
fn hash_of(order: Order, d: &[u8], offset: usize, size: usize) -> Result<Range, Fault>
    ensures { result ≡ hash_of order d.now offset size }
{
    let r = parse::range_at(d.len(), offset, size)?;
    hash_in(order, r.from, r.part(d))
}

// What a section of the given type and extent adds to what those before it gave: symbols (types 2 and 11), dynamic entries (6), a hash
// table (5). It is put where it belongs: no other part is copied.
#[tactic(auto, unfolding(crate::specs::Common::collected))]
fn add(file: &ElfBytes, c: &mut Common, kind: u32, x: Extent) -> Result<(), Fault>
    ensures { (h : SectionHeader) → kind ≡ h.kind → x ≡ extent_of h
        → answer result c.new ≡ collected file.now.bytes.now file.now.elf c.old h }
{
    let asked = Asked::from(x);
    match kind {
        2 => c.symtab = Some(contents::symbols_in(file, asked)?),
        11 => c.dynsym = Some(contents::symbols_in(file, asked)?),
        6 => c.dynamic = Some(contents::dynamic_in(file, kind, asked)?),
        5 => c.hash = Some(hash_of(file.elf.order, file.bytes, asked.offset, asked.size)?),
        _ => {}
    }
    Ok(())
}

// Whether sections of a type add something.
fn adds(kind: u32) -> bool
    ensures { result ≡ adding kind }
{
    matches!(kind, 2 | 5 | 6 | 11)
}

// What all sections add. Most add nothing, so a section's type is looked at first.
fn gather(file: &ElfBytes) -> Result<Common, Fault>
    ensures { result ≡ below_of file.now.bytes.now file.now.elf (sections_of file.now.elf file.now.elf.sections) }
{
    let mut c = Common {
        symtab: None,
        dynsym: None,
        dynamic: None,
        hash: None,
    };
    let Some(r) = file.elf.sections else {
        return Ok(c);
    };
    let headers = r.part(file.bytes);
    let size = SectionHeader::size_of(file.elf.class);
    for i in 0..parse::count(size, headers.len()) {
        let kind = u32::read(file.elf.order, headers, i * size + 4);
        if adds(kind) {
            let x = parse::entry_in(file.elf.class, file.elf.order, headers, i * size);
            add(file, &mut c, kind, x)?;
        }
    }
    Ok(c)
}

// Without a dynamic section, the first segment of type 2.
#[tactic(auto, unfolding(crate::specs::Common::finished))]
fn finish(file: &ElfBytes, c: Common) -> Result<Common, Fault>
    ensures { result ≡ finished file.now.bytes.now file.now.elf c }
{
    if c.dynamic.is_some() {
        return Ok(c);
    }
    let dynamic = lookup::dynamic_segment(file)?;
    Ok(Common { dynamic, ..c })
}

#[tactic(auto, unfolding(crate::specs::Common::common_of))]
pub fn common_data(d: &[u8]) -> Result<Common, Fault>
    ensures { result ≡ common_of d.now }
{
    let file = ElfBytes::open(d)?;
    let c = gather(&file)?;
    finish(&file, c)
}
