// The functions of include/loadplan.h, by their C names: each asks one question of the crates below and puts the answer
// into the caller's array. Nothing else is here.
// Exports that differ only in the kind of entry are apart because C has no generic functions: each names its kind to one function.
#![tactic(auto)]

ghost use Rattle.std.specs.Prelude.{◌≡◌, length};
ghost use Rattle.endian.specs.Range.{answer};
ghost use Rattle.parse.specs.Entry.{range_at};
ghost use Rattle.file.specs.Open.{said, header_of};
ghost use Rattle.rows.specs.Row.{section_row, segment_row, symbol_row, rel_row, rela_row, dyn_row};
ghost use Rattle.string_table.specs.Text.{text_fault, text_range};
ghost use Rattle.string_table.specs.Utf8.{utf8_fault};
ghost use Rattle.elf_bytes.specs.Open.{open_of};
ghost use Rattle.contents.specs.Contents.{section_of, segment_of, data_of, typed_of, symbols_of};
ghost use Rattle.contents.specs.Contents as contents;
ghost use Rattle.lookup.specs.Lookup.{names_of, by_name_of, symbol_table_of, dynamic_of};
ghost use Rattle.common.specs.Common.{common_of};
ghost use Rattle.hash.specs.Sysv.{sysv_hash};
ghost use Rattle.load_plan.specs.Plan.{window_of};
ghost use Rattle.walks.specs.Walk as kinds;
ghost use Rattle.walks.specs.Walk.{Wrote};
ghost use Rattle.replies.specs.Reply.{Told, range_row, table_row, symbols_row, pair_row, found_row, head_row, opening_of, opened_row, common_row};
ghost use Rattle.loadplan.specs.Export.{entry_from, head_in, find_in, section_in, segment_in, symbol_in, rel_in, rela_in, dyn_in, WroteTold, WalkTold, planned_of, PlanTold, CarryTold, LoadTold};

use dynamic::Dyn;
use endian::Fault;
use file::Ident;
use hash::Head;
use load_plan::Refusal;
use load_rules::Window;
use parse::ParseAt;
use relocation::{Rel, Rela};
use replies::Opening;
use rows::{PackedSymbol, Row};
use section::SectionHeader;
use segment::ProgramHeader;
use symbol::Symbol;

// A plan's answer.
#[repr(C)]
#[derive(Clone, Copy)]
pub struct Planned {
    pub refusal: u32,
    pub reader: u32,
    pub records: u64,
}

// ---- a whole file

#[unsafe(no_mangle)]
pub extern "C" fn loadplan_open(file: &[u8], out: &mut [u64; 23]) -> u32
    ensures { Told opened_row (opening_of (header_of file.now) (open_of file.now)) out.old out.new result }
{
    replies::tell(Opening::of(file), out, replies::opened_row)
}

#[unsafe(no_mangle)]
pub extern "C" fn loadplan_section_at(file: &[u8], i: usize, out: &mut [u64; 10]) -> u32
    ensures { Told section_row (section_of file.now i) out.old out.new result }
{
    replies::tell(contents::section_at(file, i), out, SectionHeader::row)
}

#[unsafe(no_mangle)]
pub extern "C" fn loadplan_segment_at(file: &[u8], i: usize, out: &mut [u64; 8]) -> u32
    ensures { Told segment_row (segment_of file.now i) out.old out.new result }
{
    replies::tell(contents::segment_at(file, i), out, ProgramHeader::row)
}

#[unsafe(no_mangle)]
pub extern "C" fn loadplan_name_table(file: &[u8], out: &mut [u64; 3]) -> u32
    ensures { Told table_row (names_of file.now) out.old out.new result }
{
    replies::tell(lookup::name_table(file), out, replies::table_row)
}

#[unsafe(no_mangle)]
pub extern "C" fn loadplan_section_by_name(file: &[u8], name: &[u8], out: &mut [u64; 2]) -> u32
    ensures { Told found_row (by_name_of file.now name.now) out.old out.new result }
{
    replies::tell(lookup::by_name(file, name), out, replies::found_row)
}

#[unsafe(no_mangle)]
pub extern "C" fn loadplan_section_data(
    file: &[u8],
    kind: u32,
    offset: u64,
    size: u64,
    out: &mut [u64; 2],
) -> u32
    ensures { Told range_row (data_of (length file.now) kind offset size) out.old out.new result }
{
    replies::tell(
        contents::section_data(file, kind, offset as usize, size as usize),
        out,
        replies::range_row,
    )
}

#[unsafe(no_mangle)]
pub extern "C" fn loadplan_section_strings(
    file: &[u8],
    kind: u32,
    offset: u64,
    size: u64,
    out: &mut [u64; 2],
) -> u32
    ensures { Told range_row (typed_of (length file.now) 3 kind offset size) out.old out.new result }
{
    replies::tell(
        contents::strings_data(file, kind, offset as usize, size as usize),
        out,
        replies::range_row,
    )
}

#[unsafe(no_mangle)]
pub extern "C" fn loadplan_section_rels(
    file: &[u8],
    kind: u32,
    offset: u64,
    size: u64,
    out: &mut [u64; 2],
) -> u32
    ensures { Told range_row (typed_of (length file.now) 9 kind offset size) out.old out.new result }
{
    replies::tell(
        contents::rels_data(file, kind, offset as usize, size as usize),
        out,
        replies::range_row,
    )
}

#[unsafe(no_mangle)]
pub extern "C" fn loadplan_section_relas(
    file: &[u8],
    kind: u32,
    offset: u64,
    size: u64,
    out: &mut [u64; 2],
) -> u32
    ensures { Told range_row (typed_of (length file.now) 4 kind offset size) out.old out.new result }
{
    replies::tell(
        contents::relas_data(file, kind, offset as usize, size as usize),
        out,
        replies::range_row,
    )
}

#[unsafe(no_mangle)]
pub extern "C" fn loadplan_section_dynamic(
    file: &[u8],
    kind: u32,
    offset: u64,
    size: u64,
    entsize: u64,
    out: &mut [u64; 2],
) -> u32
    ensures { Told range_row (contents.dynamic_of file.now kind offset size entsize) out.old out.new result }
{
    replies::tell(
        contents::dynamic_data(file, kind, offset as usize, size as usize, entsize as usize),
        out,
        replies::range_row,
    )
}

#[unsafe(no_mangle)]
pub extern "C" fn loadplan_section_symbols(
    file: &[u8],
    offset: u64,
    size: u64,
    link: u32,
    entsize: u64,
    out: &mut [u64; 4],
) -> u32
    ensures { Told pair_row (symbols_of file.now offset size link entsize) out.old out.new result }
{
    replies::tell(
        contents::symbols_data(
            file,
            offset as usize,
            size as usize,
            link as usize,
            entsize as usize,
        ),
        out,
        replies::pair_row,
    )
}

#[unsafe(no_mangle)]
pub extern "C" fn loadplan_segment_data(
    file: &[u8],
    offset: u64,
    filesz: u64,
    out: &mut [u64; 2],
) -> u32
    ensures { Told range_row (range_at (length file.now) offset filesz) out.old out.new result }
{
    replies::tell(
        contents::segment_data(file, offset as usize, filesz as usize),
        out,
        replies::range_row,
    )
}

#[unsafe(no_mangle)]
pub extern "C" fn loadplan_symbol_table(file: &[u8], out: &mut [u64; 5]) -> u32
    ensures { Told symbols_row (symbol_table_of file.now 2) out.old out.new result }
{
    replies::tell(lookup::symbol_table(file), out, replies::symbols_row)
}

#[unsafe(no_mangle)]
pub extern "C" fn loadplan_dynamic_symbol_table(file: &[u8], out: &mut [u64; 5]) -> u32
    ensures { Told symbols_row (symbol_table_of file.now 11) out.old out.new result }
{
    replies::tell(
        lookup::dynamic_symbol_table(file),
        out,
        replies::symbols_row,
    )
}

#[unsafe(no_mangle)]
pub extern "C" fn loadplan_dynamic(file: &[u8], out: &mut [u64; 3]) -> u32
    ensures { Told table_row (dynamic_of file.now) out.old out.new result }
{
    replies::tell(lookup::dynamic(file), out, replies::table_row)
}

#[unsafe(no_mangle)]
pub extern "C" fn loadplan_common(file: &[u8], out: &mut [u64; 16]) -> u32
    ensures { Told common_row (common_of file.now) out.old out.new result }
{
    replies::tell(common::common_data(file), out, replies::common_row)
}

// ---- tables

// Entry i of a table, in the class and the order that two numbers say.
fn entry<E: ParseAt>(class: u8, order: u8, table: &[u8], i: usize) -> Result<E, Fault>
    ensures { result ≡ entry_from E.size E.at table.now i (said class order) }
{
    let Ident { class, order } = Ident::said(class, order)?;
    parse::entry(class, order, table, i)
}

// A walk in that class and order; nothing where they are none.
fn walk<const N: usize, E: Row<N>>(
    class: u8,
    order: u8,
    table: &[u8],
    from: usize,
    out: &mut [u64],
) -> usize
    ensures { WroteTold (λ c e. Wrote E.size N (λ c e t o. E.values (E.at c e t o)) c e table.now from out.old out.new result) out.old out.new result (said class order) }
{
    match Ident::said(class, order) {
        Err(_) => 0,
        Ok(Ident { class, order }) => walks::walk::<N, E>(class, order, table, from, out),
    }
}

#[unsafe(no_mangle)]
pub extern "C" fn loadplan_section(
    class: u8,
    order: u8,
    table: &[u8],
    i: usize,
    out: &mut [u64; 10],
) -> u32
    ensures { Told section_row (section_in table.now i (said class order)) out.old out.new result }
{
    replies::tell(
        entry::<SectionHeader>(class, order, table, i),
        out,
        SectionHeader::row,
    )
}

#[unsafe(no_mangle)]
pub extern "C" fn loadplan_segment(
    class: u8,
    order: u8,
    table: &[u8],
    i: usize,
    out: &mut [u64; 8],
) -> u32
    ensures { Told segment_row (segment_in table.now i (said class order)) out.old out.new result }
{
    replies::tell(
        entry::<ProgramHeader>(class, order, table, i),
        out,
        ProgramHeader::row,
    )
}

#[unsafe(no_mangle)]
pub extern "C" fn loadplan_symbol(
    class: u8,
    order: u8,
    table: &[u8],
    i: usize,
    out: &mut [u64; 6],
) -> u32
    ensures { Told symbol_row (symbol_in table.now i (said class order)) out.old out.new result }
{
    replies::tell(entry::<Symbol>(class, order, table, i), out, Symbol::row)
}

#[unsafe(no_mangle)]
pub extern "C" fn loadplan_rel(
    class: u8,
    order: u8,
    table: &[u8],
    i: usize,
    out: &mut [u64; 3],
) -> u32
    ensures { Told rel_row (rel_in table.now i (said class order)) out.old out.new result }
{
    replies::tell(entry::<Rel>(class, order, table, i), out, Rel::row)
}

#[unsafe(no_mangle)]
pub extern "C" fn loadplan_rela(
    class: u8,
    order: u8,
    table: &[u8],
    i: usize,
    out: &mut [u64; 4],
) -> u32
    ensures { Told rela_row (rela_in table.now i (said class order)) out.old out.new result }
{
    replies::tell(entry::<Rela>(class, order, table, i), out, Rela::row)
}

#[unsafe(no_mangle)]
pub extern "C" fn loadplan_dyn(
    class: u8,
    order: u8,
    table: &[u8],
    i: usize,
    out: &mut [u64; 2],
) -> u32
    ensures { Told dyn_row (dyn_in table.now i (said class order)) out.old out.new result }
{
    replies::tell(entry::<Dyn>(class, order, table, i), out, Dyn::row)
}

#[unsafe(no_mangle)]
pub extern "C" fn loadplan_sections(
    class: u8,
    order: u8,
    table: &[u8],
    from: usize,
    out: &mut [u64],
) -> usize
    ensures { WalkTold kinds.Section table.now from out.old out.new result (said class order) }
{
    walk::<10, SectionHeader>(class, order, table, from, out)
}

#[unsafe(no_mangle)]
pub extern "C" fn loadplan_segments(
    class: u8,
    order: u8,
    table: &[u8],
    from: usize,
    out: &mut [u64],
) -> usize
    ensures { WalkTold kinds.Segment table.now from out.old out.new result (said class order) }
{
    walk::<8, ProgramHeader>(class, order, table, from, out)
}

#[unsafe(no_mangle)]
pub extern "C" fn loadplan_symbols(
    class: u8,
    order: u8,
    table: &[u8],
    from: usize,
    out: &mut [u64],
) -> usize
    ensures { WalkTold kinds.Symbol table.now from out.old out.new result (said class order) }
{
    walk::<6, Symbol>(class, order, table, from, out)
}

#[unsafe(no_mangle)]
pub extern "C" fn loadplan_packed_symbols(
    class: u8,
    order: u8,
    table: &[u8],
    from: usize,
    out: &mut [u64],
) -> usize
    ensures { WalkTold kinds.Packed table.now from out.old out.new result (said class order) }
{
    walk::<4, PackedSymbol>(class, order, table, from, out)
}

#[unsafe(no_mangle)]
pub extern "C" fn loadplan_rels(
    class: u8,
    order: u8,
    table: &[u8],
    from: usize,
    out: &mut [u64],
) -> usize
    ensures { WalkTold kinds.Rel table.now from out.old out.new result (said class order) }
{
    walk::<3, Rel>(class, order, table, from, out)
}

#[unsafe(no_mangle)]
pub extern "C" fn loadplan_relas(
    class: u8,
    order: u8,
    table: &[u8],
    from: usize,
    out: &mut [u64],
) -> usize
    ensures { WalkTold kinds.Rela table.now from out.old out.new result (said class order) }
{
    walk::<4, Rela>(class, order, table, from, out)
}

#[unsafe(no_mangle)]
pub extern "C" fn loadplan_dyns(
    class: u8,
    order: u8,
    table: &[u8],
    from: usize,
    out: &mut [u64],
) -> usize
    ensures { WalkTold kinds.Dyn table.now from out.old out.new result (said class order) }
{
    walk::<2, Dyn>(class, order, table, from, out)
}

#[unsafe(no_mangle)]
pub extern "C" fn loadplan_string(table: &[u8], offset: usize, out: &mut [u64; 2]) -> u32
    ensures { Told range_row (answer (text_fault table.now offset) (text_range table.now offset)) out.old out.new result }
{
    replies::tell(string_table::text(table, offset), out, replies::range_row)
}

#[unsafe(no_mangle)]
pub extern "C" fn loadplan_string_utf8(table: &[u8], offset: usize, out: &mut [u64; 2]) -> u32
    ensures { Told range_row (answer (utf8_fault table.now offset) (text_range table.now offset)) out.old out.new result }
{
    replies::tell(string_table::utf8(table, offset), out, replies::range_row)
}

#[unsafe(no_mangle)]
pub extern "C" fn loadplan_sysv_hash(name: &[u8]) -> u32
    ensures { result ≡ sysv_hash name.now }
{
    hash::sysv_hash(name)
}

// The table's order stands for a whole identification: its class is not asked.
fn header(order: u8, table: &[u8]) -> Result<Head, Fault>
    ensures { result ≡ head_in table.now (said 1 order) }
{
    let Ident { order, .. } = Ident::said(1, order)?;
    hash::header(order, table)
}

fn find(
    class: u8,
    order: u8,
    table: &[u8],
    symbols: &[u8],
    strings: &[u8],
    name: &[u8],
) -> Result<Option<usize>, Fault>
    ensures { result ≡ find_in table.now symbols.now strings.now name.now (said class order) }
{
    let Ident { class, order } = Ident::said(class, order)?;
    hash::find(class, order, table, symbols, strings, name)
}

#[unsafe(no_mangle)]
pub extern "C" fn loadplan_hash_header(order: u8, table: &[u8], out: &mut [u64; 2]) -> u32
    ensures { Told head_row (head_in table.now (said 1 order)) out.old out.new result }
{
    replies::tell(header(order, table), out, replies::head_row)
}

#[unsafe(no_mangle)]
pub extern "C" fn loadplan_hash_find(
    class: u8,
    order: u8,
    table: &[u8],
    symbols: &[u8],
    strings: &[u8],
    name: &[u8],
    out: &mut [u64; 2],
) -> u32
    ensures { Told found_row (find_in table.now symbols.now strings.now name.now (said class order)) out.old out.new result }
{
    replies::tell(
        find(class, order, table, symbols, strings, name),
        out,
        replies::found_row,
    )
}

// ---- the load plan

impl From<Result<usize, Refusal>> for Planned {
    ghost from_gives = { λ a p. p ≡ planned_of a };

    fn from(answer: Result<usize, Refusal>) -> Planned {
        match answer {
            Ok(n) => Planned {
                refusal: 0,
                reader: 0,
                records: n as u64,
            },
            Err(refusal) => Planned {
                refusal: u32::from(refusal),
                reader: refusal.reader().map_or(0, u32::from),
                records: 0,
            },
        }
    }
}

#[unsafe(no_mangle)]
pub extern "C" fn loadplan_plan(
    file: &[u8],
    window_start: u64,
    window_length: u64,
    table: &mut [u8],
) -> Planned
    ensures { PlanTold file.now (window_of window_start window_length) table.old table.new result }
{
    let w = Window {
        start: window_start,
        len: window_length,
    };
    Planned::from(load_plan::plan(file, w, table))
}

#[unsafe(no_mangle)]
pub extern "C" fn loadplan_carry_out(
    file: &[u8],
    window_start: u64,
    window_length: u64,
    table: &[u8],
    records: u64,
    memory: &mut [u8],
) -> u32
    ensures { CarryTold file.now (window_of window_start window_length) table.now records memory.old memory.new result }
{
    let w = Window {
        start: window_start,
        len: window_length,
    };
    match load_image::carry_out(file, w, table, records as usize, memory) {
        Ok(()) => 0,
        Err(refusal) => u32::from(refusal),
    }
}

#[unsafe(no_mangle)]
pub extern "C" fn loadplan_load(
    file: &[u8],
    window_start: u64,
    window_length: u64,
    table: &mut [u8],
    memory: &mut [u8],
) -> Planned
    ensures { LoadTold file.now (window_of window_start window_length) table.old table.new memory.old memory.new result }
{
    let w = Window {
        start: window_start,
        len: window_length,
    };
    Planned::from(load_image::load(file, w, table, memory))
}
