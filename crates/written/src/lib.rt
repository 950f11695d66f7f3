// File headers, section headers and program headers, written out in their class and order into a lent slice.
// A refusal is NoRoom where the slice is too short, Overflow where a number does not fit a 32-bit file; then nothing is written.
// What is written reads back as itself: that stands in each contract.
#![tactic(auto)]

ghost use Rattle.std.specs.Prelude.{◌≡◌, ℕ, ◌+◌, ◌^◌, ◌<◌, ◌≤◌, Bool, List, length};
ghost use Rattle.std.proofs.lemmas.List.Edits.{sets};
ghost use Rattle.endian.specs.Number.{bytes_of};
ghost use Rattle.endian.specs.Place.{word, size_of, file_header};
ghost use Rattle.endian.specs.declared.Class.{Class};
ghost use Rattle.endian.specs.declared.Order.{Order};
ghost use Rattle.written.specs.Rows.{Row, write_all, write_fault, after, Fitting, fits, narrow, all_fit, room_fault, fit_fault};
ghost use Rattle.written.specs.Headers.{header_rows, ident_bytes, header_bytes};
ghost use Rattle.written.specs.Headers.{section_rows, segment_rows, WroteHeader, WroteSection, WroteSegment};

use endian::{Class, Fault, Order, Store};
use file::FileHeader;
use parse::ParseAt;
use section::SectionHeader;
use segment::ProgramHeader;

// An entry that can be written. `rows` are its numbers, each at its place.
trait WriteAt: ParseAt {
    ghost rows: { Class → Self → List Row };

    // Overflow where a number doesn't fit its place: the wide ones may not, in a 32-bit file.
    fn fits(self, class: Class) -> Result<(), Fault>
        ensures { result ≡ fit_fault (fits (rows class self)) };

    // The entry at the start of a slice that has room for it.
    fn put(self, class: Class, order: Order, d: &mut [u8])
        requires { (Self.size class ≤ length d.old) × Fitting (rows class self) }
        ensures { d.new ≡ write_all order (rows class self) d.old };
}

// A number as wide as the class.
fn put_word(class: Class, order: Order, d: &mut [u8], o: usize, n: u64)
    requires { (o + word class ≤ length d.old) × (n < 256 ^ word class) }
    ensures { d.new ≡ sets d.old o (bytes_of order (word class) n) }
{
    match class {
        Class::Elf32 => (n as u32).put(order, d, o),
        Class::Elf64 => n.put(order, d, o),
    }
}

// Overflow where one of the numbers doesn't fit a field as wide as the class.
#[tactic(auto, unfolding(crate::specs::Rows::fit_fault))]
fn all_fit(class: Class, numbers: &[u64]) -> Result<(), Fault>
    ensures { result ≡ fit_fault (all_fit class numbers.now) }
{
    match class {
        Class::Elf32 if !narrow(numbers) => Err(Fault::Overflow),
        _ => Ok(()),
    }
}

// Whether each number has at most four bytes.
fn narrow(numbers: &[u64]) -> bool
    ensures { result ≡ narrow numbers.now }
{
    numbers.iter().all(|n| u32::try_from(*n).is_ok())
}

// NoRoom where len bytes are too few for the size.
#[tactic(auto, unfolding(crate::specs::Rows::room_fault))]
fn room(size: usize, len: usize) -> Result<(), Fault>
    ensures { result ≡ room_fault size len }
{
    if len < size {
        return Err(Fault::NoRoom);
    }
    Ok(())
}

impl WriteAt for SectionHeader {
    ghost rows = { section_rows };

    fn fits(self, class: Class) -> Result<(), Fault> {
        all_fit(
            class,
            &[
                self.flags,
                self.addr,
                self.offset,
                self.size,
                self.addralign,
                self.entsize,
            ],
        )
    }

    #[tactic(auto, unfolding(crate::specs::Headers::section_rows))]
    fn put(self, class: Class, order: Order, d: &mut [u8]) {
        let w = class.word();
        self.name.put(order, d, 0);
        self.kind.put(order, d, 4);
        put_word(class, order, d, 8, self.flags);
        put_word(class, order, d, 8 + w, self.addr);
        put_word(class, order, d, 8 + 2 * w, self.offset);
        put_word(class, order, d, 8 + 3 * w, self.size);
        self.link.put(order, d, 8 + 4 * w);
        self.info.put(order, d, 12 + 4 * w);
        put_word(class, order, d, 16 + 4 * w, self.addralign);
        put_word(class, order, d, 16 + 5 * w, self.entsize);
    }
}

impl WriteAt for ProgramHeader {
    ghost rows = { segment_rows };

    fn fits(self, class: Class) -> Result<(), Fault> {
        all_fit(
            class,
            &[
                self.offset,
                self.vaddr,
                self.paddr,
                self.filesz,
                self.memsz,
                self.align,
            ],
        )
    }

    // The flags stand second in a 64-bit entry and seventh in a 32-bit one.
    #[tactic(auto, unfolding(crate::specs::Headers::segment_rows))]
    fn put(self, class: Class, order: Order, d: &mut [u8]) {
        let w = class.word();
        self.kind.put(order, d, 0);
        if class == Class::Elf64 {
            self.flags.put(order, d, 4);
        }
        put_word(class, order, d, w, self.offset);
        put_word(class, order, d, 2 * w, self.vaddr);
        put_word(class, order, d, 3 * w, self.paddr);
        put_word(class, order, d, 4 * w, self.filesz);
        put_word(class, order, d, 5 * w, self.memsz);
        if class == Class::Elf32 {
            self.flags.put(order, d, 24);
        }
        put_word(class, order, d, 8 + 5 * w, self.align);
    }
}

#[tactic(auto, using(crate::proofs::Rows::room_left, crate::proofs::Rows::fitting))]
fn write<E: WriteAt>(class: Class, order: Order, h: E, d: &mut [u8]) -> Result<(), Fault>
    ensures fault { result ≡ write_fault (E.size class) (E.rows class h) (length d.old) }
    ensures bytes { d.new ≡ after result (write_all order (E.rows class h) d.old) d.old }
{
    room(E::size_of(class), d.len())?;
    h.fits(class)?;
    h.put(class, order, d);
    Ok(())
}

fn put_ident(class: Class, h: FileHeader, d: &mut [u8])
    requires { 16 ≤ length d.old }
    ensures { d.new ≡ sets d.old 0 (ident_bytes class h) }
{
    let class = u8::from(class);
    let order = u8::from(h.order);
    d[..16].copy_from_slice(&[
        0x7f,
        b'E',
        b'L',
        b'F',
        class,
        order,
        1,
        h.osabi,
        h.abiversion,
        0,
        0,
        0,
        0,
        0,
        0,
        0,
    ]);
}

// Overflow where a number of a file header doesn't fit its place.
fn header_fits(h: FileHeader) -> Result<(), Fault>
    ensures { result ≡ fit_fault (fits (header_rows h.class h)) }
{
    all_fit(h.class, &[h.entry, h.phoff, h.shoff])
}

#[tactic(auto, unfolding(crate::specs::Headers::header_bytes, crate::specs::Headers::header_rows))]
fn put_header(class: Class, h: FileHeader, d: &mut [u8])
    requires { (size_of file_header class ≤ length d.old) × Fitting (header_rows class h) }
    ensures { d.new ≡ header_bytes class h d.old }
{
    let w = class.word();
    put_ident(class, h, d);
    h.kind.put(h.order, d, 16);
    h.machine.put(h.order, d, 18);
    h.version.put(h.order, d, 20);
    put_word(class, h.order, d, 24, h.entry);
    put_word(class, h.order, d, 24 + w, h.phoff);
    put_word(class, h.order, d, 24 + 2 * w, h.shoff);
    let last = 24 + 3 * w;
    h.flags.put(h.order, d, last);
    h.ehsize.put(h.order, d, last + 4);
    h.phentsize.put(h.order, d, last + 6);
    h.phnum.put(h.order, d, last + 8);
    h.shentsize.put(h.order, d, last + 10);
    h.shnum.put(h.order, d, last + 12);
    h.shstrndx.put(h.order, d, last + 14);
}

// A file header, in the class and the order that it says itself, at the start of a lent slice. It says its
// class and order itself, so it is not written by `write`, as the two below are.
#[tactic(auto, using(crate::proofs::Rows::room_left, crate::proofs::Rows::fitting, crate::proofs::ReadsBack::header_reads_back))]
pub fn write_file_header(h: FileHeader, d: &mut [u8]) -> Result<(), Fault>
    ensures { WroteHeader h d.old d.new result }
{
    room(file::size_of(h.class), d.len())?;
    header_fits(h)?;
    put_header(h.class, h, d);
    Ok(())
}

// A section header at the start of a lent slice.
#[tactic(auto, using(crate::proofs::Rows::unrefused, crate::proofs::ReadsBack::section_reads_back))]
pub fn write_section_header(
    class: Class,
    order: Order,
    h: SectionHeader,
    d: &mut [u8],
) -> Result<(), Fault>
    ensures { WroteSection class order h d.old d.new result }
{
    write(class, order, h, d)
}

// A program header at the start of a lent slice.
#[tactic(auto, using(crate::proofs::Rows::unrefused, crate::proofs::ReadsBack::segment_reads_back))]
pub fn write_program_header(
    class: Class,
    order: Order,
    h: ProgramHeader,
    d: &mut [u8],
) -> Result<(), Fault>
    ensures { WroteSegment class order h d.old d.new result }
{
    write(class, order, h, d)
}
