// The identification and the header of an ELF file, in both classes and both orders.
// The first test that fails decides the answer; `header_in` is for a caller that has tested the length.
#![tactic(auto)]

ghost use Rattle.std.specs.Prelude.{◌≡◌, ◌+◌, ◌≤◌, length, get_or};
ghost use Rattle.endian.specs.Place.{size_of, file_header};
ghost use Rattle.file.specs.Layout.{header_at, outline_of};
ghost use Rattle.file.specs.Open.{said, ident_of, header_of};

use endian::{Class, Fault, Number, Order};

// What the identification says of a file.
#[derive(Clone, Copy, Debug, PartialEq, Eq)]
pub struct Ident {
    pub class: Class,
    pub order: Order,
}

impl Ident {
    // What two bytes say, the class first.
    pub fn said(class: u8, order: u8) -> Result<Ident, Fault>
        ensures { result ≡ said class order }
    {
        let class = Class::try_from(class)?;
        let order = Order::try_from(order)?;
        Ok(Ident { class, order })
    }
}

#[derive(Clone, Copy, Debug, PartialEq, Eq)]
pub struct FileHeader {
    pub class: Class,
    pub order: Order,
    pub osabi: u8,
    pub abiversion: u8,
    pub kind: u16,
    pub machine: u16,
    pub version: u32,
    pub entry: u64,
    pub phoff: u64,
    pub shoff: u64,
    pub flags: u32,
    pub ehsize: u16,
    pub phentsize: u16,
    pub phnum: u16,
    pub shentsize: u16,
    pub shnum: u16,
    pub shstrndx: u16,
}

// What opening asks of a header: the file's type and entry point, its two tables, and which section holds the names.
#[derive(Clone, Copy, Debug, PartialEq, Eq)]
pub struct Outline {
    pub kind: u16,
    pub entry: u64,
    pub phoff: u64,
    pub shoff: u64,
    pub phentsize: u16,
    pub phnum: u16,
    pub shentsize: u16,
    pub shnum: u16,
    pub shstrndx: u16,
}

pub fn size_of(class: Class) -> usize
    ensures { result ≡ size_of file_header class }
{
    match class {
        Class::Elf32 => 52,
        Class::Elf64 => 64,
    }
}

impl Outline {
    // The places are the ABI's, w being the bytes of a number as wide as the class.
    #[inline(always)]
    #[tactic(auto, unfolding(crate::specs::Layout::header_at))]
    fn read(class: Class, order: Order, d: &[u8]) -> Outline
        requires { size_of file_header class ≤ length d.now }
        ensures { result ≡ outline_of (header_at class order d.now) }
    {
        let w = class.word();
        Outline {
            kind: u16::read(order, d, 16),
            entry: endian::word_in(class, order, d, 24),
            phoff: endian::word_in(class, order, d, 24 + w),
            shoff: endian::word_in(class, order, d, 24 + 2 * w),
            phentsize: u16::read(order, d, 30 + 3 * w),
            phnum: u16::read(order, d, 32 + 3 * w),
            shentsize: u16::read(order, d, 34 + 3 * w),
            shnum: u16::read(order, d, 36 + 3 * w),
            shstrndx: u16::read(order, d, 38 + 3 * w),
        }
    }
}

impl FileHeader {
    #[inline(always)]
    #[tactic(auto, unfolding(crate::specs::Layout::header_at))]
    fn read(class: Class, order: Order, d: &[u8]) -> FileHeader
        requires { size_of file_header class ≤ length d.now }
        ensures { result ≡ header_at class order d.now }
    {
        let w = class.word();
        let x = Outline::read(class, order, d);
        FileHeader {
            class,
            order,
            osabi: d[7],
            abiversion: d[8],
            kind: x.kind,
            machine: u16::read(order, d, 18),
            version: u32::read(order, d, 20),
            entry: x.entry,
            phoff: x.phoff,
            shoff: x.shoff,
            flags: u32::read(order, d, 24 + 3 * w),
            ehsize: u16::read(order, d, 28 + 3 * w),
            phentsize: x.phentsize,
            phnum: x.phnum,
            shentsize: x.shentsize,
            shnum: x.shnum,
            shstrndx: x.shstrndx,
        }
    }
}

// The outline and the header in a class and an order, which are told apart here, once for all fields. A header is no entry at an
// offset, so `parse::entry_in` is not for it; and the two differ in what they read.
pub fn outline_in(class: Class, order: Order, d: &[u8]) -> Outline
    requires { size_of file_header class ≤ length d.now }
    ensures { result ≡ outline_of (header_at class order d.now) }
{
    match (class, order) {
        (Class::Elf32, Order::Little) => Outline::read(Class::Elf32, Order::Little, d),
        (Class::Elf32, Order::Big) => Outline::read(Class::Elf32, Order::Big, d),
        (Class::Elf64, Order::Little) => Outline::read(Class::Elf64, Order::Little, d),
        (Class::Elf64, Order::Big) => Outline::read(Class::Elf64, Order::Big, d),
    }
}

pub fn header_in(class: Class, order: Order, d: &[u8]) -> FileHeader
    requires { size_of file_header class ≤ length d.now }
    ensures { result ≡ header_at class order d.now }
{
    match (class, order) {
        (Class::Elf32, Order::Little) => FileHeader::read(Class::Elf32, Order::Little, d),
        (Class::Elf32, Order::Big) => FileHeader::read(Class::Elf32, Order::Big, d),
        (Class::Elf64, Order::Little) => FileHeader::read(Class::Elf64, Order::Little, d),
        (Class::Elf64, Order::Big) => FileHeader::read(Class::Elf64, Order::Big, d),
    }
}

// The identification: the class and the order, or the fault of the first test that fails.
#[tactic(auto, unfolding(crate::specs::Open::ident_of))]
pub fn identify(d: &[u8]) -> Result<Ident, Fault>
    ensures { result ≡ ident_of d.now }
{
    if d.len() < 16 {
        return Err(Fault::OutsideData);
    }
    if u32::read(Order::Big, d, 0) != 0x7f454c46 {
        return Err(Fault::BadMagic);
    }
    if d[6] != 1 {
        return Err(Fault::BadVersion);
    }
    Ident::said(d[4], d[5])
}

// The header of a file, or the fault of the first test that fails.
#[tactic(auto, unfolding(crate::specs::Open::header_of))]
pub fn header(d: &[u8]) -> Result<FileHeader, Fault>
    ensures { result ≡ header_of d.now }
{
    let i = identify(d)?;
    if d.len() < size_of(i.class) {
        return Err(Fault::OutsideData);
    }
    Ok(header_in(i.class, i.order, d))
}
