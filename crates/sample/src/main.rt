// Reads a file from standard input and prints its header and its program headers, all numbers hexadecimal; then writes the header
// and the first program header out and reads them again; then prints the refusals of damaged identifications.
// Assumes what std says of reading and writing, and nothing else. A read or a write that fails ends the program with that error.
#![tactic(auto)]

ghost use Rattle.std.specs.Prelude.{◌≤◌, IfOk};

use endian::{Class, Fault, Order};
use file::FileHeader;
use segment::ProgramHeader;
use std::io::Read;
use std::{fmt, io};

// What is printed of an answer: a field on each line.
#[derive(Clone, Copy)]
struct Listing<T>(T);

impl fmt::Display for Listing<Class> {
    fn fmt<W: fmt::Write>(&self, f: &mut fmt::Formatter<W>) -> fmt::Result {
        f.write_str(match self.0 {
            Class::Elf32 => "32-bit",
            Class::Elf64 => "64-bit",
        })
    }
}

impl fmt::Display for Listing<Order> {
    fn fmt<W: fmt::Write>(&self, f: &mut fmt::Formatter<W>) -> fmt::Result {
        f.write_str(match self.0 {
            Order::Little => "lowest byte first",
            Order::Big => "highest byte first",
        })
    }
}

impl fmt::Display for Listing<FileHeader> {
    fn fmt<W: fmt::Write>(&self, f: &mut fmt::Formatter<W>) -> fmt::Result {
        let h = self.0;
        writeln!(f, "{}, {}", Listing(h.class), Listing(h.order))?;
        writeln!(f, "osabi {:x}\nabiversion {:x}", h.osabi, h.abiversion)?;
        writeln!(
            f,
            "type {:x}\nmachine {:x}\nversion {:x}",
            h.kind, h.machine, h.version
        )?;
        writeln!(
            f,
            "entry {:x}\nphoff {:x}\nshoff {:x}",
            h.entry, h.phoff, h.shoff
        )?;
        writeln!(f, "flags {:x}\nehsize {:x}", h.flags, h.ehsize)?;
        writeln!(f, "phentsize {:x}\nphnum {:x}", h.phentsize, h.phnum)?;
        writeln!(f, "shentsize {:x}\nshnum {:x}", h.shentsize, h.shnum)?;
        write!(f, "shstrndx {:x}", h.shstrndx)
    }
}

impl fmt::Display for Listing<ProgramHeader> {
    fn fmt<W: fmt::Write>(&self, f: &mut fmt::Formatter<W>) -> fmt::Result {
        let h = self.0;
        writeln!(
            f,
            "segment type {:x}\nflags {:x}\noffset {:x}",
            h.kind, h.flags, h.offset
        )?;
        writeln!(f, "vaddr {:x}\npaddr {:x}", h.vaddr, h.paddr)?;
        write!(
            f,
            "filesz {:x}\nmemsz {:x}\nalign {:x}",
            h.filesz, h.memsz, h.align
        )
    }
}

// The value of an answer, or the number of its refusal.
impl<T: Copy> fmt::Display for Listing<Result<T, Fault>>
where
    Listing<T>: fmt::Display,
{
    fn fmt<W: fmt::Write>(&self, f: &mut fmt::Formatter<W>) -> fmt::Result {
        match self.0 {
            Ok(x) => write!(f, "{}", Listing(x)),
            Err(fault) => write!(f, "refused {:x}", u32::from(fault)),
        }
    }
}

fn print_written(rt: &impl Print, answer: Result<(), Fault>) -> io::Result<()> {
    println!(rt; "written {:x}", answer.err().map_or(0, u32::from))
}

// The header into a slice that is a byte too short for it.
fn header_short(rt: &impl Print, h: FileHeader) -> io::Result<()> {
    let mut out = [0u8; 63];
    print_written(rt, written::write_file_header(h, &mut out))
}

// The header written out and read again.
fn header_again(rt: &impl Print, h: FileHeader) -> io::Result<()> {
    let mut out = [0u8; 64];
    print_written(rt, written::write_file_header(h, &mut out))?;
    println!(rt; "{}", Listing(file::header(&out)))
}

// The program header written out as a 32-bit entry, highest byte first, and read again.
fn segment_again(rt: &impl Print, h: ProgramHeader) -> io::Result<()> {
    let mut out = [0u8; 32];
    print_written(
        rt,
        written::write_program_header(Class::Elf32, Order::Big, h, &mut out),
    )?;
    println!(rt;
        "{}",
        Listing(parse::entry::<ProgramHeader>(Class::Elf32, Order::Big, &out, 0))
    )
}

// The entries of a table of program headers, one that it doesn't have too; then the second once more.
fn print_table(rt: &impl Print, class: Class, order: Order, t: &[u8]) -> io::Result<()> {
    for i in [0, 1, 2, 3, usize::MAX] {
        println!(rt;
            "{}",
            Listing(parse::entry::<ProgramHeader>(class, order, t, i))
        )?;
    }
    match parse::entry(class, order, t, 1) {
        Ok(h) => segment_again(rt, h),
        Err(f) => println!(rt; "refused {:x}", u32::from(f)),
    }
}

fn print_file(rt: &impl Print, d: &[u8]) -> io::Result<()> {
    let answer = file::header(d);
    println!(rt; "{}", Listing(answer))?;
    if let Ok(h) = answer {
        if let Some(t) = d.get(64..176) {
            print_table(rt, h.class, h.order, t)?;
        }
        header_short(rt, h)?;
        header_again(rt, h)?;
    }
    Ok(())
}

// An identification with some bytes of one's own.
fn damaged(rt: &impl Print, b3: u8, class: u8, order: u8, version: u8) -> io::Result<()> {
    let d = [
        0x7f, b'E', b'L', b3, class, order, version, 0, 0, 0, 0, 0, 0, 0, 0, 0,
    ];
    print_file(rt, &d)
}

// The first bytes of the standard input, as many as there are and as the buffer holds: how many.
fn read_start(rt: &impl Input, buffer: &mut [u8; 4096]) -> io::Result<usize>
    ensures { IfOk result (λ n. n ≤ 4096) }
{
    let mut reader = rt.reader();
    let mut done = 0;
    // A read takes any number of bytes, and std's read_exact would refuse a shorter input.
    while done < 4096 {
        let n = reader.read(&mut buffer[done..])?;
        if n == 0 {
            break;
        }
        done += n;
    }
    Ok(done)
}

fn main(rt: HostRuntime) -> io::Result<()> {
    let mut buffer = [0u8; 4096];
    let n = read_start(&rt, &mut buffer)?;
    print_file(&rt, &buffer[..n])?;
    print_file(&rt, b"")?;
    damaged(&rt, b'F', 2, 1, 1)?;
    damaged(&rt, b'F', 2, 3, 1)?;
    damaged(&rt, b'F', 3, 3, 1)?;
    damaged(&rt, b'F', 3, 3, 0)?;
    damaged(&rt, b'E', 3, 3, 0)
}
