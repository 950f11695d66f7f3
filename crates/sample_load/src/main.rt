// The sample of document 01, section 8: its plan, the memory after it is carried out over bytes that are all aa hex, and the
// refusals of the sample with one byte or the window changed; besides, a window that ends at 2^64, and a 32-bit file. A refusal must
// leave the table and the memory as they were.
#![tactic(auto)]

ghost use Rattle.std.specs.Prelude.{◌<◌, ◌≤◌};

use load_plan::Refusal;
use load_rules::Window;
use records::Record;
use std::io::Write;
use std::{fmt, io};

// Puts 32 bytes at a place of the file.
fn row(f: &mut [u8; 192], at: usize, r: &[u8; 32])
    requires { at ≤ 160 }
{
    f[at..at + 32].copy_from_slice(r);
}

fn sample() -> [u8; 192] {
    let mut f = [0u8; 192];
    row(
        &mut f,
        0,
        b"\x7f\x45\x4c\x46\x02\x01\x01\x00\x00\x00\x00\x00\x00\x00\x00\x00\x02\x00\x3e\x00\x01\x00\x00\x00\xb0\x00\x40\x00\x00\x00\x00\x00",
    );
    row(
        &mut f,
        32,
        b"\x40\x00\x00\x00\x00\x00\x00\x00\x00\x00\x00\x00\x00\x00\x00\x00\x00\x00\x00\x00\x40\x00\x38\x00\x02\x00\x40\x00\x00\x00\x00\x00",
    );
    row(
        &mut f,
        64,
        b"\x01\x00\x00\x00\x05\x00\x00\x00\x00\x00\x00\x00\x00\x00\x00\x00\x00\x00\x40\x00\x00\x00\x00\x00\x00\x00\x40\x00\x00\x00\x00\x00",
    );
    row(
        &mut f,
        96,
        b"\xb8\x00\x00\x00\x00\x00\x00\x00\xb8\x00\x00\x00\x00\x00\x00\x00\x00\x10\x00\x00\x00\x00\x00\x00\x01\x00\x00\x00\x06\x00\x00\x00",
    );
    row(
        &mut f,
        128,
        b"\xb8\x00\x00\x00\x00\x00\x00\x00\xb8\x10\x40\x00\x00\x00\x00\x00\xb8\x10\x40\x00\x00\x00\x00\x00\x08\x00\x00\x00\x00\x00\x00\x00",
    );
    row(
        &mut f,
        160,
        b"\x18\x00\x00\x00\x00\x00\x00\x00\x00\x10\x00\x00\x00\x00\x00\x00\x31\xff\x6a\x3c\x58\x0f\x05\x90\x64\x61\x74\x61\x2e\x2e\x2e\x0a",
    );
    f
}

// A plan's answer, as it is told.
#[derive(Debug, Drop)]
struct Told(Result<usize, Refusal>);

impl fmt::Display for Told {
    fn fmt<W: fmt::Write>(&self, f: &mut fmt::Formatter<W>) -> fmt::Result {
        match self.0 {
            Ok(n) => write!(f, "planned {n}"),
            Err(refusal) => write!(f, "refused {}", u32::from(refusal)),
        }
    }
}

// The k-th record of a table, in hex.
fn show(rt: &impl Print, t: &[u8; 100], k: usize) -> io::Result<()>
    requires { k < 2 }
{
    let Record {
        page,
        len,
        prot,
        at,
        count,
        from,
    } = Record::read(t, k);
    print!(rt; "pages {page:x} length {len:x} protection {prot:x}")?;
    println!(rt; ", bytes at {at:x} count {count:x} from {from:x}")
}

// How many bytes of s are not b.
fn others(s: &[u8], b: u8) -> usize {
    s.iter().filter(|x| **x != b).count()
}

// What section 8 says of the byte i of the window: file bytes 0 to b8, zero to 10b8, "data...\n", zero.
fn expected(f: &[u8; 192], i: usize) -> u8 {
    match i {
        0..=183 => f[i],
        4280..=4287 => f[i - 4096],
        _ => 0,
    }
}

// How many bytes are not as section 8 says.
fn wrong(f: &[u8; 192], m: &[u8; 8192]) -> usize {
    m.iter()
        .enumerate()
        .filter(|(i, b)| **b != expected(f, *i))
        .count()
}

// A file that is loaded: the answer, the records, how many bytes of the table and the window are not as they should be.
fn loaded(rt: &impl Print, name: &str, f: &[u8; 192], start: u64) -> io::Result<()> {
    let mut table = [238u8; 100];
    let mut m = [170u8; 8192];
    let a = load_image::load(f, Window { start, len: 8192 }, &mut table, &mut m);
    let told = Told(a);
    println!(rt; "{name}: {told}")?;
    show(rt, &table, 0)?;
    show(rt, &table, 1)?;
    let behind = others(&table[96..], 238);
    println!(rt; "bytes of the table behind the records that changed: {behind}")?;
    let bad = wrong(f, &m);
    println!(rt; "bytes of the window that are not as the document says: {bad} of 8192")?;
    print!(rt; "the data: ")?;
    io::writer(rt).write_all(&m[4280..4288])
}

// A file that is refused: the answer, and how many bytes of the table and the memory changed.
fn refused(rt: &impl Print, name: &str, f: &[u8; 192], len: u64, m: &mut [u8]) -> io::Result<()> {
    let mut table = [238u8; 100];
    let w = Window {
        start: 4194304,
        len,
    };
    let a = load_image::load(f, w, &mut table, m);
    let told = Told(a);
    let in_table = others(&table, 238);
    let in_memory = others(m, 170);
    println!(rt; "{name}: {told}, changed in the table {in_table}, in the memory {in_memory}")
}

// The sample with one byte changed.
fn changed(rt: &impl Print, name: &str, at: usize, b: u8) -> io::Result<()>
    requires { at < 192 }
{
    let mut f = sample();
    f[at] = b;
    let mut m = [170u8; 8192];
    refused(rt, name, &f, 8192, &mut m)
}

// The sample in the first of its two pages.
fn narrow(rt: &impl Print) -> io::Result<()> {
    let f = sample();
    let mut m = [170u8; 4096];
    refused(rt, "window 400000 to 401000", &f, 4096, &mut m)
}

// The sample as a file of type 3 with its addresses from 0 on, in the last two pages there are.
fn top(rt: &impl Print) -> io::Result<()> {
    let mut f = sample();
    f[16] = 3;
    f[26] = 0;
    f[82] = 0;
    f[138] = 0;
    loaded(rt, "type 3 in the last two pages", &f, 18446744073709543424)
}

// A 32-bit file, highest byte first, of one segment.
fn big(rt: &impl Print) -> io::Result<()> {
    let f =
        b"\x7fELF\x01\x02\x01\x00\x00\x00\x00\x00\x00\x00\x00\x00\x00\x02\x00\x14\x00\x00\x00\x01\x10\x00\x00\x54\x00\x00\x00\x34\x00\x00\x00\x00\x00\x00\x00\x00\x00\x34\x00\x20\x00\x01\x00\x28\x00\x00\x00\x00\x00\x00\x00\x01\x00\x00\x00\x00\x10\x00\x00\x00\x10\x00\x00\x00\x00\x00\x00\x58\x00\x00\x00\x58\x00\x00\x00\x05\x00\x00\x10\x00\x4e\x80\x00\x20";
    let mut table = [238u8; 100];
    let w = Window {
        start: 268435456,
        len: 4096,
    };
    let a = load_plan::plan(f, w, &mut table);
    let told = Told(a);
    println!(rt; "32-bit, highest byte first: {told}")?;
    show(rt, &table, 0)
}

fn main(rt: HostRuntime) -> io::Result<()> {
    let f = sample();
    loaded(&rt, "window 400000 to 402000", &f, 4194304)?;
    top(&rt)?;
    big(&rt)?;
    narrow(&rt)?;
    changed(&rt, "byte 7c from 06 to 07", 124, 7)?;
    changed(&rt, "byte 98 from 08 to 19", 152, 25)?;
    changed(&rt, "byte 18 from b0 to b8", 24, 184)
}
