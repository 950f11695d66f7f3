// The rules of the load plan for one segment and one window: the tests 22, 23, 24, 26 and 27, where a segment's pages lie,
// its record.
// No sum wraps: addresses are compared as they stand, or as distances.
#![tactic(auto)]

ghost use Rattle.std.specs.Prelude.{◌≡◌, ◌+◌, ◌-◌, ◌^◌, ◌≤◌};
ghost use Rattle.load_rules.specs.Rules.{unfit, skewed, real, outside, write_exec, holds_entry, low, good_window};
ghost use Rattle.load_rules.specs.Rules.{down, up, record_of};
ghost use Rattle.load_rules.specs.Facts.{Placed};

use records::Record;
use segment::ProgramHeader;

const PAGE: u64 = 4096;

// The longest window: 4 GiB.
const MAX_WINDOW: u64 = 1 << 32;

// Where a file may be loaded: start and length, in bytes.
#[derive(Clone, Copy, Debug, PartialEq, Eq)]
pub struct Window {
    pub start: u64,
    pub len: u64,
}

// A window as the addresses of a file count it: there it starts at `low`.
#[derive(Clone, Copy, Debug, PartialEq, Eq)]
pub struct View {
    pub window: Window,
    pub low: u64,
}

impl Window {
    // The last address of a window that ends at 2^64 is the last there is.
    #[tactic(auto, unfolding(crate::specs::Rules::good_window))]
    pub fn is_good(self) -> bool
        ensures { result ≡ good_window self }
    {
        self.start.is_multiple_of(PAGE)
            && self.len.is_multiple_of(PAGE)
            && self.len <= MAX_WINDOW
            && self.start.checked_add(self.len.saturating_sub(1)).is_some()
    }

    // A file of type 3 counts from the window's start.
    pub fn view(self, kind: u16) -> View
        ensures { result ≡ record { window = self; low = low kind self } }
    {
        View {
            window: self,
            low: if kind == 3 { 0 } else { self.start },
        }
    }
}

impl View {
    // 24.
    pub fn is_outside(self, s: ProgramHeader) -> bool
        ensures { result ≡ outside self.low self.window.len s }
    {
        is_real(s) && !memory::is_within(self.low, self.window.len, s.vaddr, s.memsz)
    }

    // Where a segment's pages start and end, counted from the window's start.
    pub fn first_page(self, s: ProgramHeader) -> u64
        requires { self.low ≤ s.vaddr }
        ensures { result ≡ down (s.vaddr - self.low) }
    {
        (s.vaddr - self.low) / PAGE * PAGE
    }

    pub fn last_page(self, s: ProgramHeader) -> u64
        requires { (self.low ≤ s.vaddr) × (s.vaddr - self.low + s.memsz ≤ 2 ^ 48) }
        ensures { result ≡ up (s.vaddr - self.low + s.memsz) }
    {
        (s.vaddr - self.low + s.memsz).next_multiple_of(PAGE)
    }

    // The record of a segment that lies in the window.
    #[tactic(auto, using(crate::proofs::Pages::record_eq))]
    pub fn record_of(self, s: ProgramHeader) -> Record
        requires { Placed self.low self.window s }
        ensures { result ≡ record_of self.window.start self.low s }
    {
        let first = self.first_page(s);
        let last = self.last_page(s);
        Record {
            page: self.window.start + first,
            len: last - first,
            prot: u64::from(s.flags % 8),
            at: self.window.start + (s.vaddr - self.low),
            count: s.filesz,
            from: s.offset,
        }
    }
}

// 22, for a file of len bytes.
pub fn is_unfit(len: u64, s: ProgramHeader) -> bool
    ensures { result ≡ unfit len s }
{
    s.kind == 1 && !(s.filesz <= s.memsz && memory::fits(s.offset, s.filesz, len))
}

// 23: an alignment of 0 asks for nothing.
#[tactic(auto, unfolding(crate::specs::Rules::power2), using(crate::proofs::Power::one_bit))]
pub fn is_skewed(s: ProgramHeader) -> bool
    ensures { result ≡ skewed s }
{
    s.kind == 1
        && s.align != 0
        && !(s.align.is_power_of_two() && s.vaddr % s.align == s.offset % s.align)
}

// Whether a segment counts behind test 23.
pub fn is_real(s: ProgramHeader) -> bool
    ensures { result ≡ real s }
{
    s.kind == 1 && s.memsz != 0
}

// 26.
pub fn is_write_exec(s: ProgramHeader) -> bool
    ensures { result ≡ write_exec s }
{
    is_real(s) && s.flags % 2 == 1 && s.flags / 2 % 2 == 1
}

// 27 is that this holds of no segment.
pub fn has_entry(e: u64, s: ProgramHeader) -> bool
    ensures { result ≡ holds_entry e s }
{
    is_real(s) && s.flags % 2 == 1 && e.checked_sub(s.vaddr).is_some_and(|at| at < s.memsz)
}
