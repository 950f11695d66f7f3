// Strings of a string table: where one ends, whether one stands at an offset, its bytes as a range, as UTF-8, and whether it is a
// given name.
// Where many strings of one table are asked for, `Strings` finds its last zero byte once: then `fault` tells in one step whether a
// string stands at an offset, and `same_at` compares it with a name without a search for its end, eight bytes at a time. Where one
// offset may be asked about again and again, `same_noted` compares a name that is longer than a span in full only once with each
// string.
#![tactic(auto)]

ghost use Rattle.std.specs.Prelude.{◌≡◌, true, false, ◌+◌, ◌≤◌, length, drop, Ok};
ghost use Rattle.endian.specs.Range.{answer};
ghost use Rattle.string_table.specs.Text.{end_of, last_zero, ends_of, text_fault, text_at, text_range, same_bytes, same_run, is_clean};
ghost use Rattle.string_table.specs.Names.{bytes_of};
ghost use Rattle.string_table.specs.Noted.{is_long, span_of, Notes, noted};
ghost use Rattle.string_table.specs.Utf8.{row_of, pending, awaited, step_of, well_formed, utf8_fault};

mod name;

use endian::{Fault, Number, Order};
pub use name::{CleanName, UncleanName};
use parse::Range;

// Where the first zero byte at or behind o stands. `position` in the part from o on counts from there, and has to be counted back.
#[tactic(auto, using(parse::proofs::Laws::first_here, parse::proofs::Laws::first_later, parse::proofs::Laws::first_none, std::proofs::lemmas::Bool::Decides::nat_tests), unfolding(crate::specs::Text::end_of))]
pub fn end_of(t: &[u8], o: usize) -> Option<usize>
    ensures { result ≡ end_of t.now o }
{
    for i in o..t.len() {
        if t[i] == 0 {
            return Some(i);
        }
    }
    None
}

// Where the last zero byte of a table stands. A table ends with one as a rule, so this looks from the end.
pub fn last_zero(t: &[u8]) -> Option<usize>
    ensures { result ≡ last_zero t.now }
{
    t.iter().rposition(|b| *b == 0)
}

// The string at o, as a range of the table, else the fault of the first test that fails.
#[tactic(auto, unfolding(crate::specs::Text::text_fault, crate::specs::Text::text_range))]
pub fn text(t: &[u8], o: usize) -> Result<Range, Fault>
    ensures { result ≡ answer (text_fault t.now o) (text_range t.now o) }
{
    if t.is_empty() || t.len() < o {
        return Err(Fault::BadOffset);
    }
    let to = end_of(t, o).ok_or(Fault::NoZeroByte)?;
    Ok(Range { from: o, to })
}

// Whether a string stands at o.
pub fn text_fault(t: &[u8], o: usize) -> Result<(), Fault>
    ensures { result ≡ text_fault t.now o }
{
    text(t, o)?;
    Ok(())
}

// Whether no byte of a name is zero. A string of a table holds none, so a name that does is never one of its strings.
pub fn is_clean(name: &[u8]) -> bool
    ensures { result ≡ is_clean name.now }
{
    // Every byte is looked at, and no branch depends on one: that takes many bytes at a time.
    name.iter().fold(true, |clean, b| clean & (*b != 0))
}

// A string stands at each offset below `ends`, the place behind the last zero byte, and at no other.
#[derive(Clone, Copy)]
pub struct Strings<'a> {
    pub bytes: &'a [u8],
    pub ends: usize,
    pub ghost known: { ends ≡ ends_of bytes.now },
}

impl<'a> CleanName<'a> {
    #[tactic(auto, unfolding(crate::specs::Names::bytes_of))]
    pub fn new(bytes: &'a [u8]) -> Result<CleanName<'a>, UncleanName<'a>>
        ensures { bytes_of result ≡ bytes.now }
    {
        if is_clean(bytes) {
            return Ok(CleanName { bytes });
        }
        Err(UncleanName { bytes })
    }

    // What stands behind the first k bytes.
    #[tactic(auto, using(crate::proofs::Laws::behind_clean, crate::proofs::Notes::rest))]
    fn behind(&self, k: usize) -> CleanName<'a>
        requires { k ≤ length self.now.bytes.now }
        ensures { result.bytes.now ≡ drop k self.now.bytes.now }
    {
        CleanName {
            bytes: &self.bytes[k..],
        }
    }
}

impl<'a> Strings<'a> {
    #[tactic(auto, using(crate::proofs::Laws::last_inside))]
    pub fn new(bytes: &'a [u8]) -> Strings<'a>
        ensures { result.bytes.now ≡ bytes.now }
    {
        let ends = match last_zero(bytes) {
            Some(last) => last + 1,
            None => 0,
        };
        Strings { bytes, ends }
    }

    // Whether a string stands at o.
    #[tactic(auto, using(crate::proofs::Laws::stands_below, crate::proofs::Laws::none_behind, std::proofs::lemmas::Bool::Decides::nat_tests))]
    pub fn fault(&self, o: usize) -> Result<(), Fault>
        ensures { result ≡ text_fault self.now.bytes.now o }
    {
        if o < self.ends {
            return Ok(());
        }
        if self.bytes.is_empty() || self.bytes.len() < o {
            return Err(Fault::BadOffset);
        }
        Err(Fault::NoZeroByte)
    }

    // Whether the string at o is the name.
    // The end is not searched for: the string can only be the name if a zero byte stands n bytes behind o. From there the comparison
    // goes backwards. The name holds no zero byte, so agreement ends at the zero byte before at the latest. Two offsets never share
    // the place n bytes behind them, so all comparisons of one name with distinct offsets take together at most as many turns as the
    // table has bytes.
    #[tactic(auto, using(crate::proofs::Laws::ends_inside, crate::proofs::Laws::there_below, crate::proofs::Laws::at_outside, crate::proofs::Laws::at_unended, crate::proofs::Laws::at_run))]
    pub fn same_at(&self, o: usize, name: &CleanName) -> bool
        requires { text_fault self.now.bytes.now o ≡ Ok tt }
        ensures { result ≡ same_bytes (text_at self.now.bytes.now o) name.now.bytes.now }
    {
        let n = name.bytes.len();
        if self.ends - o <= n || self.bytes[o + n] != 0 {
            return false;
        }
        same_run(self.bytes, o, name.bytes)
    }

    // How many offsets one mark stands for: as many as it takes to mark all offsets of the table with 1,024 bytes of marks.
    fn span(&self) -> usize
        ensures { result ≡ span_of (length self.now.bytes.now) }
    {
        self.bytes.len() / 8192 + 1
    }

    // The same of a long name, where one offset may come many times. A mark stands for a span of offsets. If it is set, the string is
    // not the name at those of them where the name's last bytes, as many as a span has, stand before a zero byte. There is at most one
    // such offset to a mark: the name holds no zero byte, so two of them are more than a span apart. So a comparison reads no more than
    // a span's bytes of the name, but for one at each offset that reads the rest of it.
    pub fn same_noted(&self, o: usize, name: &CleanName, marks: &mut [u8]) -> bool
        requires there { text_fault self.now.bytes.now o ≡ Ok tt }
        requires noted_before { Notes self.now.bytes.now name.now.bytes.now marks.old }
        ensures answer { result ≡ same_bytes (text_at self.now.bytes.now o) name.now.bytes.now }
        ensures noted_after { marks.new ≡ noted self.now.bytes.now name.now.bytes.now o marks.old }
    {
        let span = self.span();
        let n = name.bytes.len();
        if n <= span {
            return self.same_at(o, name);
        }
        if self.ends - o <= n {
            return false;
        }
        let front = n - span;
        if !self.same_at(o + front, &name.behind(front)) {
            return false;
        }
        let i = o / span;
        if marks::is_marked(marks, i) {
            return false;
        }
        if same_run(self.bytes, o, &name.bytes[..front]) {
            return true;
        }
        marks::mark(marks, i);
        false
    }

    // Whether the string at o is the name. An offset where no string stands is refused.
    #[tactic(auto, using(crate::proofs::Laws::unclean_other), unfolding(crate::specs::Names::bytes_of))]
    pub fn compare(&self, o: usize, name: &Result<CleanName, UncleanName>) -> Result<bool, Fault>
        ensures { result ≡ answer (text_fault self.now.bytes.now o) (same_bytes (text_at self.now.bytes.now o) (bytes_of name.now)) }
    {
        self.fault(o)?;
        match name {
            Ok(clean) => Ok(self.same_at(o, clean)),
            Err(_) => Ok(false),
        }
    }
}

// Whether the bytes of a name stand at o, a byte at a time, from the end backwards: equality of slices would begin at the front.
fn same_short(t: &[u8], o: usize, name: &[u8]) -> bool
    requires { o + length name.now ≤ length t.now }
    ensures { result ≡ same_run t.now o name.now }
{
    for k in (0..name.len()).rev() {
        if t[o + k] != name[k] {
            return false;
        }
    }
    true
}

// The same of a name of at least eight bytes, eight at a time. What is left at the front is compared as the first eight bytes,
// some of which may have been compared before.
fn same_words(t: &[u8], o: usize, name: &[u8]) -> bool
    requires eight { 8 ≤ length name.now }
    requires room { o + length name.now ≤ length t.now }
    ensures { result ≡ same_run t.now o name.now }
{
    // By hand, since no iterator says it plainer: `(1..name.len() - 7).rev().step_by(8)`.
    let mut k = name.len();
    while k > 8 {
        k -= 8;
        if u64::read(Order::Little, t, o + k) != u64::read(Order::Little, name, k) {
            return false;
        }
    }
    u64::read(Order::Little, t, o) == u64::read(Order::Little, name, 0)
}

// Whether the bytes of a name stand at o.
fn same_run(t: &[u8], o: usize, name: &[u8]) -> bool
    requires { o + length name.now ≤ length t.now }
    ensures { result ≡ same_run t.now o name.now }
{
    if name.len() < 8 {
        return same_short(t, o, name);
    }
    same_words(t, o, name)
}

// Whether a name is so long that it is worth noting which strings are not the name: a shorter one is compared in 32 turns at most.
pub fn is_long(name: &[u8]) -> bool
    ensures { result ≡ is_long name.now }
{
    name.len() >= 256
}

// The bytes of a sequence that are still to come: how many, and from where to where the next one may be. Where none may follow that
// is an empty stretch and no Option, so that a byte costs no test more.
#[derive(Clone, Copy, Debug, PartialEq, Eq)]
struct Awaited {
    more: u8,
    low: u8,
    high: u8,
}

#[tactic(auto, unfolding(crate::specs::Utf8::awaited))]
fn awaits(more: u8, low: u8, high: u8) -> Awaited
    ensures { awaited result ≡ pending more low high }
{
    Awaited { more, low, high }
}

// What must follow a byte that starts a sequence. A byte that starts none is followed by a byte that does not exist.
#[tactic(auto, unfolding(crate::specs::Utf8::row_of), using(std::proofs::lemmas::Bool::Decides::nat_tests))]
fn start(b: u8) -> Awaited
    ensures { awaited result ≡ row_of b }
{
    match b {
        0x00..=0x7f => awaits(0, 0, 0),
        0xc2..=0xdf => awaits(1, 0x80, 0xbf),
        0xe0 => awaits(2, 0xa0, 0xbf),
        0xe1..=0xec => awaits(2, 0x80, 0xbf),
        0xed => awaits(2, 0x80, 0x9f),
        0xee..=0xef => awaits(2, 0x80, 0xbf),
        0xf0 => awaits(3, 0x90, 0xbf),
        0xf1..=0xf3 => awaits(3, 0x80, 0xbf),
        0xf4 => awaits(3, 0x80, 0x8f),
        _ => awaits(1, 1, 0),
    }
}

// What must follow a byte, when `a` was awaited. Most bytes are ASCII and follow such: then nothing changes, which is told first.
#[tactic(auto, unfolding(crate::specs::Utf8::step_of), using(std::proofs::lemmas::Bool::Decides::nat_tests, crate::proofs::Sequences::ascii_kept, crate::proofs::Sequences::awaited_none, crate::proofs::Sequences::awaited_some))]
fn next(a: Awaited, b: u8) -> Awaited
    ensures { awaited result ≡ step_of (awaited a) b }
{
    if a.more == 0 && b <= 0x7f {
        a
    } else if a.more == 0 {
        start(b)
    } else if (a.low <= b) & (b <= a.high) {
        awaits(a.more - 1, 0x80, 0xbf)
    } else {
        awaits(1, 1, 0)
    }
}

// Whether the bytes are well-formed UTF-8, as the document's table has it: that table is the definition, so it is what is followed.
pub fn is_utf8(s: &[u8]) -> bool
    ensures { result ≡ well_formed s.now }
{
    s.iter().fold(awaits(0, 0, 0), |a, b| next(a, *b)).more == 0
}

// The string at o, as a range of the table, if it is UTF-8.
#[tactic(auto, unfolding(crate::specs::Utf8::utf8_fault), using(crate::proofs::Laws::text_told))]
pub fn utf8(t: &[u8], o: usize) -> Result<Range, Fault>
    ensures { result ≡ answer (utf8_fault t.now o) (text_range t.now o) }
{
    let r = text(t, o)?;
    if is_utf8(r.part(t)) {
        return Ok(r);
    }
    Err(Fault::NotUtf8)
}
