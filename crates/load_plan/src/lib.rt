// The load plan of a file: its refusal, or the records of its segments in a lent table.
// The file is opened once; then each test walks the program headers, so that the smallest number that applies decides,
// and a file that is refused leaves the table as it was.
#![tactic(auto)]

mod refusal;

ghost use Rattle.std.specs.Prelude.{◌≡◌, Bool, true, false, ◌+◌, ◌*◌, ◌<◌, ◌≤◌, ltb, length, Ok, Err, MatchResult};
ghost use Rattle.load_rules.specs.Rules.{any_below, outside, good_window, low};
ghost use Rattle.load_rules.specs.declared.Window.{Window};
ghost use Rattle.segment.specs.declared.ProgramHeader.{ProgramHeader};
ghost use Rattle.load_plan.specs.Plan.{begun_of, seg_at, some, clash_at, plan_in, verdict_of, Made};
ghost use Rattle.load_plan.specs.Facts.{Held, Accepted, Filled, count_below};

use endian::{Class, Order};
use load_rules::{View, Window};
use parse::ParseAt;
use records::Record;
pub use refusal::Refusal;
use segment::ProgramHeader;

// The longest file: 1 GiB.
const MAX_FILE: usize = 1 << 30;

// What the plan asks of an opened file: its type and entry point, and where its program headers stand, which an `Elf` may not have.
#[derive(Clone, Copy, Debug, PartialEq, Eq)]
pub struct Job {
    pub class: Class,
    pub order: Order,
    pub kind: u16,
    pub entry: u64,
    pub from: usize,
    pub count: usize,
}

// A file that is begun: it is not too long, and its program headers lie in it.
#[derive(Clone, Copy)]
pub struct Begun<'a> {
    pub file: &'a [u8],
    pub job: Job,
    ghost held: { Held file.now job },
}

impl<'a> Begun<'a> {
    // Opens a file that is not too long. No segments, or a table of 0, is refused.
    #[tactic(auto, unfolding(crate::specs::Plan::begun_of), using(crate::proofs::Opening::tabled))]
    pub fn open(file: &'a [u8]) -> Result<Begun<'a>, Refusal>
        ensures { MatchResult result
            (λ b. (b.file.now ≡ file.now) × (begun_of file.now ≡ Ok b.job))
            (λ r. begun_of file.now ≡ Err r) }
    {
        if file.len() > MAX_FILE {
            return Err(Refusal::TooLong);
        }
        let elf = elf_bytes::open(file)?;
        let table = elf.segments.ok_or(Refusal::NoSegments)?;
        let count = parse::count(ProgramHeader::size_of(elf.class), table.to - table.from);
        if count == 0 {
            return Err(Refusal::NoSegments);
        }
        let job = Job {
            class: elf.class,
            order: elf.order,
            kind: elf.kind,
            entry: elf.entry,
            from: table.from,
            count,
        };
        Ok(Begun { file, job })
    }

    // The k-th program header.
    #[tactic(auto, unfolding(crate::specs::Plan::seg_at), using(crate::proofs::Opening::seg_in))]
    pub fn header(&self, k: usize) -> ProgramHeader
        requires { k < self.now.job.count }
        ensures { result ≡ seg_at self.now.file.now self.now.job k }
    {
        let Job {
            class,
            order,
            from,
            ..
        } = self.job;
        parse::entry_in(
            class,
            order,
            self.file,
            from + k * ProgramHeader::size_of(class),
        )
    }

    // Does the test hold of a segment? `(0..n).any(..)` would need clauses at its closure, and be no plainer.
    fn any<P: Fn(ProgramHeader) -> bool>(&self, test: P) -> bool
        requires { P.IsAlwaysCallable test }
        ensures { (p : ProgramHeader → Bool) → ((s : ProgramHeader) (r : Bool) → P.post test s r → r ≡ p s)
            → result ≡ some self.now.file.now self.now.job p }
    {
        for k in 0..self.job.count {
            if test(self.header(k)) {
                return true;
            }
        }
        false
    }

    // The number of segments that are loaded. `(0..n).filter(..).count()` would need clauses at its closure, as `any` would.
    #[tactic(auto, unfolding(crate::specs::Facts::count_below), using(crate::proofs::Order::count_real, crate::proofs::Order::count_skip))]
    fn count(&self) -> usize
        ensures { result ≡ count_below (seg_at self.now.file.now self.now.job) self.now.job.count }
    {
        let mut n = 0;
        for k in 0..self.job.count {
            if load_rules::is_real(self.header(k)) {
                n += 1;
            }
        }
        n
    }

    // Has a table of so many bytes no room for the records? They are as many in every window.
    #[tactic(auto, using(crate::proofs::Table::short_table))]
    fn is_short(&self, room: usize) -> bool
        ensures { (w : Window) → result ≡ ltb room (48 * length (plan_in self.now.file.now w self.now.job)) }
    {
        room / Record::SIZE < self.count()
    }

    // Does a segment clash with one before it? In one pass: its pages start before the end of those before it.
    fn is_out_of_order(&self, view: View) -> bool
        requires window { good_window view.window ≡ true }
        requires low { view.low ≡ low self.now.job.kind view.window }
        requires inside { some self.now.file.now self.now.job (outside view.low view.window.len) ≡ false }
        ensures { result ≡ any_below (clash_at (seg_at self.now.file.now self.now.job)) self.now.job.count }
    {
        let mut end = 0;
        for k in 0..self.job.count {
            let s = self.header(k);
            if load_rules::is_real(s) {
                if view.first_page(s) < end {
                    return true;
                }
                end = view.last_page(s);
            }
        }
        false
    }

    // The tests in their order: the first that holds refuses the file.
    #[tactic(auto, unfolding(crate::specs::Plan::verdict_of, crate::specs::Plan::tests))]
    fn test(&self, w: Window, room: usize) -> Result<(), Refusal>
        ensures { result ≡ verdict_of self.now.file.now self.now.job w room }
    {
        let Job { kind, entry, .. } = self.job;
        let len = self.file.len() as u64;
        let view = w.view(kind);
        if kind != 2 && kind != 3 {
            return Err(Refusal::OtherKind);
        }
        if self.any(|s| load_rules::is_unfit(len, s)) {
            return Err(Refusal::Unfit);
        }
        if self.any(load_rules::is_skewed) {
            return Err(Refusal::Skewed);
        }
        if !w.is_good() {
            return Err(Refusal::Outside);
        }
        if self.any(|s| view.is_outside(s)) {
            return Err(Refusal::Outside);
        }
        if self.is_out_of_order(view) {
            return Err(Refusal::Clash);
        }
        if self.any(load_rules::is_write_exec) {
            return Err(Refusal::WriteExec);
        }
        if !self.any(|s| load_rules::has_entry(entry, s)) {
            return Err(Refusal::NoEntry);
        }
        if self.is_short(room) {
            return Err(Refusal::ShortTable);
        }
        Ok(())
    }

    // Writes the records of an accepted file into the table that C lends, and returns how many they are.
    fn fill(&self, w: Window, table: &mut [u8]) -> usize
        requires { Accepted self.now.file.now self.now.job w (length table.old) }
        ensures { Filled (plan_in self.now.file.now w self.now.job) table.old table.new result }
    {
        let view = w.view(self.job.kind);
        let mut n = 0;
        for k in 0..self.job.count {
            let s = self.header(k);
            if load_rules::is_real(s) {
                view.record_of(s).put(table, Record::SIZE * n);
                n += 1;
            }
        }
        n
    }
}

// The plan of a file: its records in the table, or the refusal, and the table untouched.
pub fn plan(file: &[u8], w: Window, table: &mut [u8]) -> Result<usize, Refusal>
    ensures { Made file.now w table.old table.new result }
{
    let begun = Begun::open(file)?;
    begun.test(w, table.len())?;
    Ok(begun.fill(w, table))
}
