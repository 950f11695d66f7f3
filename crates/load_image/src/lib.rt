// Carrying out a load plan in the memory of its window, and loading a file: plan it, then carry it out.
// The memory's byte 0 is the window's first. A table of records is not trusted: each record is tested before a byte is written.
#![tactic(auto)]

ghost use Rattle.std.specs.Prelude.{◌≡◌, ℕ, Bool, ◌*◌, ◌<◌, ◌≤◌, length};
ghost use Rattle.records.specs.Record.{record_at};
ghost use Rattle.records.specs.declared.Record.{Record};
ghost use Rattle.load_rules.specs.Rules.{any_below};
ghost use Rattle.load_image.specs.Carry.{astray, beyond, passes, verdict_of, Fitted, carried, carried_below, CarriedOut};
ghost use Rattle.load_image.specs.Image.{Outcome};
ghost use Rattle.load_image.specs.Pieces.{Neat};

use load_plan::Refusal;
use load_rules::Window;
use records::Record;

// Do a record's pages or its bytes leave the window?
fn is_astray(w: Window, r: Record) -> bool
    ensures { result ≡ astray w r }
{
    !(memory::is_within(w.start, w.len, r.page, r.len)
        && memory::is_within(w.start, w.len, r.at, r.count))
}

// Are a record's bytes not in the file?
fn is_beyond(flen: u64, r: Record) -> bool
    ensures { result ≡ beyond flen r }
{
    !memory::fits(r.from, r.count, flen)
}

// Does the test hold of one of n records? load_plan asks the same of program headers: one function for both would need a
// trait with a reader and its law, which is no plainer.
fn any<P: Fn(Record) -> bool>(t: &[u8], n: usize, test: P) -> bool
    requires callable { P.IsAlwaysCallable test }
    requires room { 48 * n ≤ length t.now }
    ensures { (p : Record → Bool) → ((s : Record) (r : Bool) → P.post test s r → r ≡ p s)
        → result ≡ any_below (passes p t.now) n }
{
    for k in 0..n {
        if test(Record::read(t, k)) {
            return true;
        }
    }
    false
}

// The tests of n records of a table, for a file and a memory of these lengths: the first that holds refuses them.
#[tactic(auto, unfolding(crate::specs::Carry::verdict_of))]
fn test(w: Window, flen: u64, t: &[u8], n: usize, mlen: u64) -> Result<(), Refusal>
    ensures { result ≡ verdict_of w flen t.now n mlen }
{
    if t.len() / Record::SIZE < n {
        return Err(Refusal::ShortTable);
    }
    if mlen != w.len {
        return Err(Refusal::Outside);
    }
    if any(t, n, |r| is_astray(w, r)) {
        return Err(Refusal::Outside);
    }
    if any(t, n, |r| is_beyond(flen, r)) {
        return Err(Refusal::Unfit);
    }
    Ok(())
}

// A file whose plan is carried out in a memory that begins at the address `start`.
#[derive(Clone, Copy)]
struct Source<'a> {
    start: u64,
    file: &'a [u8],
}

impl<'a> Source<'a> {
    // All bytes of a record's pages become 0, then its file bytes are put in place.
    fn carry_plain(&self, r: Record, m: &mut [u8])
        requires { Fitted self.now.start (length m.old) (length self.now.file.now) r }
        ensures { m.new ≡ carried self.now.start self.now.file.now r m.old }
    {
        let a = (r.page - self.start) as usize;
        let b = a + r.len as usize;
        memory::zero(&mut m[a..b]);
        let c = (r.at - self.start) as usize;
        let d = c + r.count as usize;
        let x = r.from as usize;
        let y = x + r.count as usize;
        memory::copy(&mut m[c..d], &self.file[x..y]);
    }

    // The same for a record whose file bytes lie in its pages: only the gaps in front of them and behind them are zeroed,
    // so that no byte is written twice.
    fn carry_within(&self, r: Record, m: &mut [u8])
        requires { Neat self.now.start (length m.old) (length self.now.file.now) r }
        ensures { m.new ≡ carried self.now.start self.now.file.now r m.old }
    {
        let a = (r.page - self.start) as usize;
        let c = (r.at - self.start) as usize;
        memory::zero(&mut m[a..c]);
        let d = c + r.count as usize;
        let x = r.from as usize;
        let y = x + r.count as usize;
        memory::copy(&mut m[c..d], &self.file[x..y]);
        let e = a + r.len as usize;
        memory::zero(&mut m[d..e]);
    }

    // The bytes of a plan's records lie in their pages; a table that is no plan of ours may have others. The sums are of
    // offsets in the memory, so they don't wrap.
    fn carry_one(&self, r: Record, m: &mut [u8])
        requires { Fitted self.now.start (length m.old) (length self.now.file.now) r }
        ensures { m.new ≡ carried self.now.start self.now.file.now r m.old }
    {
        if r.page <= r.at && r.at - self.start + r.count <= r.page - self.start + r.len {
            self.carry_within(r, m);
        } else {
            self.carry_plain(r, m);
        }
    }

    // Of n records of a table.
    fn carry_all(&self, t: &[u8], n: usize, m: &mut [u8])
        requires room { 48 * n ≤ length t.now }
        requires fitted { (k : ℕ) → k < n → Fitted self.now.start (length m.old) (length self.now.file.now) (record_at t.now k) }
        ensures { m.new ≡ carried_below self.now.start self.now.file.now t.now n m.old }
    {
        for k in 0..n {
            self.carry_one(Record::read(t, k), m);
        }
    }
}

// Carries out n records of a table (the number comes from C beside the table), or changes nothing and says why: ShortTable where
// the table has not so many, Outside where the memory is not as long as the window or a record leaves it, Unfit where a record's
// bytes aren't in the file.
pub fn carry_out(f: &[u8], w: Window, t: &[u8], n: usize, m: &mut [u8]) -> Result<(), Refusal>
    ensures { CarriedOut f.now w t.now n m.old m.new result }
{
    test(w, f.len() as u64, t, n, m.len() as u64)?;
    Source {
        start: w.start,
        file: f,
    }
    .carry_all(t, n, m);
    Ok(())
}

// Plans a file and carries the plan out: the records in the table and the file in the memory, or both untouched.
pub fn load(f: &[u8], w: Window, table: &mut [u8], m: &mut [u8]) -> Result<usize, Refusal>
    ensures { Outcome f.now w table.old table.new m.old m.new result }
{
    if m.len() as u64 != w.len {
        return Err(Refusal::Outside);
    }
    let n = load_plan::plan(f, w, table)?;
    carry_out(f, w, table, n, m)?;
    Ok(n)
}
