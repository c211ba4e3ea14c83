// The attribute BootstrapMethods: its body is checked where it is framed, and the entries that name one of its methods after the file is read.
#![tactic(auto)]

ghost use Rattle.std.specs.Prelude.{ℕ, ◌≡◌, ◌≤◌, take, drop, length};
ghost use Rattle.reads.specs.Answer.{Answer as AnswerOf};
ghost use Rattle.reads.specs.Promise.{Is, answered};
ghost use Rattle.slot.specs.Shown.{shown};
ghost use Rattle.bootstrap.specs.Bootstrap.{is_bootstrap, body_u2, index_at, steps, method_at, bootstrap_body, own_body};
ghost use Rattle.bootstrap.specs.Steps.{Steps};
ghost use Rattle.bootstrap.specs.Indices.{dynamic, bootstrap_indices, none, lesser, joined, gathered, below, judged};

use pool::Kind;
use reads::{Answer, Reason};
use slot::Pool;

const LOADABLE: u32 = pool::INTEGER
    | pool::FLOAT
    | pool::LONG
    | pool::DOUBLE
    | pool::CLASS
    | pool::STRING
    | pool::METHOD_HANDLE
    | pool::METHOD_TYPE;

// The body of a BootstrapMethods: the pool that it names slots of, the attribute's first byte, and the byte after the body.
#[derive(Clone, Copy)]
struct Body<'p, 'f, 't> {
    pool: &'p Pool<'f, 't>,
    at: usize,
    end: usize,
}

// What the class's own attributes say of BootstrapMethods: how many there are, and the least number of methods of one.
#[derive(Clone, Copy)]
struct Found {
    count: u32,
    least: Option<u16>,
}

// Whether slot m holds the sixteen bytes of BootstrapMethods.
#[tactic(auto, unfolding(crate::specs::Bootstrap::is_bootstrap))]
fn is_bootstrap(p: &Pool, m: usize) -> bool
    ensures { result ≡ is_bootstrap (shown p.now) m }
{
    text::is_bootstrap_methods(p.bytes(m))
}

// As many steps through a body as a count says, each from the byte that the one before it reached: the byte after the last.
fn steps<F: Fn(usize) -> Answer<usize>>(step: F, count: u16, start: usize) -> Answer<usize>
    requires { F.IsAlwaysCallable step }
    ensures { (s : ℕ → AnswerOf ℕ) → Steps s (F.post step) → Is answered (steps s count start) result }
{
    let mut i = start;
    for _ in 0..count {
        i = step(i)?;
    }
    Ok(i)
}

impl<'p, 'f, 't> Body<'p, 'f, 't> {
    // The u2 at byte i. Most stand in the file too, and one test tells both.
    #[tactic(auto, unfolding(crate::specs::Bootstrap::body_u2))]
    fn number(&self, i: usize) -> Answer<u16>
        ensures { Is answered (body_u2 (shown self.now.pool.now) self.now.at self.now.end i) result }
    {
        let file = self.pool.file;
        let whole = self.end.min(file.len());
        if i < whole && 1 < whole - i {
            return Ok(u16::from_be_bytes([file[i], file[i + 1]]));
        }
        if self.end < i || self.end - i < 2 {
            return Err(Reason::LeftOver.at(self.at));
        }
        Ok(reads::pair_at(file, i))
    }

    // The index at byte i names a slot of an allowed kind: the byte after it.
    #[tactic(auto, using(crate::proofs::Bodies::body_in), unfolding(crate::specs::Bootstrap::index_at))]
    fn index(&self, allowed: u32, i: usize) -> Answer<usize>
        ensures { Is answered (index_at allowed (shown self.now.pool.now) self.now.at self.now.end i) result }
    {
        let m = self.number(i)?;
        self.pool.check_range(i, m as usize)?;
        self.pool.check_kind(i, allowed, m as usize)?;
        Ok(i + 2)
    }

    // The method at byte i: its handle, the number of its arguments, and these.
    #[tactic(auto, using(crate::proofs::Bodies::body_in), unfolding(crate::specs::Bootstrap::method_at))]
    fn method(&self, i: usize) -> Answer<usize>
        ensures { Is answered (method_at (shown self.now.pool.now) self.now.at self.now.end i) result }
    {
        let j = self.index(pool::METHOD_HANDLE, i)?;
        let count = self.number(j)?;
        steps(|k| self.index(LOADABLE, k), count, j + 2)
    }

    // The body, from byte `start` on, is used up exactly.
    #[tactic(auto, using(crate::proofs::Bodies::body_in), unfolding(crate::specs::Bootstrap::bootstrap_body))]
    fn check(&self, start: usize) -> Answer<()>
        ensures { Is answered (bootstrap_body (shown self.now.pool.now) self.now.at start self.now.end) result }
    {
        let count = self.number(start)?;
        let next = steps(|i| self.method(i), count, start + 2)?;
        if next != self.end {
            return Err(Reason::LeftOver.at(self.at));
        }
        Ok(())
    }
}

// An attribute of the class itself: its body, from byte `start` up to byte `end`, is looked into where it is called BootstrapMethods.
pub fn check_own(p: &Pool, at: usize, name: u16, start: usize, end: usize) -> Answer<()>
    ensures { Is answered (own_body (shown p.now) at name start end) result }
{
    if !is_bootstrap(p, name as usize) {
        return Ok(());
    }
    let body = Body { pool: p, at, end };
    body.check(start)
}

// The least number of methods so far, and that of one BootstrapMethods more.
fn lesser(least: Option<u16>, n: u16) -> u16
    ensures { result ≡ lesser least n }
{
    least.map_or(n, |m| m.min(n))
}

// What was found so far, and one attribute more.
#[tactic(auto, unfolding(crate::specs::Indices::joined))]
fn join(p: &Pool, found: Found, name: u16, body: u32) -> Found
    requires { found.count ≤ 65535 }
    ensures { result ≡ joined (shown p.now) found name body }
{
    if !is_bootstrap(p, name as usize) {
        return found;
    }
    let n = reads::pair_at(p.file, body as usize);
    Found {
        count: found.count + 1,
        least: Some(lesser(found.least, n)),
    }
}

// What attributes say whose names are in these slots, and whose bodies begin there.
fn gather(p: &Pool, titles: &[u16], bodies: &[u32]) -> Found
    requires { length titles.now ≤ 65535 }
    ensures { result ≡ gathered (shown p.now) titles.now bodies.now none }
{
    let mut found = Found {
        count: 0,
        least: None,
    };
    for (name, body) in titles.iter().zip(bodies) {
        found = join(p, found, *name, *body);
    }
    found
}

// Whether a tag is that of an entry that names a method of a BootstrapMethods.
#[tactic(auto, unfolding(crate::specs::Indices::dynamic))]
fn is_dynamic(tag: u8) -> bool
    ensures { result ≡ dynamic tag }
{
    tag == Kind::Dynamic as u8 || tag == Kind::InvokeDynamic as u8
}

// Whether an index is below the least number of methods, if there is one.
fn is_below(i: u16, least: Option<u16>) -> bool
    ensures { result ≡ below i least }
{
    least.is_none_or(|m| i < m)
}

// The index of slot n, where it is a Dynamic or an InvokeDynamic.
#[tactic(auto, unfolding(crate::specs::Indices::judged))]
fn check_index(p: &Pool, found: Found, n: usize) -> Answer<()>
    ensures { Is answered (judged (shown p.now) found n) result }
{
    if !is_dynamic(p.tag(n)) {
        return Ok(());
    }
    if !is_below(p.field(n, 1), found.least) {
        return Err(Reason::NoMethod.at(n));
    }
    if found.count != 1 {
        return Err(Reason::NotOneBootstrap.at(n));
    }
    Ok(())
}

// The cells of a column from record `first` on, count of them, or as many of them as it has.
fn part<T>(column: &[T], first: usize, count: u16) -> &[T]
    ensures { result.now ≡ take count (drop first column.now) }
{
    let rest = &column[first.min(column.len())..];
    &rest[..rest.len().min(count as usize)]
}

// Every Dynamic and InvokeDynamic, by rising slot: its index is below the number of methods of each BootstrapMethods among the class's own
// attributes, and there is exactly one. Those are the records from `first` on, count of them, in the columns of name slots and of body offsets,
// which are two slices as `read_class` is lent them.
pub fn check_indices(
    p: &Pool,
    titles: &[u16],
    bodies: &[u32],
    first: usize,
    count: u16,
) -> Answer<()>
    ensures { Is answered (bootstrap_indices (shown p.now) (take count (drop first titles.now)) (take count (drop first bodies.now))) result }
{
    let found = gather(p, part(titles, first, count), part(bodies, first, count));
    for n in 0..p.count() {
        check_index(p, found, n)?;
    }
    Ok(())
}
