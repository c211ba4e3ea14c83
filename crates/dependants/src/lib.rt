// The dependants of a slot: every slot that reaches it along one or more references, into a lent list.
#![tactic(auto)]

ghost use Rattle.std.specs.Prelude.{◌≡◌, ◌||◌, ◌≤◌, eqb, length, set, take};
ghost use Rattle.reads.specs.Answer.{mapped};
ghost use Rattle.reads.specs.Promise.{Is, answered, Accepted};
ghost use Rattle.reads.specs.Tables.{padded, after};
ghost use Rattle.slot.specs.Shown.{shown};
ghost use Rattle.reach.specs.Reach.{named, any_of, reaches as reaches_in, dependants_in};
ghost use Rattle.dependants.specs.Dependants.{dependants_at, dependants as dependants_of};

use reads::{Answer, Reason};
use slot::Pool;

// Whether slot a's reference k bytes after its tag byte, if k is not 0, is slot b or leads on to it along at most `depth` more.
// 0 for none, as a `Row` has it.
#[cycle(leads_reaches)]
fn leads(p: &Pool, depth: u8, a: usize, k: u8, b: usize) -> bool
    ensures { result ≡ any_of (λ x. eqb x b || reaches_in depth (shown p.now) x b) (named (shown p.now) a k) }
{
    if k == 0 {
        return false;
    }
    let m = p.field(a, k) as usize;
    m == b || reaches(p, depth, m, b)
}

// Whether slot a reaches slot b along at most `depth` references.
#[cycle(leads_reaches)]
fn reaches(p: &Pool, depth: u8, a: usize, b: usize) -> bool
    ensures { result ≡ reaches_in depth (shown p.now) a b }
{
    if depth == 0 {
        return false;
    }
    let row = pool::row_of(p.tag(a));
    leads(p, depth - 1, a, row.3, b) || leads(p, depth - 1, a, row.4, b)
}

// Stores a slot at a place of the list, where the list has that place. By `get_mut` it did not prove: the list after it was then unknown.
fn put(list: &mut [u16], at: usize, n: u16)
    ensures { list.new ≡ set list.old at n }
{
    if at < list.len() {
        list[at] = n;
    }
}

// Every cell of the list from a place on becomes zero.
#[tactic(auto, using(crate::proofs::Stored::zeros, crate::proofs::Stored::no_zeros))]
fn clear_from(list: &mut [u16], from: usize)
    ensures { list.new ≡ padded 0 (length list.old) (take from list.old) }
{
    if from < list.len() {
        reads::clear(&mut list[from..]);
    }
}

// Stores the dependants of slot b, as many as the list has places for, and counts them all.
fn store(p: &Pool, b: usize, list: &mut [u16]) -> usize
    requires { p.now.slots ≤ 65536 }
    ensures number { result ≡ length (dependants_in (shown p.now) b) }
    ensures list { result ≤ length list.old → take result list.new ≡ dependants_in (shown p.now) b }
{
    let mut count = 0;
    for a in 0..p.count() {
        if reaches(p, 3, a, b) {
            put(list, count, a as u16);
            count += 1;
        }
    }
    count
}

// The dependants of slot n of a pool that was checked; after a refusal some of the list may be written.
fn list_at(p: &Pool, n: usize, list: &mut [u16]) -> Answer<usize>
    requires { p.now.slots ≤ 65536 }
    ensures is { Is answered (mapped length (dependants_at n (length list.old) (shown p.now))) result }
    ensures list_after { Accepted (dependants_at n (length list.old) (shown p.now)) (λ xs. padded 0 (length list.old) xs) list.new }
{
    p.check_range(n, n)?;
    let count = store(p, n, list);
    if list.len() < count {
        return Err(Reason::NoRoom.at(count));
    }
    clear_from(list, count);
    Ok(count)
}

// The dependants of slot n of a handed table, into the lent list; after a refusal some of the list may be written.
fn list_of(file: &[u8], table: &[u32], n: usize, list: &mut [u16]) -> Answer<usize>
    ensures is { Is answered (mapped length (dependants_of file.now table.now n (length list.old))) result }
    ensures list_after { Accepted (dependants_of file.now table.now n (length list.old)) (λ xs. padded 0 (length list.old) xs) list.new }
{
    let p = handed::pool_of(file, table)?;
    list_at(&p, n, list)
}

// Every slot that reaches the slot asked for, each once and rising, into the lent list; cells past them are zero, and all are after a
// refusal.
pub fn dependants(file: &[u8], table: &[u32], slot: u32, list: &mut [u16]) -> Answer<usize>
    ensures answer { Is answered (mapped length (dependants_of file.now table.now slot (length list.old))) result }
    ensures list { list.new ≡ after 0 (λ xs. xs) (length list.old) (dependants_of file.now table.now slot (length list.old)) }
{
    let answer = list_of(file, table, slot as usize, list);
    if answer.is_err() {
        reads::clear(list);
    }
    answer
}
