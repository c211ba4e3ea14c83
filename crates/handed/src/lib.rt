// A handed table: the entries are read afresh, 12 where it is not the one that the file gives, then the pool's checks; and what every
// lookup asks of its slot. The table is compared while the entries are read, so that no second one is needed.
#![tactic(auto)]

ghost use Rattle.std.specs.Prelude.{◌≡◌, eqb};
ghost use Rattle.reads.specs.Answer.{mapped, require};
ghost use Rattle.reads.specs.Promise.{Is, answered};
ghost use Rattle.pool.specs.Pool.{all_entries};
ghost use Rattle.pool.specs.Readings.{head_of};
ghost use Rattle.slot.specs.Shown.{shown};
ghost use Rattle.handed.specs.Handed.{no_limit, handed, asked};
ghost use Rattle.handed.specs.Walk.{onward, walked_of, rest, judged_as, lent};

use pool::Head;
use reads::{Answer, Reason};
use slot::Pool;

// What reading the entries of a handed table's file gives: how many slots, the byte after the last entry, and how many cells of the
// table agree with theirs, from the first on.
#[derive(Clone, Copy)]
struct Walked {
    slots: usize,
    next: usize,
    same: usize,
}

// That cell i of a handed table is the one that the file gives.
pub fn same_cell(given: u32, made: u32, i: usize) -> Answer<()>
    ensures { Is answered (require (eqb given made) 12 i) result }
{
    if given == made {
        return Ok(());
    }
    Err(Reason::OtherTable.at(i))
}

// How many cells of a handed table agree from the first on, with cell n looked at: one more where all before it do and it does.
#[tactic(auto, unfolding(crate::specs::Walk::onward))]
fn agreed_to(table: &[u32], same: usize, n: usize, cell: usize) -> usize
    ensures { result ≡ onward table.now same n cell }
{
    if same < n {
        return same;
    }
    match table.get(n) {
        Some(given) if *given as usize == cell => n + 1,
        _ => same,
    }
}

// The entries read afresh, each compared with its cell of a handed table. The room is 65,536, more than any pool has slots: a number and
// no `Option`, since `slot_at` is public and takes the room as one.
// The walk of `pool::fill`, which stores where this compares: one function over the step would be public in `pool`, with a `requires`
// (`F.IsAlwaysCallable step`), and no public function has one.
#[tactic(auto, using(crate::proofs::Walking::begin, crate::proofs::Walking::turn))]
fn walk(file: &[u8], major: u16, count: u16, table: &[u32]) -> Answer<Walked>
    ensures { Is answered (mapped (walked_of table.now) (all_entries file.now major count no_limit)) result }
{
    let mut at = 10;
    let mut owed = false;
    let mut same = agreed_to(table, 0, 0, 0);
    for n in 1..count as usize {
        let e = pool::slot_at(file, major, 65536, n, owed, at)?;
        same = agreed_to(table, same, n, e.cell);
        at = e.next;
        owed = e.wide;
    }
    let slots = (count as usize).max(1);
    if !owed {
        return Ok(Walked {
            slots,
            next: at,
            same,
        });
    }
    Ok(Walked {
        slots: slots + 1,
        next: at,
        same: agreed_to(table, same, slots, 0),
    })
}

// That a table is zero from cell n on.
// By index: with `table.iter().enumerate().skip(n)`, tried, the four goals that the check finds here alone stay open, first that the
// cell beside i is the table's at i (`loop-i-preserved`).
#[tactic(auto, using(reads::proofs::Answers::each_go, reads::proofs::Answers::each_stop, reads::proofs::Answers::each_done), unfolding(crate::specs::Walk::rest))]
fn check_rest(table: &[u32], n: usize) -> Answer<()>
    ensures { Is answered (rest table.now n) result }
{
    for i in n..table.len() {
        same_cell(table[i], 0, i)?;
    }
    Ok(())
}

// 12, then the pool's checks, over the table itself: where 12 does not come it holds the pool's cells.
#[tactic(auto, unfolding(crate::specs::Walk::judged_as))]
fn judge(p: &Pool, same: usize) -> Answer<()>
    ensures { Is answered (judged_as p.now.file.now p.now.major p.now.table.now p.now.slots same) result }
{
    if same < p.slots {
        return Err(Reason::OtherTable.at(same));
    }
    check_rest(p.table, p.slots)?;
    checks::check_pool(p)
}

// The pool of a file whose table is handed in: the entries are read afresh without regard to room, then 12, then the pool's checks.
#[tactic(auto, using(crate::proofs::Judging::no_header, crate::proofs::Judging::not_walked, crate::proofs::Judging::good, crate::proofs::Judging::bad))]
pub fn check_handed(file: &[u8], table: &[u32]) -> Answer<Head>
    ensures { Is answered (mapped head_of (handed file.now table.now)) result }
{
    let h = pool::header_of(file)?;
    let w = walk(file, h.major, h.count, table)?;
    let head = Head {
        slots: w.slots,
        minor: h.minor,
        major: h.major,
        next: w.next,
    };
    judge(&Pool::of(file, &head, table), w.same)?;
    Ok(head)
}

// The pool of a file whose table is handed in, as checks and lookups see it.
pub fn pool_of<'f, 't>(file: &'f [u8], table: &'t [u32]) -> Answer<Pool<'f, 't>>
    ensures { Is answered (mapped (lent file.entry table.entry) (handed file.now table.now)) result }
{
    let h = check_handed(file, table)?;
    Ok(Pool::of(file, &h, table))
}

// That slot n is a slot, and of an allowed kind.
#[tactic(auto, unfolding(crate::specs::Handed::asked))]
pub fn check_asked(p: &Pool, allowed: u32, n: usize) -> Answer<()>
    ensures { Is answered (asked (shown p.now) allowed n) result }
{
    p.check_range(n, n)?;
    p.check_kind(n, allowed, n)
}
