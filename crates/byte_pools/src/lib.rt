// The pool of a file, into a table that is bytes.
#![tactic(auto)]

ghost use Rattle.std.specs.Prelude.{◌≡◌, ◌/◌, ◌≤◌, min, length};
ghost use Rattle.reads.specs.Answer.{mapped};
ghost use Rattle.reads.specs.Promise.{Is, answered};
ghost use Rattle.reads.specs.Tables.{after};
ghost use Rattle.pool.specs.Readings.{head_of};
ghost use Rattle.checks.specs.Checks.{pool as pool_of};
ghost use Rattle.cells.specs.Cells.{as_bytes};
ghost use Rattle.byte_tables.specs.Enough.{enough_for};

use pool::Head;
use reads::Answer;

// How many cells are used: as many as are enough for the file, or the room for them where that is less.
fn cells_used(file: &[u8], room: usize) -> usize
    ensures { (result ≡ min room (enough_for file.now)) × (result ≤ 65536) }
{
    room.min(byte_tables::cells_for(file))
}

// The work of `pool_bytes`, with as many cells lent as are used.
fn pool_in(file: &[u8], table: &mut [u8], cells: &mut [u32]) -> Answer<Head>
    requires { length cells.old ≡ min (length table.old / 4) (enough_for file.now) }
    ensures answer { Is answered (mapped head_of (pool_of file.now (length table.old / 4))) result }
    ensures table { table.new ≡ as_bytes (length table.old) (after 0 (λ w. w.pool.cells) (length table.old / 4) (pool_of file.now (length table.old / 4))) }
{
    let answer = checks::read_pool(file, cells);
    cells::cells_out(cells, table);
    answer
}

// The same, of the cells only as many as are used.
fn pool_with(file: &[u8], table: &mut [u8], cells: &mut [u32], used: usize) -> Answer<Head>
    requires { (used ≡ min (length table.old / 4) (enough_for file.now)) × (used ≤ length cells.old) }
    ensures answer { Is answered (mapped head_of (pool_of file.now (length table.old / 4))) result }
    ensures table { table.new ≡ as_bytes (length table.old) (after 0 (λ w. w.pool.cells) (length table.old / 4) (pool_of file.now (length table.old / 4))) }
{
    pool_in(file, table, &mut cells[..used])
}

// The pool with N cells of its own.
fn pool_sized<const N: usize>(file: &[u8], table: &mut [u8]) -> Answer<Head>
    requires enough { min (length table.old / 4) (enough_for file.now) ≤ N }
    requires few { N ≤ 65536 }
    ensures answer { Is answered (mapped head_of (pool_of file.now (length table.old / 4))) result }
    ensures table { table.new ≡ as_bytes (length table.old) (after 0 (λ w. w.pool.cells) (length table.old / 4) (pool_of file.now (length table.old / 4))) }
{
    let used = cells_used(file, table.len() / 4);
    let mut cells = [0u32; N];
    pool_with(file, table, &mut cells, used)
}

// The pool of a file, into a lent table that is bytes. Room for so many cells as the table has four bytes; a refusal leaves zeros. The
// numbers of cells double: the compiler takes only the first few of these functions into this one's frame. `byte_dependants` and
// `questions` have such tests too: one function over a closure would be public, and need a `requires` that it may be called.
pub fn pool_bytes(file: &[u8], table: &mut [u8]) -> Answer<Head>
    ensures answer { Is answered (mapped head_of (pool_of file.now (length table.old / 4))) result }
    ensures table { table.new ≡ as_bytes (length table.old) (after 0 (λ w. w.pool.cells) (length table.old / 4) (pool_of file.now (length table.old / 4))) }
{
    let used = cells_used(file, table.len() / 4);
    if used <= 64 {
        return pool_sized::<64>(file, table);
    }
    if used <= 128 {
        return pool_sized::<128>(file, table);
    }
    if used <= 256 {
        return pool_sized::<256>(file, table);
    }
    if used <= 512 {
        return pool_sized::<512>(file, table);
    }
    if used <= 1024 {
        return pool_sized::<1024>(file, table);
    }
    if used <= 2048 {
        return pool_sized::<2048>(file, table);
    }
    if used <= 4096 {
        return pool_sized::<4096>(file, table);
    }
    if used <= 8192 {
        return pool_sized::<8192>(file, table);
    }
    if used <= 16384 {
        return pool_sized::<16384>(file, table);
    }
    if used <= 32768 {
        return pool_sized::<32768>(file, table);
    }
    pool_sized::<65536>(file, table)
}
