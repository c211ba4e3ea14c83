// A handed table that is bytes, held against the file: its entries are read afresh into lent cells, and the table must be these cells
// and zeros.
#![tactic(auto)]

ghost use Rattle.std.specs.Prelude.{◌≡◌, ◌≤◌, length};
ghost use Rattle.reads.specs.Promise.{Is, answered};
ghost use Rattle.reads.specs.Tables.{after};
ghost use Rattle.slot.specs.Shown.{shown};
ghost use Rattle.handed.specs.Handed.{agree};
ghost use Rattle.cells.specs.Cells.{cells_in};
ghost use Rattle.byte_tables.specs.Afresh.{afresh, taken};
ghost use Rattle.byte_tables.specs.Enough.{enough_for};

use reads::{Answer, Reason};
use slot::Pool;

// That a handed table that is bytes agrees with the cells of the slots, and is zero past them.
fn check_bytes(p: &Pool, table: &[u8]) -> Answer<()>
    ensures { Is answered (agree (shown p.now).cells (cells_in table.now)) result }
{
    let end = table.len() / 4;
    // By number: the other cell and the place need it too, and an iterator over `as_chunks::<4>()` would have `cell_at` here once more.
    for i in 0..end {
        handed::same_cell(cells::cell_at(table, i), p.cell(i), i)?;
    }
    if end < p.count() {
        return Err(Reason::OtherTable.at(end));
    }
    Ok(())
}

// The entries, read afresh into the lent cells, and 12 where the handed table is not these. What the entries break is refused as they
// are read; of the pool's checks nothing is done yet. After a refusal the cells are zero.
pub fn check_afresh(file: &[u8], table: &[u8], cells: &mut [u32]) -> Answer<()>
    ensures answer { Is answered (afresh file.now (cells_in table.now) (length cells.old)) result }
    ensures cells { cells.new ≡ after 0 (λ w. w.pool.cells) (length cells.old) (taken file.now (cells_in table.now) (length cells.old)) }
{
    let h = pool::read_entries(file, cells)?;
    let p = Pool::of(file, &h, cells);
    if let Err(r) = check_bytes(&p, table) {
        reads::clear(cells);
        return Err(r);
    }
    Ok(())
}

// How many cells are enough for the pool of a file, whatever it claims.
pub fn cells_for(file: &[u8]) -> usize
    ensures { (result ≡ enough_for file.now) × (result ≤ 65536) }
{
    let by_count = reads::pair_at(file, 8) as usize + 1;
    let by_size = file.len() / 3;
    by_count.min(by_size)
}
