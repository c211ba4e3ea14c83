// The dependants of a slot, asked of a table that is bytes, into a list that is bytes.
#![tactic(auto)]

ghost use Rattle.std.specs.Prelude.{◌≡◌, ◌/◌, ◌≤◌, min, length};
ghost use Rattle.reads.specs.Answer.{mapped};
ghost use Rattle.reads.specs.Promise.{Is, answered};
ghost use Rattle.reads.specs.Tables.{after};
ghost use Rattle.dependants.specs.Dependants.{dependants as dependants_of};
ghost use Rattle.cells.specs.Cells.{cells_in, as_bytes};
ghost use Rattle.byte_tables.specs.Enough.{enough_for};

use reads::Answer;

// The work of `list_dependants`, by way of cells and a list of slots that are lent too: as many cells as are enough, and as many slots as
// are used.
fn list_in(
    file: &[u8],
    table: &[u8],
    slot: u32,
    list: &mut [u8],
    cells: &mut [u32],
    slots: &mut [u16],
) -> Answer<usize>
    requires enough { enough_for file.now ≤ length cells.old }
    requires room { length slots.old ≡ min (length list.old / 4) (length cells.old) }
    ensures answer { Is answered (mapped length (dependants_of file.now (cells_in table.now) slot (length list.old / 4))) result }
    ensures list { list.new ≡ as_bytes (length list.old) (after 0 (λ xs. xs) (length list.old / 4) (dependants_of file.now (cells_in table.now) slot (length list.old / 4))) }
{
    if let Err(r) = byte_tables::check_afresh(file, table, cells) {
        reads::clear(list);
        return Err(r);
    }
    let answer = dependants::dependants(file, cells, slot, slots);
    cells::list_out(slots, list);
    answer
}

// The same, of the cells and of the slots only as many as are used.
fn list_with(
    file: &[u8],
    table: &[u8],
    slot: u32,
    list: &mut [u8],
    cells: &mut [u32],
    slots: &mut [u16],
    need: usize,
) -> Answer<usize>
    requires need { need ≡ enough_for file.now }
    requires enough { need ≤ length cells.old }
    requires alike { length slots.old ≡ length cells.old }
    ensures answer { Is answered (mapped length (dependants_of file.now (cells_in table.now) slot (length list.old / 4))) result }
    ensures list { list.new ≡ as_bytes (length list.old) (after 0 (λ xs. xs) (length list.old / 4) (dependants_of file.now (cells_in table.now) slot (length list.old / 4))) }
{
    let room = need.min(list.len() / 4);
    list_in(
        file,
        table,
        slot,
        list,
        &mut cells[..need],
        &mut slots[..room],
    )
}

// The dependants with N cells and N slots of its own.
fn list_sized<const N: usize>(
    file: &[u8],
    table: &[u8],
    slot: u32,
    list: &mut [u8],
) -> Answer<usize>
    requires enough { enough_for file.now ≤ N }
    requires few { N ≤ 65536 }
    ensures answer { Is answered (mapped length (dependants_of file.now (cells_in table.now) slot (length list.old / 4))) result }
    ensures list { list.new ≡ as_bytes (length list.old) (after 0 (λ xs. xs) (length list.old / 4) (dependants_of file.now (cells_in table.now) slot (length list.old / 4))) }
{
    let need = byte_tables::cells_for(file);
    let mut cells = [0u32; N];
    let mut slots = [0u16; N];
    list_with(file, table, slot, list, &mut cells, &mut slots, need)
}

// Every slot that reaches the slot asked for, rising, into a list that is bytes, a cell each; what is left of the list is zero, and all of
// it after a refusal. The table is bytes too. The numbers of cells double: the compiler takes only the first few of these functions into
// this one's frame. The tests stand as in `byte_pools`, which says why.
pub fn list_dependants(file: &[u8], table: &[u8], slot: u32, list: &mut [u8]) -> Answer<usize>
    ensures answer { Is answered (mapped length (dependants_of file.now (cells_in table.now) slot (length list.old / 4))) result }
    ensures list { list.new ≡ as_bytes (length list.old) (after 0 (λ xs. xs) (length list.old / 4) (dependants_of file.now (cells_in table.now) slot (length list.old / 4))) }
{
    let need = byte_tables::cells_for(file);
    if need <= 64 {
        return list_sized::<64>(file, table, slot, list);
    }
    if need <= 128 {
        return list_sized::<128>(file, table, slot, list);
    }
    if need <= 256 {
        return list_sized::<256>(file, table, slot, list);
    }
    if need <= 512 {
        return list_sized::<512>(file, table, slot, list);
    }
    if need <= 1024 {
        return list_sized::<1024>(file, table, slot, list);
    }
    if need <= 2048 {
        return list_sized::<2048>(file, table, slot, list);
    }
    if need <= 4096 {
        return list_sized::<4096>(file, table, slot, list);
    }
    if need <= 8192 {
        return list_sized::<8192>(file, table, slot, list);
    }
    if need <= 16384 {
        return list_sized::<16384>(file, table, slot, list);
    }
    if need <= 32768 {
        return list_sized::<32768>(file, table, slot, list);
    }
    list_sized::<65536>(file, table, slot, list)
}
