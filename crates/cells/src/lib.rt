// A table as bytes: four big-endian bytes a cell, a remainder no cell; read cell by cell, and written whole.
#![tactic(auto)]

ghost use Rattle.std.specs.Prelude.{◌≡◌, ◌*◌, ◌/◌, ◌≤◌, ℕ, List, length, map, take, get_or};
ghost use Rattle.cells.specs.Cells.{cells_in, cell_bytes, as_bytes};

// Cell i of a table that is bytes; 0 past its cells.
// By four places and not by `as_chunks::<4>()`: tried, and `map_or` of the chunk at i ≡ `get_or (cells_in table) i 0` stayed open.
pub fn cell_at(table: &[u8], i: usize) -> u32
    ensures { result ≡ get_or (cells_in table.now) i 0 }
{
    if table.len() / 4 <= i {
        return 0;
    }
    let at = i * 4;
    u32::from_be_bytes([table[at], table[at + 1], table[at + 2], table[at + 3]])
}

// A number that goes into a table as a cell.
trait Cell: Copy {
    ghost number: { Self → ℕ };

    // The four bytes of the cell.
    fn bytes(self) -> [u8; 4]
        ensures { result ≡ cell_bytes (number self) };
}

impl Cell for u32 {
    ghost number = { λ x. x };

    fn bytes(self) -> [u8; 4] {
        self.to_be_bytes()
    }
}

impl Cell for u16 {
    ghost number = { λ x. x };

    fn bytes(self) -> [u8; 4] {
        u32::from(self).to_be_bytes()
    }
}

// Numbers into a table that has room for them, a cell each, and zeros after. The place is counted, since after a loop over
// `chunks_exact_mut` nothing can be proved of the table's bytes.
fn put_cells<T: Cell>(numbers: &[T], table: &mut [u8])
    requires { 4 * length numbers.now ≤ length table.old }
    ensures { table.new ≡ as_bytes (length table.old) (map T.number numbers.now) }
{
    for (i, number) in numbers.iter().enumerate() {
        let at = i * 4;
        table[at..at + 4].copy_from_slice(&number.bytes());
    }
    let end = numbers.len() * 4;
    reads::clear(&mut table[end..]);
}

// Cells into a table that is bytes, or as many of them as it has room for; what is left of it becomes zero. This and `list_out` stay two
// names of one line each: one generic name would publish `Cell`.
pub fn cells_out(cells: &[u32], table: &mut [u8])
    ensures { table.new ≡ as_bytes (length table.old) (take (length table.old / 4) cells.now) }
{
    let n = cells.len().min(table.len() / 4);
    put_cells(&cells[..n], table);
}

// A list of slots into a table that is bytes, or as many of them as it has room for; what is left of it becomes zero.
pub fn list_out(list: &[u16], table: &mut [u8])
    ensures { table.new ≡ as_bytes (length table.old) (take (length table.old / 4) list.now) }
{
    let n = list.len().min(table.len() / 4);
    put_cells(&list[..n], table);
}
