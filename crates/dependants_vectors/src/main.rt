// Runs vectors of dependants. A line says a file, in hexadecimal behind `hex` or as the name of one of data/ behind `file`; how many
// cells of the table that its entries give are handed in; the slot asked for; how many cells are lent; and, where they stand there, the
// number of a cell of the table and what is put there. The answer is the number listed, or the refusal, and every lent cell afterwards.
#![tactic(auto)]

use reads::Answer;
use script::Answers;
use std::io;
use std::io::Write;
use std::rt::Files;

fn print_answer(out: &mut impl Write, answer: Answer<usize>) -> io::Result<()> {
    match answer {
        Ok(n) => write!(out, "listed {n}:"),
        Err(r) => write!(out, "refused {r}:"),
    }
}

// Asks for dependants with a list whose cells the call must write or make zero.
fn ask(
    out: &mut impl Write,
    file: &[u8],
    table: &[u32],
    slot: u32,
    list: &mut [u16],
) -> io::Result<()> {
    list.fill(9999);
    print_answer(out, dependants::dependants(file, table, slot, list))?;
    script::print_fields(out, list)?;
    script::print(out, b"\n")
}

// Puts a number into a cell of the table, where the table has that cell and the number fits.
fn alter(table: &mut [u32], cell: u64, value: u64) {
    if let (Some(place), Ok(value)) = (table.get_mut(cell as usize), u32::try_from(value)) {
        *place = value;
    }
}

// The number that a line's word with a number says.
fn number(line: &[u8], n: usize) -> u64 {
    script::number(script::word(line, n))
}

// The table that the entries give, altered where the line says so.
fn make_table(line: &[u8], file: &[u8], table: &mut [u32]) {
    // A table that is refused is zero, and is handed in so.
    let _ = pool::read_entries(file, table);
    if !script::word(line, 5).is_empty() {
        alter(table, number(line, 5), number(line, 6));
    }
}

// Answers a line of a file, where what it hands in and what it lends is there.
fn answer(
    out: &mut impl Write,
    line: &[u8],
    file: &[u8],
    table: &mut [u32],
    list: &mut [u16],
) -> io::Result<()> {
    make_table(line, file, table);
    let Some(handed) = table.get(..number(line, 2) as usize) else {
        return Ok(());
    };
    let Ok(slot) = u32::try_from(number(line, 3)) else {
        return Ok(());
    };
    let Some(lent) = list.get_mut(..number(line, 4) as usize) else {
        return Ok(());
    };
    ask(out, file, handed, slot, lent)
}

// Where the files are, the space that a line's file takes, the table, and the list that is lent.
#[derive(Drop)]
struct Dependants<'a, F> {
    files: &'a F,
    space: [u8; script::LINE],
    table: [u32; script::LINE],
    list: [u16; 1024],
}

impl<'a, F: Files> Answers for Dependants<'a, F> {
    fn answer(&mut self, out: &mut impl Write, line: &[u8]) -> io::Result<()> {
        let n = script::read_bytes(self.files, line, 1, &mut self.space)?;
        answer(out, line, &self.space[..n], &mut self.table, &mut self.list)
    }
}

fn main(rt: HostRuntime) -> io::Result<()> {
    let mut input: [u8; script::SPACE] = script::zeros();
    let mut dependants = Dependants {
        files: &rt,
        space: script::zeros(),
        table: script::zeros(),
        list: script::zeros(),
    };
    script::run(
        rt.reader(),
        &mut io::writer(&rt),
        &mut input,
        &mut dependants,
    )
}
