// Checks flex.log and pairing.sheet in the current folder line by line, and prints what is read and what is refused, and where.
#![tactic(auto)]

ghost use Rattle.std.specs.Prelude.{◌≤◌, length, IfOk};

use records::lines::{LONGEST_TEXT, Lines, TextLine, check_text};
use records::record::Record;
use report::checked::{print_fault, print_line, print_totals};
use std::io::{Read, Write};
use std::{fs, io};
use text::cause::BookCause;
use text::cite::{cited, text_of};
use text::fault::Fault;
use text::refusal::Source;

/// One byte more than a text may have, so that a longer one shows.
const ROOM: usize = LONGEST_TEXT + 1;

/// More than any printed row has; rows are printed into lent memory.
const ROW: usize = 512;

/// The two texts, and how many of their lines were checked and how many faults were found so far.
#[derive(Drop)]
struct Session<'a> {
    log: &'a [u8],
    sheet: &'a [u8],
    // counted by hand, over both texts
    lines: usize,
    faults: usize,
}

/// The bytes of a file, as many as there is room for; none where it cannot be read.
fn read_text<'a>(rt: &HostRuntime, path: &str, room: &'a mut [u8]) -> &'a [u8]
    ensures { length result.now ≤ length room.old }
{
    let Ok(mut file) = fs::open(rt, path) else {
        return &[];
    };
    let mut len = 0;
    // a box has no heap: a file comes piece by piece into lent memory, and `len` is how much has come
    while len < room.len() {
        match file.read(&mut room[len..]) {
            Ok(0) => break,
            Ok(n) => len += n,
            Err(_) => return &[],
        }
    }
    &room[..len]
}

/// Sends a printed row out; a row that the buffer is too short for is not printed.
// A length comes beside the row, since rows are made in lent memory.
fn send(rt: &HostRuntime, row: &[u8], len: Result<usize, BookCause>) -> io::Result<()>
    requires { IfOk len (λ n. n ≤ length row.now) }
{
    match len {
        Ok(n) => rt.stdout().write_all(&row[..n]),
        Err(_) => Ok(()),
    }
}

/// Prints a line as it was read.
// Each kind of row is made where it is sent: a closure that makes it would have to promise how long it is.
fn say(rt: &HostRuntime, line: &TextLine<'_>, record: &Record<'_>) -> io::Result<()> {
    let mut row = [0; ROW];
    let len = print_line(&mut row, line, record);
    send(rt, &row, len)
}

impl Session<'_> {
    /// Prints a fault and counts it.
    fn tell(&mut self, rt: &HostRuntime, fault: &Fault) -> io::Result<()> {
        self.faults = self.faults.saturating_add(1);
        let mut row = [0; ROW];
        let len = print_fault(&mut row, fault, cited(self.log, self.sheet, fault));
        send(rt, &row, len)
    }

    /// Checks the lines of one text, and prints each as it is checked.
    fn check(&mut self, rt: &HostRuntime, source: Source) -> io::Result<()> {
        let text = text_of(self.log, self.sheet, source);
        if let Err(fault) = check_text(source, text) {
            return self.tell(rt, &fault);
        }
        for line in Lines::of(source, text) {
            self.lines = self.lines.saturating_add(1);
            match line.read() {
                Ok(record) => say(rt, &line, &record)?,
                Err(fault) => self.tell(rt, &fault)?,
            }
        }
        Ok(())
    }
}

fn main(rt: HostRuntime) -> io::Result<()> {
    let mut log_room = [0; ROOM];
    let mut sheet_room = [0; ROOM];
    let mut session = Session {
        log: read_text(&rt, "flex.log", &mut log_room),
        sheet: read_text(&rt, "pairing.sheet", &mut sheet_room),
        lines: 0,
        faults: 0,
    };
    session.check(&rt, Source::Log)?;
    session.check(&rt, Source::Sheet)?;
    let mut row = [0; ROW];
    let len = print_totals(&mut row, session.lines, session.faults);
    send(&rt, &row, len)
}
