// The rows that the line checker prints: a line as read, a fault with the bytes that it cites, and the totals.
ghost use Rattle.std.specs.Prelude.{◌≡◌, ◌≤◌, ◌∷◌, length, map, take, codes};
ghost use Rattle.records.specs.Records.{kind_of, parts};
ghost use Rattle.text.specs.Kinds.{word};
ghost use Rattle.report.specs.Rows.{Prints};
ghost use Rattle.report.specs.Printed.{visible, if_any, fault_fields, line_fields, total_fields};

use crate::decimal::Digits;
use crate::row::print_row;
use records::lines::TextLine;
use records::record::{LONGEST_LINE, Record};
use text::cause::BookCause;
use text::fault::Fault;
use text::word::Word;

/// How many of the cited bytes are printed at most: as many as a line may have.
pub const QUOTED: usize = LONGEST_LINE;

/// The byte as it is printed: a question mark for one that no line may have.
fn visible_byte(b: u8) -> u8
    ensures { result ≡ visible b }
{
    if b.is_ascii_graphic() { b } else { b'?' }
}

/// Prints how many lines and faults there were.
pub fn print_totals(out: &mut [u8], lines: usize, faults: usize) -> Result<usize, BookCause>
    ensures { Prints out.old out.new (total_fields lines faults) result }
{
    let lines = Digits::from(lines);
    let faults = Digits::from(faults);
    print_row(
        out,
        &[b"LINES", lines.as_bytes(), b"FAULTS", faults.as_bytes()],
    )
}

/// Prints a line as it was read: its text, its number, its kind and its fields.
pub fn print_line(
    out: &mut [u8],
    line: &TextLine<'_>,
    read: &Record<'_>,
) -> Result<usize, BookCause>
    ensures { Prints out.old out.new (line_fields line.now read.now) result }
{
    let number = Digits::from(line.number as usize);
    record_row(
        out,
        line.source.word(),
        number.as_bytes(),
        read.kind().word(),
        *read,
    )
}

/// The row of a record, behind the name of its text, the number of its line and the word of its kind.
fn record_row<'a>(
    out: &mut [u8],
    source: &'a [u8],
    number: &'a [u8],
    kind: &'a [u8],
    read: Record<'a>,
) -> Result<usize, BookCause>
    requires { kind.now ≡ word (kind_of read) }
    ensures { Prints out.old out.new (source.now ∷ number.now ∷ parts read.entry) result }
{
    match read {
        Record::Log { version: field }
        | Record::Sheet { named: field, .. }
        | Record::Stock { name: field }
        | Record::Best { build: field } => print_row(out, &[source, number, kind, field.bytes]),
        Record::End { count } => print_row(out, &[source, number, kind, count.bytes]),
        Record::Flex { left, right } | Record::Pair { left, right } => {
            print_row(out, &[source, number, kind, left.bytes, right.bytes])
        }
        Record::Cost { name, price } => {
            print_row(out, &[source, number, kind, name.bytes, price.bytes])
        }
    }
}

/// Copies cited bytes to the front of `out`, as many as it takes, as they are printed, and lends them.
fn quote<'a>(out: &'a mut [u8], bytes: &[u8]) -> &'a [u8]
    ensures { result.now ≡ map visible (take (length out.old) bytes.now) }
{
    let count = out.len().min(bytes.len());
    let quoted = &mut out[..count];
    quoted.copy_from_slice(&bytes[..count]);
    for b in quoted.iter_mut() {
        *b = visible_byte(*b);
    }
    quoted
}

/// Prints a fault: its text, line, number and place, and the bytes that it cites, if any.
pub fn print_fault(out: &mut [u8], fault: &Fault, cited: &[u8]) -> Result<usize, BookCause>
    ensures { Prints out.old out.new (fault_fields fault.now cited.now) result }
{
    let mut buffer = [0; QUOTED];
    let cited = quote(&mut buffer, cited);
    let line = Digits::from(fault.line as usize);
    let number = Digits::from(fault.number as usize);
    let place = Digits::from(fault.place);
    let source = fault.source.word();
    fault_row(
        out,
        source,
        line.as_bytes(),
        number.as_bytes(),
        place.as_bytes(),
        cited,
    )
}

/// The row of a fault; the last field is left out where it has no bytes.
fn fault_row<'a>(
    out: &mut [u8],
    source: &'a [u8],
    line: &'a [u8],
    number: &'a [u8],
    place: &'a [u8],
    cited: &'a [u8],
) -> Result<usize, BookCause>
    ensures { Prints out.old out.new (codes "FAULT" ∷ source.now ∷ line.now ∷ number.now ∷ place.now ∷ if_any cited.now) result }
{
    let fields = [b"FAULT", source, line, number, place, cited];
    let count = if cited.is_empty() { 5 } else { 6 };
    print_row(out, &fields[..count])
}
