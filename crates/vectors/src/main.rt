// A table of lines and texts with the verdict that each must get: run, compared, and counted.
#![tactic(auto)]

use records::lines::{Lines, check_text};
use records::screen::{check_line, pairing_check_line};
use std::io;
use text::cite::cited;
use text::fault::Fault;
use text::refusal::Source;

/// How many cases were run, and how many came out otherwise than the table says.
#[derive(Default, Drop)]
struct Tally {
    cases: u32,
    wrong: u32,
}

impl Tally {
    /// Counts a case.
    fn count(&mut self, right: bool) {
        self.cases = self.cases.saturating_add(1);
        if !right {
            self.wrong = self.wrong.saturating_add(1);
        }
    }

    /// A line is granted; the C call says the same.
    fn granted(&mut self, line: &[u8]) {
        self.verdict(line, None);
    }

    /// A line gets this refusal number at this place; the C call says the same.
    fn refused(&mut self, line: &[u8], number: u8, place: u16) {
        self.verdict(line, Some((number, place)));
    }

    /// A line gets no refusal, or this number at this place.
    fn verdict(&mut self, line: &[u8], wanted: Option<(u8, u16)>) {
        let found = check_line(line)
            .err()
            .map(|refusal| (refusal.layer.number(), refusal.place));
        let right = found == wanted.map(|(number, place)| (number, usize::from(place)));
        let code = wanted.map_or(0, |(number, place)| {
            65_536 * u32::from(number) + u32::from(place)
        });
        self.count(right && pairing_check_line(line) == code);
    }

    /// A text has so many lines and faults, and its last fault, if any, is on this line, at this place, and cites these bytes.
    fn text(&mut self, text: &[u8], lines: u32, faults: u32, last: Option<(u32, usize, &[u8])>) {
        let found = checked(text);
        self.count(found.lines == lines && found.faults == faults);
        let told = found.last.map(|fault| (fault.line, fault.place, cited(b"", text, &fault)));
        self.count(told == last);
    }
}

/// What the check of a whole text found.
#[derive(Default, Drop)]
struct Found {
    lines: u32,
    faults: u32,
    last: Option<Fault>,
}

impl Found {
    /// Counts a fault, which is the last so far.
    fn fault(&mut self, fault: Fault) {
        self.faults = self.faults.saturating_add(1);
        self.last = Some(fault);
    }
}

/// Checks each line of a text.
fn checked(text: &[u8]) -> Found {
    let mut found = Found::default();
    if let Err(fault) = check_text(Source::Sheet, text) {
        found.fault(fault);
    }
    // one loop for the lines, the faults and the last fault
    for line in Lines::of(Source::Sheet, text) {
        found.lines = found.lines.saturating_add(1);
        if let Err(fault) = line.read() {
            found.fault(fault);
        }
    }
    found
}

/// The first field names the kind: whole, in capitals, and nothing else.
fn kinds(tally: &mut Tally) {
    tally.granted(b"LOG\t1");
    tally.granted(b"FLEX\ta\tb");
    tally.granted(b"END\t0");
    tally.granted(b"SHEET\tbill");
    tally.granted(b"COST\ta\t0");
    tally.granted(b"STOCK\ta");
    tally.granted(b"PAIR\ta\tb");
    tally.granted(b"BEST\ta");
    tally.refused(b"", 6, 0);
    tally.refused(b"\t", 6, 0);
    tally.refused(b"log\t1", 6, 0);
    tally.refused(b"LOGS\t1", 6, 0);
    tally.refused(b"LO\t1", 6, 0);
    tally.refused(b"Best\ta", 6, 0);
    tally.refused(b"1", 6, 0);
    tally.refused(b"\tLOG\t1", 6, 0);
    tally.refused(b"BESTa", 6, 0);
}

/// A tab and 33 to 126 may stand in a line; the place is that of the first other byte.
fn bytes(tally: &mut Tally) {
    tally.refused(b"BEST\ta ", 5, 6);
    tally.refused(b" BEST\ta", 5, 0);
    tally.refused(b"BEST\ta\r", 5, 6);
    tally.refused(b"BEST\ta\x7f", 5, 6);
    tally.refused(b"BEST\ta\x80", 5, 6);
    tally.refused(b"\x00", 5, 0);
    tally.refused(b"BEST\t\xff\x01", 5, 5);
    tally.refused(b"BEST\t!", 9, 5);
    tally.refused(b"BEST\t~", 9, 5);
    tally.refused(b"!", 6, 0);
    tally.refused(b"~", 6, 0);
    tally.refused(b"a\nb", 5, 1);
    tally.refused(b"NONE \ta", 5, 4);
    tally.refused(b"BEST\ta\tb\x1f", 5, 8);
}

/// The number of fields is that of the kind; a tab at an end makes one more, an empty one.
fn counts(tally: &mut Tally) {
    tally.refused(b"LOG", 8, 0);
    tally.refused(b"LOG\t1\t1", 8, 0);
    tally.refused(b"LOG\t1\t", 8, 0);
    tally.refused(b"FLEX\ta", 8, 0);
    tally.refused(b"FLEX\ta\tb\tc", 8, 0);
    tally.refused(b"FLEX", 8, 0);
    tally.refused(b"FLEX\ta\tb\t", 8, 0);
    tally.refused(b"COST\ta", 8, 0);
    tally.refused(b"STOCK\ta\t1", 8, 0);
    tally.refused(b"PAIR\ta\t", 9, 7);
    tally.refused(b"BEST\t", 9, 5);
    tally.refused(b"BEST\t\t", 8, 0);
    tally.refused(b"BEST\ta\tb", 8, 0);
    tally.refused(b"END\t1\t2", 8, 0);
    tally.refused(b"BEST\tA\tB", 8, 0);
}

/// A name has 1 to 12 bytes, a letter first.
fn names(tally: &mut Tally) {
    tally.granted(b"STOCK\ta");
    tally.granted(b"STOCK\ta23456789012");
    tally.refused(b"STOCK\ta234567890123", 9, 6);
    tally.refused(b"STOCK\t1a", 9, 6);
    tally.refused(b"STOCK\t-a", 9, 6);
    tally.granted(b"STOCK\ta-");
    tally.granted(b"STOCK\ta-1");
    tally.refused(b"STOCK\tA", 9, 6);
    tally.refused(b"STOCK\taB", 9, 6);
    tally.refused(b"STOCK\t", 9, 6);
    tally.refused(b"STOCK\ta(b)", 9, 6);
    tally.refused(b"STOCK\ta_b", 9, 6);
    tally.granted(b"STOCK\tz9");
    tally.refused(b"COST\t\t5", 9, 5);
    tally.refused(b"COST\t9\tx", 9, 5);
}

/// A build is a name, then nothing or parts.
fn builds(tally: &mut Tally) {
    tally.granted(b"BEST\ta(b)");
    tally.granted(b"BEST\ta(b,c)");
    tally.refused(b"BEST\ta(b,c,d)", 9, 5);
    tally.refused(b"BEST\ta()", 9, 5);
    tally.refused(b"BEST\ta(b", 9, 5);
    tally.refused(b"BEST\ta(b,", 9, 5);
    tally.refused(b"BEST\ta(b,)", 9, 5);
    tally.refused(b"BEST\ta(,b)", 9, 5);
    tally.refused(b"BEST\ta)", 9, 5);
    tally.refused(b"BEST\ta(b))", 9, 5);
    tally.refused(b"BEST\t(a)", 9, 5);
    tally.refused(b"BEST\ta(b)c", 9, 5);
    tally.refused(b"BEST\ta,b", 9, 5);
    tally.granted(b"BEST\ta(b(c,d(e)),f)");
    tally.refused(b"FLEX\ta(\tb)", 9, 5);
    tally.refused(b"FLEX\ta\tb(", 9, 7);
    tally.refused(b"PAIR\ta(b)(c)\td", 9, 5);
}

/// A number has 1 to 5 digits and no leading zero unless it is 0; a price is at most 10,000.
fn numbers(tally: &mut Tally) {
    tally.granted(b"END\t0");
    tally.refused(b"END\t00", 9, 4);
    tally.refused(b"END\t01", 9, 4);
    tally.granted(b"END\t99999");
    tally.refused(b"END\t100000", 9, 4);
    tally.refused(b"END\t", 9, 4);
    tally.refused(b"END\t-1", 9, 4);
    tally.refused(b"END\t+1", 9, 4);
    tally.refused(b"END\t1a", 9, 4);
    tally.granted(b"COST\ta\t10000");
    tally.refused(b"COST\ta\t10001", 9, 7);
    tally.granted(b"COST\ta\t0");
    tally.refused(b"COST\ta\t00", 9, 7);
    tally.refused(b"COST\ta\t99999", 9, 7);
    tally.refused(b"COST\ta\t", 9, 7);
    tally.refused(b"COST\tA\t10001", 9, 5);
    tally.refused(b"LOG\t2", 9, 4);
    tally.refused(b"LOG\t01", 9, 4);
    tally.refused(b"LOG\t", 9, 4);
}

/// A sheet picks one of three price rules.
fn rules(tally: &mut Tally) {
    tally.granted(b"SHEET\tbill");
    tally.granted(b"SHEET\tstock");
    tally.granted(b"SHEET\tsteps");
    tally.refused(b"SHEET\tstep", 9, 6);
    tally.refused(b"SHEET\tBILL", 9, 6);
    tally.refused(b"SHEET\t", 9, 6);
    tally.refused(b"SHEET\tbills", 9, 6);
    tally.refused(b"SHEET\tbill\tstock", 8, 0);
}

/// A build may be nested 32 deep; every field is tried for its form before any is tried for its depth.
fn depths(tally: &mut Tally) {
    tally.granted(
        b"BEST\ta(a(a(a(a(a(a(a(a(a(a(a(a(a(a(a(a(a(a(a(a(a(a(a(a(a(a(a(a(a(a(a)))))))))))))))))))))))))))))))",
    );
    tally.refused(
        b"BEST\ta(a(a(a(a(a(a(a(a(a(a(a(a(a(a(a(a(a(a(a(a(a(a(a(a(a(a(a(a(a(a(a(a))))))))))))))))))))))))))))))))",
        10,
        5,
    );
    tally.refused(
        b"FLEX\ta(a(a(a(a(a(a(a(a(a(a(a(a(a(a(a(a(a(a(a(a(a(a(a(a(a(a(a(a(a(a(a(a))))))))))))))))))))))))))))))))\ta",
        10,
        5,
    );
    tally.refused(
        b"FLEX\ta\ta(a(a(a(a(a(a(a(a(a(a(a(a(a(a(a(a(a(a(a(a(a(a(a(a(a(a(a(a(a(a(a(a))))))))))))))))))))))))))))))))",
        10,
        7,
    );
    tally.refused(
        b"FLEX\ta(a(a(a(a(a(a(a(a(a(a(a(a(a(a(a(a(a(a(a(a(a(a(a(a(a(a(a(a(a(a(a(a))))))))))))))))))))))))))))))))\ta(a(a(a(a(a(a(a(a(a(a(a(a(a(a(a(a(a(a(a(a(a(a(a(a(a(a(a(a(a(a(a(a(a)))))))))))))))))))))))))))))))))",
        10,
        5,
    );
    tally.refused(
        b"FLEX\ta(a(a(a(a(a(a(a(a(a(a(a(a(a(a(a(a(a(a(a(a(a(a(a(a(a(a(a(a(a(a(a(a))))))))))))))))))))))))))))))))\tA",
        9,
        103,
    );
    tally.refused(
        b"FLEX\tA\ta(a(a(a(a(a(a(a(a(a(a(a(a(a(a(a(a(a(a(a(a(a(a(a(a(a(a(a(a(a(a(a(a))))))))))))))))))))))))))))))))",
        9,
        5,
    );
    tally.refused(
        b"BEST\ta(a(a(a(a(a(a(a(a(a(a(a(a(a(a(a(a(a(a(a(a(a(a(a(a(a(a(a(a(a(a(a(a(a(a(a(a(a(a(a(",
        9,
        5,
    );
    tally.refused(
        b"BEST\ta(a(a(a(a(a(a(a(a(a(a(a(a(a(a(a(a(a(a(a(a(a(a(a(a(a(a(a(a(a(a(a(a)))))))))))))))))))))))))))))))",
        9,
        5,
    );
    tally.granted(
        b"BEST\tf(a(a(a(a(a(a(a(a(a(a(a(a(a(a(a(a(a(a(a(a(a(a(a(a(a(a(a(a(a(a(a)))))))))))))))))))))))))))))),b)",
    );
    tally.refused(
        b"BEST\tf(b,a(a(a(a(a(a(a(a(a(a(a(a(a(a(a(a(a(a(a(a(a(a(a(a(a(a(a(a(a(a(a(a))))))))))))))))))))))))))))))))",
        10,
        5,
    );
    tally.granted(
        b"PAIR\ta(a(a(a(a(a(a(a(a(a(a(a(a(a(a(a(a(a(a(a(a(a(a(a(a(a(a(a(a(a(a(a)))))))))))))))))))))))))))))))\ta(a(a(a(a(a(a(a(a(a(a(a(a(a(a(a(a(a(a(a(a(a(a(a(a(a(a(a(a(a(a(a)))))))))))))))))))))))))))))))",
    );
}

/// A line has at most 256 bytes, whatever they are.
fn lengths(tally: &mut Tally) {
    tally.refused(
        b"BEST\taaaaaaaaaaaaaaaaaaaaaaaaaaaaaaaaaaaaaaaaaaaaaaaaaaaaaaaaaaaaaaaaaaaaaaaaaaaaaaaaaaaaaaaaaaaaaaaaaaaaaaaaaaaaaaaaaaaaaaaaaaaaaaaaaaaaaaaaaaaaaaaaaaaaaaaaaaaaaaaaaaaaaaaaaaaaaaaaaaaaaaaaaaaaaaaaaaaaaaaaaaaaaaaaaaaaaaaaaaaaaaaaaaaaaaaaaaaaaaaaaaaaaaaaaaa",
        9,
        5,
    );
    tally.refused(
        b"BEST\taaaaaaaaaaaaaaaaaaaaaaaaaaaaaaaaaaaaaaaaaaaaaaaaaaaaaaaaaaaaaaaaaaaaaaaaaaaaaaaaaaaaaaaaaaaaaaaaaaaaaaaaaaaaaaaaaaaaaaaaaaaaaaaaaaaaaaaaaaaaaaaaaaaaaaaaaaaaaaaaaaaaaaaaaaaaaaaaaaaaaaaaaaaaaaaaaaaaaaaaaaaaaaaaaaaaaaaaaaaaaaaaaaaaaaaaaaaaaaaaaaaaaaaaaaaa",
        4,
        0,
    );
    tally.refused(
        b"xxxxxxxxxxxxxxxxxxxxxxxxxxxxxxxxxxxxxxxxxxxxxxxxxxxxxxxxxxxxxxxxxxxxxxxxxxxxxxxxxxxxxxxxxxxxxxxxxxxxxxxxxxxxxxxxxxxxxxxxxxxxxxxxxxxxxxxxxxxxxxxxxxxxxxxxxxxxxxxxxxxxxxxxxxxxxxxxxxxxxxxxxxxxxxxxxxxxxxxxxxxxxxxxxxxxxxxxxxxxxxxxxxxxxxxxxxxxxxxxxxxxxxxxxxxxxxxx",
        6,
        0,
    );
    tally.refused(
        b"xxxxxxxxxxxxxxxxxxxxxxxxxxxxxxxxxxxxxxxxxxxxxxxxxxxxxxxxxxxxxxxxxxxxxxxxxxxxxxxxxxxxxxxxxxxxxxxxxxxxxxxxxxxxxxxxxxxxxxxxxxxxxxxxxxxxxxxxxxxxxxxxxxxxxxxxxxxxxxxxxxxxxxxxxxxxxxxxxxxxxxxxxxxxxxxxxxxxxxxxxxxxxxxxxxxxxxxxxxxxxxxxxxxxxxxxxxxxxxxxxxxxxxxxxxxxxxxxx",
        4,
        0,
    );
    tally.refused(
        b"\n\n\n\n\n\n\n\n\n\n\n\n\n\n\n\n\n\n\n\n\n\n\n\n\n\n\n\n\n\n\n\n\n\n\n\n\n\n\n\n\n\n\n\n\n\n\n\n\n\n\n\n\n\n\n\n\n\n\n\n\n\n\n\n\n\n\n\n\n\n\n\n\n\n\n\n\n\n\n\n\n\n\n\n\n\n\n\n\n\n\n\n\n\n\n\n\n\n\n\n\n\n\n\n\n\n\n\n\n\n\n\n\n\n\n\n\n\n\n\n\n\n\n\n\n\n\n\n\n\n\n\n\n\n\n\n\n\n\n\n\n\n\n\n\n\n\n\n\n\n\n\n\n\n\n\n\n\n\n\n\n\n\n\n\n\n\n\n\n\n\n\n\n\n\n\n\n\n\n\n\n\n\n\n\n\n\n\n\n\n\n\n\n\n\n\n\n\n\n\n\n\n\n\n\n\n\n\n\n\n\n\n\n\n\n\n\n\n\n\n\n\n\n\n\n\n\n\n\n\n\n\n\n\n\n\n\n\n\n\n\n\n\n\n\n\n\n\n\n\n\n\n\n\n\n\n",
        5,
        0,
    );
    tally.refused(
        b"\n\n\n\n\n\n\n\n\n\n\n\n\n\n\n\n\n\n\n\n\n\n\n\n\n\n\n\n\n\n\n\n\n\n\n\n\n\n\n\n\n\n\n\n\n\n\n\n\n\n\n\n\n\n\n\n\n\n\n\n\n\n\n\n\n\n\n\n\n\n\n\n\n\n\n\n\n\n\n\n\n\n\n\n\n\n\n\n\n\n\n\n\n\n\n\n\n\n\n\n\n\n\n\n\n\n\n\n\n\n\n\n\n\n\n\n\n\n\n\n\n\n\n\n\n\n\n\n\n\n\n\n\n\n\n\n\n\n\n\n\n\n\n\n\n\n\n\n\n\n\n\n\n\n\n\n\n\n\n\n\n\n\n\n\n\n\n\n\n\n\n\n\n\n\n\n\n\n\n\n\n\n\n\n\n\n\n\n\n\n\n\n\n\n\n\n\n\n\n\n\n\n\n\n\n\n\n\n\n\n\n\n\n\n\n\n\n\n\n\n\n\n\n\n\n\n\n\n\n\n\n\n\n\n\n\n\n\n\n\n\n\n\n\n\n\n\n\n\n\n\n\n\n\n\n\n\n",
        4,
        0,
    );
    tally.refused(
        b"BEST\ta(a(a(a(a(a(a(a(a(a(a(a(a(a(a(a(a(a(a(a(a(a(a(a(a(a(a(a(a(a(a(a(a(a(a(a(a(a(a(a(a(a(a(a(a(a(a(a(a(a(a(a(a(a(a(a(a(a(a(a(a(a(a(a)))))))))))))))))))))))))))))))))))))))))))))))))))))))))))))))",
        10,
        5,
    );
    tally.refused(
        b"BEST\ta(a(a(a(a(a(a(a(a(a(a(a(a(a(a(a(a(a(a(a(a(a(a(a(a(a(a(a(a(a(a(a(a(a(a(a(a(a(a(a(a(a(a(a(a(a(a(a(a(a(a(a(a(a(a(a(a(a(a(a(a(a(a(a(a(a(a(a(a(a(a(a(a(a(a(a(a(a(a(a(a(a(a(a)))))))))))))))))))))))))))))))))))))))))))))))))))))))))))))))))))))))))))))))))))",
        10,
        5,
    );
    tally.refused(
        b"BEST\ta(a(a(a(a(a(a(a(a(a(a(a(a(a(a(a(a(a(a(a(a(a(a(a(a(a(a(a(a(a(a(a(a(a(a(a(a(a(a(a(a(a(a(a(a(a(a(a(a(a(a(a(a(a(a(a(a(a(a(a(a(a(a(a(a(a(a(a(a(a(a(a(a(a(a(a(a(a(a(a(a(a(a(a(a))))))))))))))))))))))))))))))))))))))))))))))))))))))))))))))))))))))))))))))))))))",
        4,
        0,
    );
    tally.refused(
        b"FLEX\ta(a(a(a(a(a(a(a(a(a(a(a(a(a(a(a(a(a(a(a(a(a(a(a(a(a(a(a(a(a(a(a(a(a(a(a(a(a(a(a(a(a(a(a(a(a(a(a(a(a(a(a(a(a(a(a(a(a(a(a(a(a)))))))))))))))))))))))))))))))))))))))))))))))))))))))))))))\ta(a(a(a(a(a(a(a(a(a(a(a(a(a(a(a(a(a(a(a(a))))))))))))))))))))",
        10,
        5,
    );
}

/// A line feed ends a line, and none is needed after the last; lines count from 1, places from 0 in the text.
fn texts(tally: &mut Tally) {
    tally.text(b"", 0, 0, None);
    tally.text(b"\n", 1, 1, Some((1, 0, b"")));
    tally.text(b"BEST\ta", 1, 0, None);
    tally.text(b"BEST\ta\n", 1, 0, None);
    tally.text(b"BEST\ta\n\n", 2, 1, Some((2, 7, b"")));
    tally.text(b"BEST\ta\nBEST\tA\tb", 2, 1, Some((2, 7, b"BEST")));
    tally.text(b"BEST\ta\nPAIR\tb\tA(\nEND\t1", 3, 1, Some((2, 14, b"A(")));
    tally.text(b"x\ny\nz", 3, 3, Some((3, 4, b"z")));
    tally.text(b"BEST\ta\r\n", 1, 1, Some((1, 6, b"\r")));
}

/// A text has at most 32,768 bytes, its last line feed counted; none of the lines of a longer one is taken.
fn limits(tally: &mut Tally) {
    tally.text(
        &[b'\n'; 32_768],
        32_768,
        32_768,
        Some((32_768, 32_767, b"")),
    );
    tally.text(&[b'\n'; 32_769], 0, 1, Some((0, 0, b"")));
    let mut whole = [b'\n'; 32_769];
    whole[0] = b'x';
    whole[1] = b'y';
    tally.text(&whole, 0, 1, Some((0, 0, b"xy")));
    tally.text(
        &whole[0..32_768],
        32_766,
        32_766,
        Some((32_766, 32_767, b"")),
    );
}

fn main(rt: HostRuntime) -> io::Result<()> {
    let mut tally = Tally::default();
    kinds(&mut tally);
    bytes(&mut tally);
    counts(&mut tally);
    names(&mut tally);
    builds(&mut tally);
    numbers(&mut tally);
    rules(&mut tally);
    depths(&mut tally);
    lengths(&mut tally);
    texts(&mut tally);
    limits(&mut tally);
    println!(rt; "{} cases, {} wrong", tally.cases, tally.wrong)
}
