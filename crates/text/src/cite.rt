// What a fault cites: the bytes of its text from its place to the next tab, line feed or end.
ghost use Rattle.std.specs.Prelude.{◌≡◌, drop};
ghost use Rattle.text.specs.Citing.{chosen, stretch, source_word, sources, sources-complete};

use crate::fault::Fault;
use crate::refusal::Source;
use crate::scan::stretch_until;
use crate::word::Word;

/// The text that a source names.
pub fn text_of<'a>(log: &'a [u8], sheet: &'a [u8], source: Source) -> &'a [u8]
    ensures { result.now ≡ chosen source log.now sheet.now }
{
    match source {
        Source::Log => log,
        Source::Sheet => sheet,
    }
}

/// The bytes that a fault cites, borrowed from the log text or the sheet text; past the end of the text nothing.
pub fn cited<'a>(log: &'a [u8], sheet: &'a [u8], fault: &Fault) -> &'a [u8]
    ensures { result.now ≡ stretch (drop fault.now.place (chosen fault.now.source log.now sheet.now)) }
{
    stretch_until(
        text_of(log, sheet, fault.source),
        fault.place,
        |b| b == b'\t' || b == b'\n',
    )
}

impl Word for Source {
    ghost spelling = { source_word };

    ghost values = { sources };

    ghost complete = { sources-complete };

    fn all() -> &'static [Source] {
        &[Source::Log, Source::Sheet]
    }

    fn word(self) -> &'static [u8] {
        match self {
            Source::Log => b"LOG",
            Source::Sheet => b"SHEET",
        }
    }
}
