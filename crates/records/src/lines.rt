// The lines of a text, one after another, and the reading of one.
ghost use Rattle.std.specs.Prelude.{◌≡◌, ◌+◌, ◌<◌, ◌≤◌, [], ◌∷◌, length, drop, IfSome, IfNone, IfOk, IfErr, OnOk};
ghost use Rattle.records.specs.Faults.{TooLong, Told};
ghost use Rattle.records.specs.Judging.{Breaks, Unbroken};
ghost use Rattle.records.specs.Lines.{longest_text, lines, taken, LinesRejoin};
ghost use Rattle.records.specs.Records.{Reads};

mod iter;

use crate::record::{Line, Record};
use text::cause::LineCause;
use text::fault::Fault;
use text::refusal::Source;
use text::scan::stretch_until;

/// The most bytes that a text may have.
pub const LONGEST_TEXT: usize = 32_768;

/// A line of a text, its line feed not counted: its number from 1, and the place of its first byte in the text.
#[derive(Clone, Copy)]
pub struct TextLine<'a> {
    pub source: Source,
    pub number: u32,
    pub place: u32,
    pub bytes: &'a [u8],
}

/// The lines of a text that are still to come: those from the place `at` on.
// The whole text with a place, and not what is left of it: each line tells its place in the text.
#[derive(Clone, Copy)]
pub struct Lines<'a> {
    source: Source,
    text: &'a [u8],
    at: usize,
    number: u32,
    ghost short: { length text.now ≤ longest_text },
    ghost inside: { at ≤ length text.now },
    ghost counted: { number ≤ at },
}

/// Refuses a text that is too long.
pub fn check_text(source: Source, text: &[u8]) -> Result<(), Fault>
    ensures granted { OnOk result (length text.now ≤ longest_text) }
    ensures refused { IfErr result (λ f. (longest_text < length text.now) × TooLong source f) }
{
    if text.len() > LONGEST_TEXT {
        // line 0 is the whole text, as is promised of this refusal
        return Err(Fault::new(source, 0, 0, LineCause::TextTooLong.into()));
    }
    Ok(())
}

/// The line that begins at `at`, and where the next one begins.
fn line_at<'a>(text: &'a [u8], at: usize) -> (&'a [u8], usize)
    requires { at < length text.now }
    ensures lines { lines (drop at text.now) ≡ result.0.now ∷ lines (drop result.1 text.now) }
    ensures next { (at < result.1) × (result.1 ≤ length text.now) }
{
    let bytes = stretch_until(text, at, |b| b == b'\n');
    let end = at + bytes.len();
    if end < text.len() {
        return (bytes, end + 1);
    }
    (bytes, end)
}

impl<'a> Lines<'a> {
    /// All the lines of a text; none of a text that is too long.
    pub fn of(source: Source, text: &'a [u8]) -> Lines<'a>
        ensures source { result.source ≡ source }
        ensures text { result.text.now ≡ taken text.now }
        ensures at { (result.at ≡ 0) × (result.number ≡ 0) }
    {
        let text = if text.len() <= LONGEST_TEXT {
            text
        } else {
            &text[0..0]
        };
        Lines {
            source,
            text,
            at: 0,
            number: 0,
        }
    }

    /// The next line, if any is left; `Iterator::next` is this call, whose name is promised.
    pub fn next_line(&mut self) -> Option<TextLine<'a>>
        ensures text { self.new.text.now ≡ self.old.text.now }
        ensures source { self.new.source ≡ self.old.source }
        ensures none { IfNone result ((lines (drop self.old.at self.old.text.now) ≡ []) × (self.new.at ≡ self.old.at) × (self.new.number ≡ self.old.number)) }
        ensures next { IfSome result (λ l. lines (drop self.old.at self.old.text.now) ≡ l.bytes.now ∷ lines (drop self.new.at self.old.text.now)) }
        ensures line { IfSome result (λ l. (l.source ≡ self.old.source) × (l.place ≡ self.old.at) × (l.number ≡ self.old.number + 1) × (self.new.number ≡ self.old.number + 1)) }
    {
        let place = self.at;
        if place == self.text.len() {
            return None;
        }
        let (bytes, next) = line_at(self.text, place);
        let number = self.number + 1;
        self.at = next;
        self.number = number;
        Some(TextLine {
            source: self.source,
            number,
            place: place as u32,
            bytes,
        })
    }
}

impl<'a> TextLine<'a> {
    /// The record that the line says; or the fault, by the first refusal whose condition holds.
    pub fn read(&self) -> Result<Record<'a>, Fault>
        ensures reads { IfOk result (Reads self.now.place self.now.bytes.now) }
        ensures granted { OnOk result (Unbroken (Breaks self.now.place self.now.bytes.now)) }
        ensures refused { IfErr result (Told self.now.source self.now.number (Breaks self.now.place self.now.bytes.now)) }
    {
        let TextLine { source, number, .. } = *self;
        let line = Line {
            bytes: self.bytes,
            start: self.place as usize,
        };
        line.read().map_err(|refusal| Fault::new(source, number, refusal.place, refusal.layer))
    }
}

/// The lines of a text, each with a line feed, are the text, to which at most the last line feed was added; no line has one in it.
pub fn lines_rejoin()
    ensures { LinesRejoin }
{}
