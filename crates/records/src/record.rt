// Records: a line's kind and its fields, as read.
ghost use Rattle.std.specs.Prelude.{◌≡◌, ℕ, ◌+◌, ◌^◌, ◌<◌, length, MatchOption, MatchResult};
ghost use Rattle.records.specs.Fields.{fields, after};
ghost use Rattle.records.specs.Forms.{Fits, forms};
ghost use Rattle.records.specs.Judging.{line_byte, FirstBad, Breaks, FieldBreaks, FirstBreak, Unbroken};
ghost use Rattle.text.specs.Kinds.{word, rule_word};
ghost use Rattle.records.specs.Numbers.{IsNumber, value};
ghost use Rattle.records.specs.Records.{kind_of, Headed, Granted, Reads, NumberIn};
ghost use Rattle.records.specs.declared.form.Form.TheVariants as form;

use crate::field::{Field, Number, Rest};
use crate::form::Form;
use crate::number::value_of;
use text::cause::LineCause;
use text::kind::{Kind, Rule};
use text::refusal::Refusal;
use text::scan::stretch_until;
use text::word::Word;

/// The most bytes that a line may have, its line feed not counted.
pub const LONGEST_LINE: usize = 256;

/// A line that was read, by its kind; each field is borrowed from the text.
#[derive(Clone, Copy)]
pub enum Record<'a> {
    Log { version: Field<'a> },
    Flex { left: Field<'a>, right: Field<'a> },
    End { count: Number<'a> },
    Sheet { named: Field<'a>, rule: Rule },
    Cost { name: Field<'a>, price: Number<'a> },
    Stock { name: Field<'a> },
    Pair { left: Field<'a>, right: Field<'a> },
    Best { build: Field<'a> },
}

impl Record<'_> {
    /// The kind of the line.
    pub fn kind(&self) -> Kind
        ensures { result ≡ kind_of self.now }
    {
        match self {
            Record::Log { .. } => Kind::Log,
            Record::Flex { .. } => Kind::Flex,
            Record::End { .. } => Kind::End,
            Record::Sheet { .. } => Kind::Sheet,
            Record::Cost { .. } => Kind::Cost,
            Record::Stock { .. } => Kind::Stock,
            Record::Pair { .. } => Kind::Pair,
            Record::Best { .. } => Kind::Best,
        }
    }
}

/// Whether a byte may stand in a line: a tab, or 33 to 126.
fn is_line_byte(b: u8) -> bool
    ensures { result ≡ line_byte b }
{
    b == b'\t' || b.is_ascii_graphic()
}

/// A line, and where it begins in its text.
#[derive(Clone, Copy)]
pub(crate) struct Line<'a> {
    pub(crate) bytes: &'a [u8],
    pub(crate) start: usize,
    ghost fits: { start + length bytes.now < 2 ^ 64 },
}

impl<'a> Line<'a> {
    /// The place of the first byte that may not stand in a line.
    fn first_bad(self) -> Option<usize>
        ensures { MatchOption result ((place : ℕ) → FirstBad self.entry.start self.entry.bytes.now place → ⊥) (FirstBad self.entry.start self.entry.bytes.now) }
    {
        let offset = self.bytes.iter().position(|b| !is_line_byte(*b))?;
        Some(self.start + offset)
    }

    /// The kind of a line that is neither too long nor has a bad byte.
    fn kind(self) -> Result<Kind, Refusal>
        ensures { MatchResult result (Headed self.entry.start self.entry.bytes.now) (FirstBreak (Breaks self.entry.start self.entry.bytes.now)) }
    {
        if self.bytes.len() > LONGEST_LINE {
            return Err(Refusal {
                layer: LineCause::LineTooLong.into(),
                place: self.start,
            });
        }
        if let Some(place) = self.first_bad() {
            return Err(Refusal {
                layer: LineCause::BadByte.into(),
                place,
            });
        }
        Kind::of(stretch_until(self.bytes, 0, |b| b == b'\t')).ok_or(Refusal {
            layer: LineCause::UnknownKind.into(),
            place: self.start,
        })
    }

    /// The record that the line says.
    pub(crate) fn read(self) -> Result<Record<'a>, Refusal>
        ensures { MatchResult result (λ d. Reads self.entry.start self.entry.bytes.now d × Unbroken (Breaks self.entry.start self.entry.bytes.now)) (FirstBreak (Breaks self.entry.start self.entry.bytes.now)) }
    {
        let kind = self.kind()?;
        let word = kind.word().len();
        let rest = Rest {
            start: self.start,
            at: self.start + word,
            bytes: &self.bytes[word..],
        };
        record_of(kind, rest)
    }
}

/// A number field with its value.
fn numbered(field: Field<'_>) -> Number<'_>
    requires { IsNumber field.bytes.now }
    ensures bytes { result.bytes.now ≡ field.entry.bytes.now }
    ensures place { result.place ≡ field.entry.place }
    ensures value { result.value ≡ value field.entry.bytes.now }
{
    Number {
        bytes: field.bytes,
        place: field.place,
        value: value_of(field.bytes),
    }
}

/// The price rule that a field names.
fn rule_named(bytes: &[u8]) -> Rule
    requires { Fits form.Rule bytes.now }
    ensures { bytes.now ≡ rule_word result }
{
    Rule::of(bytes).unwrap()
}

/// The record of a line of a kind, from the fields behind the kind's word.
fn record_of<'a>(kind: Kind, rest: Rest<'a>) -> Result<Record<'a>, Refusal>
    requires { rest.at ≡ rest.start + length (word kind) }
    ensures { MatchResult result (Granted rest.entry.start kind (after rest.entry.bytes.now)) (FirstBreak (FieldBreaks rest.entry.start (forms kind) (after rest.entry.bytes.now) (rest.entry.at + 1))) }
{
    match kind {
        Kind::Log => {
            let version = rest.one(Form::Version)?;
            Ok(Record::Log { version })
        }
        Kind::Flex => {
            let (left, right) = rest.two(Form::Build, Form::Build)?;
            Ok(Record::Flex { left, right })
        }
        Kind::End => {
            let count = rest.one(Form::Number)?;
            Ok(Record::End {
                count: numbered(count),
            })
        }
        Kind::Sheet => {
            let named = rest.one(Form::Rule)?;
            Ok(Record::Sheet {
                named,
                rule: rule_named(named.bytes),
            })
        }
        Kind::Cost => {
            let (name, price) = rest.two(Form::Name, Form::Price)?;
            Ok(Record::Cost {
                name,
                price: numbered(price),
            })
        }
        Kind::Stock => {
            let name = rest.one(Form::Name)?;
            Ok(Record::Stock { name })
        }
        Kind::Pair => {
            let (left, right) = rest.two(Form::Build, Form::Build)?;
            Ok(Record::Pair { left, right })
        }
        Kind::Best => {
            let build = rest.one(Form::Build)?;
            Ok(Record::Best { build })
        }
    }
}
