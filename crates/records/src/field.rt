// Fields of a line, borrowed from the text, each with its place in it.
ghost use Rattle.std.specs.Prelude.{◌≡◌, ℕ, ◌+◌, ◌^◌, ◌<◌, [], ◌∷◌, length, MatchOption, MatchResult};
ghost use Rattle.std.specs.Iterator.{YieldsFirstBy, item_count};
ghost use Rattle.records.specs.Fields.{after, placed, seen, One, Two, wrong_count, field_refusal};
ghost use Rattle.records.specs.Forms.{Bad, Fine};
ghost use Rattle.records.specs.Judging.{FirstBreak, FieldBreaks};

use crate::form::Form;
use text::cause::{FieldCause, LineCause};
use text::refusal::Refusal;
use text::scan::stretch_until;

/// A field: its bytes, and the place of its first byte in the text.
#[derive(Clone, Copy)]
pub struct Field<'a> {
    pub bytes: &'a [u8],
    pub place: usize,
}

/// A number field: its bytes and place, and the value that its digits say.
// Its bytes and place are fields, and no `Field` in it: callers read them by these names.
#[derive(Clone, Copy)]
pub struct Number<'a> {
    pub bytes: &'a [u8],
    pub place: usize,
    pub value: u32,
}

/// The fields of a line that are still to come, each behind a tab: where the line begins in its text, what is left of it, and where that begins.
#[derive(Clone, Copy)]
pub(crate) struct Rest<'a> {
    pub(crate) start: usize,
    pub(crate) at: usize,
    pub(crate) bytes: &'a [u8],
    ghost fits: { at + length bytes.now < 2 ^ 64 },
}

impl<'a> Iterator for Rest<'a> {
    type Item = Field<'a>;

    ghost next_gives = { YieldsFirstBy seen (λ s. placed (s.at + 1) (after s.bytes.now)) };

    ghost remaining = { item_count (λ s. placed (s.at + 1) (after s.bytes.now)) };

    fn next(&mut self) -> Option<Field<'a>> {
        let (_, behind) = self.bytes.split_first()?;
        let field = Field {
            bytes: stretch_until(behind, 0, |b| b == b'\t'),
            place: self.at + 1,
        };
        self.bytes = &behind[field.bytes.len()..];
        self.at = field.place + field.bytes.len();
        Some(field)
    }
}

impl Field<'_> {
    /// Refuses the field where its form refuses it for the cause.
    fn check(self, form: Form, cause: FieldCause) -> Result<(), Refusal>
        ensures { MatchResult result (λ _. Fine cause form self.entry.bytes.now) (λ e. (e ≡ field_refusal cause self.entry.place) × Bad cause form self.entry.bytes.now) }
    {
        if form.refuses(self.bytes, cause) {
            return Err(Refusal {
                layer: cause.into(),
                place: self.place,
            });
        }
        Ok(())
    }
}

impl<'a> Rest<'a> {
    /// What the line is refused for where its fields are too few or too many.
    fn wrong_count(self) -> Refusal
        ensures { result ≡ wrong_count self.entry.start }
    {
        Refusal {
            layer: LineCause::WrongCount.into(),
            place: self.start,
        }
    }

    /// The one field that is left, of a form.
    pub(crate) fn one(mut self, form: Form) -> Result<Field<'a>, Refusal>
        ensures { MatchResult result (One self.entry.at form (after self.entry.bytes.now)) (FirstBreak (FieldBreaks self.entry.start (form ∷ []) (after self.entry.bytes.now) (self.entry.at + 1))) }
    {
        // Read before a field is taken: the iterator's law speaks of the fields alone, and not of where the line begins.
        let wrong_count = self.wrong_count();
        let only = self.next().ok_or(wrong_count)?;
        if !self.bytes.is_empty() {
            return Err(wrong_count);
        }
        only.check(form, FieldCause::Broken)?;
        only.check(form, FieldCause::TooDeep)?;
        Ok(only)
    }

    /// The two fields that are left, each of its form.
    // `one` and `two` are two functions, since a result that holds an array of fields gets no proof.
    pub(crate) fn two(mut self, left: Form, right: Form) -> Result<(Field<'a>, Field<'a>), Refusal>
        ensures { MatchResult result (λ p. Two self.entry.at left right (after self.entry.bytes.now) p.0 p.1) (FirstBreak (FieldBreaks self.entry.start (left ∷ right ∷ []) (after self.entry.bytes.now) (self.entry.at + 1))) }
    {
        let wrong_count = self.wrong_count();
        let first = self.next().ok_or(wrong_count)?;
        let second = self.next().ok_or(wrong_count)?;
        if !self.bytes.is_empty() {
            return Err(wrong_count);
        }
        first.check(left, FieldCause::Broken)?;
        second.check(right, FieldCause::Broken)?;
        first.check(left, FieldCause::TooDeep)?;
        second.check(right, FieldCause::TooDeep)?;
        Ok((first, second))
    }
}
