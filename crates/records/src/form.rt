// The forms of fields: what a field of a line has to be.
ghost use Rattle.std.specs.Prelude.{Decides, MatchBool};
ghost use Rattle.records.specs.Forms.{Fits, Deep, Bad, Fine};

use crate::number::{is_number, is_number_to};
use text::build::{is_build, too_deep};
use text::cause::FieldCause;
use text::kind::{Rule, is_version};
use text::name::is_name;
use text::word::Word;

/// The deepest build that a line may have, a name alone being 1.
pub const DEEPEST: usize = 32;

/// The highest price.
pub const DEAREST: u32 = 10_000;

/// What a field of a line has to be.
#[derive(Clone, Copy)]
pub enum Form {
    Version,
    Build,
    Name,
    Number,
    Price,
    Rule,
}

impl Form {
    /// Whether a field has its form, whatever its depth.
    fn fits(self, bytes: &[u8]) -> bool
        ensures { Decides result (Fits self bytes.now) }
    {
        match self {
            Form::Version => is_version(bytes),
            Form::Build => is_build(bytes),
            Form::Name => is_name(bytes),
            Form::Number => is_number(bytes),
            Form::Price => is_number_to(bytes, DEAREST),
            Form::Rule => Rule::of(bytes).is_some(),
        }
    }

    /// Whether a field is a build that is nested deeper than a line may have it.
    fn nested(self, bytes: &[u8]) -> bool
        ensures { Decides result (Deep self bytes.now) }
    {
        match self {
            Form::Build => too_deep(bytes, DEEPEST),
            Form::Version | Form::Name | Form::Number | Form::Price | Form::Rule => false,
        }
    }

    /// Whether a field of the form is refused for the cause.
    // By the cause and not by a closure: the refusal tells the cause, and the two would have to agree.
    pub(crate) fn refuses(self, bytes: &[u8], cause: FieldCause) -> bool
        ensures { MatchBool result (Bad cause self bytes.now) (Fine cause self bytes.now) }
    {
        match cause {
            FieldCause::Broken => !self.fits(bytes),
            FieldCause::TooDeep => self.nested(bytes),
            FieldCause::WrongTotal => false,
        }
    }
}
