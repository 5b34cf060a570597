// The causes of refusals, by the layer that they belong to, and their numbers.
ghost use Rattle.std.specs.Prelude.{◌≡◌};
ghost use Rattle.text.specs.Causes.{number_of};
ghost use Rattle.text.specs.declared.cause.Layer.TheVariants as layer;

/// What a whole text or a whole line is refused for, with the refusal's number.
#[derive(Clone, Copy, Debug, PartialEq, Eq)]
pub enum LineCause {
    TextTooLong = 3,
    LineTooLong = 4,
    BadByte = 5,
    UnknownKind = 6,
    WrongState = 7,
    WrongCount = 8,
}

/// What one field of a line is refused for, with the refusal's number.
#[derive(Clone, Copy, Debug, PartialEq, Eq)]
pub enum FieldCause {
    Broken = 9,
    TooDeep = 10,
    WrongTotal = 11,
}

/// What a book, its lists or its tables refuse, with the refusal's number.
#[derive(Clone, Copy, Debug, PartialEq, Eq)]
pub enum BookCause {
    NoSymbol = 1,
    NoNode = 2,
    ListFull = 12,
    NamesFull = 13,
    NodesFull = 14,
    EquationsFull = 15,
    NotPriced = 16,
    TooShort = 17,
}

/// The layer that refuses, with that layer's cause.
#[derive(Clone, Copy, Debug, PartialEq, Eq)]
pub enum Layer {
    Field(FieldCause),
    Line(LineCause),
    Book(BookCause),
}

impl From<FieldCause> for Layer {
    ghost from_gives = { λ c l. l ≡ layer.Field c };

    fn from(cause: FieldCause) -> Layer {
        Layer::Field(cause)
    }
}

impl From<LineCause> for Layer {
    ghost from_gives = { λ c l. l ≡ layer.Line c };

    fn from(cause: LineCause) -> Layer {
        Layer::Line(cause)
    }
}

impl From<BookCause> for Layer {
    ghost from_gives = { λ c l. l ≡ layer.Book c };

    fn from(cause: BookCause) -> Layer {
        Layer::Book(cause)
    }
}

impl From<Layer> for u8 {
    ghost from_gives = { λ l n. n ≡ number_of l };

    fn from(layer: Layer) -> u8 {
        match layer {
            Layer::Field(field) => field as u8,
            Layer::Line(line) => line as u8,
            Layer::Book(book) => book as u8,
        }
    }
}

// The name by which callers ask for it; a conversion that is asked for by `into` is the same.
impl Layer {
    /// The refusal's number.
    pub fn number(self) -> u8
        ensures { result ≡ number_of self }
    {
        self.into()
    }
}
