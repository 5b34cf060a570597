// The layout of a book leaves no byte of its rows open.
ghost use Rattle.book.specs.Layout.{Pins};

/// Of the rows before a call and the state after it there is one content of the rows after.
pub fn layout_pins_rows()
    ensures { Pins }
{}
