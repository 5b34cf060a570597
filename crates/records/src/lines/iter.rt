// The lines of a text as an iterator; in a file of its own, so that its definitions may name the struct.
ghost use Rattle.records.specs.Taking.{left, NextLine};
ghost use Rattle.std.specs.Iterator.{item_count};

use crate::lines::{Lines, TextLine};

impl<'a> Iterator for Lines<'a> {
    type Item = TextLine<'a>;

    ghost next_gives = { NextLine };

    ghost remaining = { item_count left };

    fn next(&mut self) -> Option<TextLine<'a>> {
        self.next_line()
    }
}
