// A list of up to 64 symbols, each with a value: what the bill and the stock hold.
ghost use Rattle.std.specs.Prelude.{◌≡◌, ◌<◌, IfSome, MatchResult, is_none, position, replicate, ⊤};
ghost use Rattle.std.specs.Option.{option_or};
ghost use Rattle.price.specs.Lists.{is_for, value_of, Valuing, Revalued};

use std::alloc::AllocError;
use text::cause::BookCause;

/// A symbol that is on a list, with its value.
#[derive(Clone, Copy)]
pub struct Listed<V> {
    symbol: u32,
    value: V,
}

/// Rows of which each lists a symbol or is free: memory of a fixed size, for a list lies in a rule and allocates nothing.
#[derive(Copy)]
pub struct List<V> {
    rows: [Option<Listed<V>>; 64],
}

// By hand, since the derived one asks of the rows' size at each type of values.
impl<V: Copy> Clone for List<V> {
    ghost is_clone = { λ list copy. copy ≡ list };

    ghost is_infallible = { λ _. ⊤ };

    fn clone(&self) -> Result<Self, AllocError> {
        Ok(*self)
    }
}

impl<V: Copy> List<V> {
    /// A list of nothing.
    pub fn new() -> Self
        ensures { result.rows ≡ replicate 64 None }
    {
        List { rows: [None; 64] }
    }

    // The first row that lists the symbol.
    fn row_for(&self, symbol: u32) -> Option<usize>
        ensures first { result ≡ position (is_for symbol) self.now.rows }
        ensures within { IfSome result (λ i. i < 64) }
    {
        self.rows
            .iter()
            .position(|row| row.is_some_and(|listed| listed.symbol == symbol))
    }

    // The first row that is free.
    fn free_row(&self) -> Option<usize>
        ensures { result ≡ position is_none self.now.rows }
    {
        self.rows.iter().position(|row| row.is_none())
    }

    // The row that a symbol is given: its own where it is listed, else the first free one, which is looked for then alone.
    fn place(&self, symbol: u32) -> Option<usize>
        ensures { result ≡ option_or (position (is_for symbol) self.now.rows) (position is_none self.now.rows) }
    {
        match self.row_for(symbol) {
            None => self.free_row(),
            known => known,
        }
    }

    /// The value of a symbol, if it is listed.
    pub fn get(&self, symbol: u32) -> Option<V>
        ensures { result ≡ value_of self.now.rows symbol }
    {
        let i = self.row_for(symbol)?;
        self.rows[i].map(|listed| listed.value)
    }

    /// Gives a symbol a value: in its row where it is listed, else in the first free row.
    pub fn set(&mut self, symbol: u32, value: V) -> Result<(), BookCause>
        ensures after { Valuing self.old.rows symbol value result self.new.rows }
        ensures value { MatchResult result (λ _. Revalued self.old.rows symbol value self.new.rows) (λ _. self.new.rows ≡ self.old.rows) }
    {
        let i = self.place(symbol).ok_or(BookCause::ListFull)?;
        // The one row that changes is lent.
        self.rows[i].replace(Listed { symbol, value });
        Ok(())
    }
}
