// The rule *bill*: a build costs what its symbols cost together.
ghost use Rattle.std.specs.Prelude.{◌≡◌, ℕ, ◌+◌, ◌<◌, ◌≤◌, replicate, MatchResult, nat_lt};
ghost use Rattle.price.specs.Prices.{price_of, Setting, Repriced};
ghost use Rattle.price.specs.Stops.{stop, stopped};
ghost use Rattle.std.proofs.Common.{rules};

use crate::list::List;
use crate::rule::PriceRule;
use text::cause::{FieldCause, Layer};

/// The prices of up to 64 symbols; a symbol that is not listed costs 0.
#[derive(Clone, Copy)]
pub struct Bill {
    prices: List<u32>,
}

impl Bill {
    /// A bill that lists nothing.
    pub fn new() -> Bill
        ensures after { result.prices.rows ≡ replicate 64 None }
        ensures value { (x : ℕ) → price_of result.prices.rows x ≡ 0 }
    {
        Bill {
            prices: List::new(),
        }
    }

    /// The price of a symbol.
    pub fn price(&self, symbol: u32) -> u32
        ensures { result ≡ price_of self.now.prices.rows symbol }
    {
        self.prices.get(symbol).unwrap_or(0)
    }

    /// Sets the price of a symbol: in its row where it is listed, else in the first free row.
    pub fn set(&mut self, symbol: u32, price: u32) -> Result<(), Layer>
        ensures after { Setting self.old.prices.rows symbol price result self.new.prices.rows }
        ensures value { MatchResult result (λ _. Repriced self.old.prices.rows symbol price self.new.prices.rows) (λ _. self.new.prices.rows ≡ self.old.prices.rows) }
    {
        // as for a price in a line: `records` is no part of what this crate rests on
        if price > 10_000 {
            return Err(FieldCause::Broken.into());
        }
        self.prices.set(symbol, price)?;
        Ok(())
    }
}

impl PriceRule for Bill {
    type Cost = u32;

    ghost fits = { λ a. a ≤ stop };

    ghost below = { λ a b. nat_lt a b };

    ghost alone = { λ b x. stopped (price_of b.prices.rows x) };

    ghost one = { λ b x a. stopped (price_of b.prices.rows x + a) };

    ghost two = { λ b x a c. stopped (price_of b.prices.rows x + a + c) };

    ghost fitting = { Prim.search rules };

    ghost order = { Prim.search rules };

    ghost growth = { Prim.search rules };

    ghost weight = { Prim.search rules };

    fn cost_alone(&self, symbol: u32) -> u32 {
        self.price(symbol)
    }

    fn cost_one(&self, symbol: u32, part: u32) -> u32 {
        self.price(symbol).saturating_add(part)
    }

    fn cost_two(&self, symbol: u32, left: u32, right: u32) -> u32 {
        self.price(symbol)
            .saturating_add(left)
            .saturating_add(right)
    }

    fn is_below(&self, a: u32, b: u32) -> bool {
        a < b
    }
}
