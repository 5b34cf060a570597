// The rule *stock*: a build costs what it lacks, and then how many symbols it has.
ghost use Rattle.std.specs.Prelude.{◌≡◌, ◌+◌, ◌<◌, ◌≤◌, replicate, MatchResult};
ghost use Rattle.price.specs.Shortages.{on_list, lacks, smaller, shortage, FitsPair, Listing, Enlisted};
ghost use Rattle.std.proofs.Common.{rules};

use crate::list::List;
use crate::rule::{PriceRule, STOP};
use text::cause::Layer;

/// How many symbols are not on the list, and how many there are.
#[derive(Clone, Copy, Debug, PartialEq, Eq, PartialOrd, Ord)]
pub struct Shortage {
    pub missing: u32,
    pub names: u32,
}

impl Shortage {
    // The sum, of which both numbers stop together.
    fn saturating_add(self, other: Shortage) -> Shortage
        ensures { result ≡ shortage (self.missing + other.missing) (self.names + other.names) }
    {
        let missing = self.missing.saturating_add(other.missing);
        let names = if missing < STOP {
            self.names.saturating_add(other.names)
        } else {
            STOP
        };
        Shortage { missing, names }
    }
}

/// Up to 64 symbols that are in stock.
#[derive(Clone, Copy)]
pub struct Stock {
    symbols: List<()>,
}

impl Stock {
    /// A stock list that lists nothing.
    pub fn new() -> Stock
        ensures after { result.symbols.rows ≡ replicate 64 None }
    {
        Stock {
            symbols: List::new(),
        }
    }

    /// Whether a symbol is on the list.
    pub fn has(&self, symbol: u32) -> bool
        ensures { result ≡ on_list self.now.symbols.rows symbol }
    {
        self.symbols.get(symbol).is_some()
    }

    /// Puts a symbol on the list, in the first free row unless it is listed.
    pub fn list(&mut self, symbol: u32) -> Result<(), Layer>
        ensures after { Listing self.old.symbols.rows symbol result self.new.symbols.rows }
        ensures value { MatchResult result (λ _. Enlisted self.old.symbols.rows symbol self.new.symbols.rows) (λ _. self.new.symbols.rows ≡ self.old.symbols.rows) }
    {
        self.symbols.set(symbol, ())?;
        Ok(())
    }
}

impl PriceRule for Stock {
    type Cost = Shortage;

    ghost fits = { FitsPair };

    ghost below = { smaller };

    ghost alone = { λ s x. shortage (lacks s.symbols.rows x) 1 };

    ghost one = { λ s x a. shortage (lacks s.symbols.rows x + a.missing) (1 + a.names) };

    ghost two = { λ s x a b. shortage (lacks s.symbols.rows x + a.missing + b.missing) (1 + a.names + b.names) };

    ghost fitting = { Prim.search rules };

    ghost order = { Prim.search rules };

    ghost growth = { Prim.search rules };

    ghost weight = { Prim.search rules };

    fn cost_alone(&self, symbol: u32) -> Shortage {
        Shortage {
            missing: u32::from(!self.has(symbol)),
            names: 1,
        }
    }

    fn cost_one(&self, symbol: u32, part: Shortage) -> Shortage {
        self.cost_alone(symbol).saturating_add(part)
    }

    fn cost_two(&self, symbol: u32, left: Shortage, right: Shortage) -> Shortage {
        self.cost_alone(symbol)
            .saturating_add(left)
            .saturating_add(right)
    }

    fn is_below(&self, a: Shortage, b: Shortage) -> bool {
        a < b
    }
}
