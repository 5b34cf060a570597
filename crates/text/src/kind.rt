// The kinds of lines and the price rules, by their words.
ghost use Rattle.std.specs.Prelude.{◌≡◌, Decides};
ghost use Rattle.text.specs.Kinds.{version, word, kinds, kinds-complete, rule_word, price_rules, price_rules-complete};

use crate::word::Word;

/// What a line is about; its first field is the kind's word.
#[derive(Clone, Copy, Debug, PartialEq, Eq)]
pub enum Kind {
    Log,
    Flex,
    End,
    Sheet,
    Cost,
    Stock,
    Pair,
    Best,
}

/// The price rule that a sheet picks.
#[derive(Clone, Copy, Debug, PartialEq, Eq)]
pub enum Rule {
    Bill,
    Stock,
    Steps,
}

/// Whether the bytes name the version of logs, which is 1.
pub fn is_version(bytes: &[u8]) -> bool
    ensures { Decides result (bytes.now ≡ version) }
{
    bytes == b"1".as_slice()
}

impl Word for Kind {
    ghost spelling = { word };

    ghost values = { kinds };

    ghost complete = { kinds-complete };

    fn all() -> &'static [Kind] {
        &[
            Kind::Log,
            Kind::Flex,
            Kind::End,
            Kind::Sheet,
            Kind::Cost,
            Kind::Stock,
            Kind::Pair,
            Kind::Best,
        ]
    }

    fn word(self) -> &'static [u8] {
        match self {
            Kind::Log => b"LOG",
            Kind::Flex => b"FLEX",
            Kind::End => b"END",
            Kind::Sheet => b"SHEET",
            Kind::Cost => b"COST",
            Kind::Stock => b"STOCK",
            Kind::Pair => b"PAIR",
            Kind::Best => b"BEST",
        }
    }
}

impl Word for Rule {
    ghost spelling = { rule_word };

    ghost values = { price_rules };

    ghost complete = { price_rules-complete };

    fn all() -> &'static [Rule] {
        &[Rule::Bill, Rule::Stock, Rule::Steps]
    }

    fn word(self) -> &'static [u8] {
        match self {
            Rule::Bill => b"bill",
            Rule::Stock => b"stock",
            Rule::Steps => b"steps",
        }
    }
}
