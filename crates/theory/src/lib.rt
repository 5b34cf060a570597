// The mathematics of builds: each function stands for a theorem, which is its contract.
#![tactic(auto)]

ghost use Rattle.theory.specs.Statements.{OneReading, DepthWithin, Completeness, Exactness, CheapestAt};
ghost use Rattle.theory.specs.Steps.{Closing, Settling};
ghost use Rattle.theory.specs.Spelling.{PricedStands};
ghost use Rattle.theory.specs.Productions.{ListedExact};
ghost use Rattle.theory.specs.Pinned.{Pinned, PinnedLent};
ghost use Rattle.theory.specs.Examples.{Examples};

// A text is the text of one lawful build at most.
pub fn text_reads_one_way()
    ensures { OneReading }
{}

// A lawful build is no deeper than its text is long.
pub fn depth_within_text()
    ensures { DepthWithin }
{}

// In a closed table two nodes are equal exactly if they are of one class.
pub fn classes_decide_equality()
    ensures { Completeness }
{}

// In a closed table the grammar of the classes generates exactly the builds that are equal to a node's build.
pub fn grammar_spells_class()
    ensures { Exactness }
{}

// Whatever the costs are: where choices are settled, what they spell is equal to the node's build, and nothing equal is cheaper.
pub fn cheapest_choices<C>()
    ensures { CheapestAt C }
{}

// Classes that start as single nodes and merge where nodes are equal stay sound, and each merge leaves fewer.
pub fn closing_steps()
    ensures { Closing }
{}

// Whatever the costs are: choosing a cheapest node that can be chosen, class by class, goes on to the end and settles all choices.
pub fn settling_steps<C>()
    ensures { Settling C }
{}

// Where the choices of a book are those of the stages, by a lawful rule, each node spells one build, equal to its own; nothing equal is
// cheaper, and equal nodes spell alike.
pub fn priced_books_stand()
    ensures { PricedStands }
{}

// The productions listed for a node's class spell exactly the builds that are equal to the node's build.
pub fn listing_spells_class()
    ensures { ListedExact }
{}

// What the relations of the calls on a book say leaves nothing open: one answer, and one state after.
pub fn calls_leave_nothing_open()
    ensures { Pinned }
{}

// Nor do the relations of the calls that are lent memory, pricing, spelling and listing: one content of what was lent, too.
pub fn lent_calls_leave_nothing_open()
    ensures { PinnedLent }
{}

// The worked examples of equality stand, each with its answer.
pub fn examples_stand()
    ensures { Examples }
{}
