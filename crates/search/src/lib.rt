//! The bounded stack search as a definition over any store and any block, and its promise over every run. Theory
//! alone: a function here stands for the theorem that its contract states.
#![tactic(auto)]

ghost use Rattle.search.specs.Stores.{Store, StoreLaws, CapacityLaws, ruled};
ghost use Rattle.std.specs.Prelude.{ℕ};
ghost use Rattle.search.specs.Calls.{Loaded};
ghost use Rattle.search.specs.Clean.{CleanComesFirst, Pauses, DoAsOne};
ghost use Rattle.search.specs.Example.{two_bits, example_calls, example_answers, checked_bits, checked_calls, checked_answers, AnsweredBy, SecondParityStands};
ghost use Rattle.search.specs.Laws.{MakesAtMost, StaysExact};
ghost use Rattle.search.specs.Paths.{BlockLaws};
ghost use Rattle.search.specs.Promise.{NothingCheaperHidden, ShownFaithfully, StepsBounded, Promise, OfEveryRun};

// The store of the rules, which keeps the first S candidates in order, is a store that the search may use.
pub fn rules_make_a_store()
    ensures store { StoreLaws ruled }
    ensures capacity { CapacityLaws ruled }
{}

// An admissible word that is not shown costs at least the bound, and what is shown while the floor is no less than its
// cost is the cheapest left.
pub fn nothing_cheaper_hidden<S>()
    ensures { (m : Store S) → StoreLaws m → OfEveryRun m NothingCheaperHidden }
{}

// Shown words are admissible, at their exact cost, in order of cost, and none comes twice.
pub fn shown_faithfully<S>()
    ensures { (m : Store S) → StoreLaws m → OfEveryRun m ShownFaithfully }
{}

// The steps reported with a shown word are at most the lawful paths that cost no more than it.
pub fn steps_bounded<S>()
    ensures { (m : Store S) → StoreLaws m → OfEveryRun m StepsBounded }
{}

// All three, of one run.
pub fn promise_kept<S>()
    ensures { (m : Store S) → StoreLaws m → OfEveryRun m Promise }
{}

// An advance of b makes at most b steps.
pub fn advance_keeps_to_budget<S>()
    ensures { (m : Store S) (budget : ℕ) (d : Loaded S) → MakesAtMost m budget budget d }
{}

// An advance that pauses and the next one do what one advance of both budgets does.
pub fn pauses_change_nothing<S>()
    ensures { (m : Store S) (first second : ℕ) (d : Loaded S) → Pauses m first d → DoAsOne m first second d }
{}

// A word that costs nothing, where each bit that leaves it costs something, is the first shown, after N + 1 steps.
pub fn clean_word_comes_first<S>()
    ensures { (m : Store S) → StoreLaws m → CapacityLaws m → CleanComesFirst m }
{}

// Each step and each call keep of every kept candidate that its path is lawful, its metric the path's cost and its
// serial an earlier one than the next.
pub fn candidates_stay_exact<S>()
    ensures { (m : Store S) → StoreLaws m → StaysExact m }
{}

// The laws can be met, and small runs go as one would work them out by hand.
pub fn examples_stand()
    ensures lawful { BlockLaws two_bits }
    ensures answers { AnsweredBy example_calls example_answers }
    ensures checked_lawful { BlockLaws checked_bits }
    ensures checked_answers { AnsweredBy checked_calls checked_answers }
    ensures parity { SecondParityStands }
{}
