//! How the program's plans, soft values, checks and stores are read as the blocks and stores of the search. Theory
//! alone: a function here stands for the theorem that its contract states.
#![tactic(auto)]

ghost use Rattle.model.specs.Laws.{BlockIsLawful, WordCostsContradictions, WordsJudgedWhole, StoreReadsAsRuled};

// A plan, soft values and a check that keeps its law make a block that the search may be loaded with.
pub fn block_is_lawful()
    ensures { BlockIsLawful }
{}

// The metric of a word is what its codeword contradicts.
pub fn word_costs_contradictions()
    ensures { WordCostsContradictions }
{}

// A word has as many information bits as the plan says.
pub fn words_judged_whole()
    ensures { WordsJudgedWhole }
{}

// Emptied, put into, taken from and asked, a store as it is read does what the store of the rules does.
pub fn store_reads_as_ruled()
    ensures { StoreReadsAsRuled }
{}
