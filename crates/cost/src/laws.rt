// The laws of what a path costs, as contracts: the prover is asked for each.
ghost use Rattle.cost.specs.Laws.{PairIdentity, WholePathCostsContradictions, CostNeverFalls};
ghost use Rattle.cost.specs.Laws.{CostAtMostMagnitudes, DecisionBounded, DecisionLooksBack, CostLooksBack};
ghost use Rattle.cost.specs.Laws.{CleanPathCostsNothing, CleanBitCostsNothing, CleanPathKeepsZeros};
ghost use Rattle.cost.specs.Laws.{WrongBitCosts, CostFits, CostsOfAPair};

// What a path costs, from a pair of bits to a whole path, and how that moves along a path.
pub fn path_cost()
    ensures pair { PairIdentity }
    ensures whole { WholePathCostsContradictions }
    ensures rising { CostNeverFalls }
    ensures most { CostAtMostMagnitudes }
    ensures fits { CostFits }
    ensures back { CostLooksBack }
{}

pub fn decision_values()
    ensures most { DecisionBounded }
    ensures back { DecisionLooksBack }
{}

// A word whose codeword contradicts no soft value.
pub fn clean_word()
    ensures path { CleanPathCostsNothing }
    ensures bit { CleanBitCostsNothing }
    ensures zeros { CleanPathKeepsZeros }
    ensures wrong { WrongBitCosts }
{}

// Soft values 3 and -5.
pub fn pair_example()
    ensures { CostsOfAPair }
{}
