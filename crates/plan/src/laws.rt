// What is proved of the order of places, of reliability and of every plan: each contract is one statement.
// Assumes nothing.
ghost use Rattle.plan.specs.Laws.{OrderPermutes, SupersetsLater, UnsentPlaces, ReliabilityTotal, KindsCounted, PlansLawful, FixedPoints};

// The order of places is a permutation of the block.
pub fn order_permutes()
    ensures { OrderPermutes }
{}

// Every other binary superset of a place stands later in the order.
pub fn supersets_later()
    ensures { SupersetsLater }
{}

// Puncturing leaves out the beginning of the order, shortening its end, repeating nothing.
pub fn unsent_places()
    ensures { UnsentPlaces }
{}

// The weights order all positions strictly.
pub fn reliability_total()
    ensures { ReliabilityTotal }
{}

// Whatever the order of reliability, exactly K positions are information and p parity.
pub fn kinds_counted()
    ensures { KindsCounted }
{}

// Every plan has exactly its K information and p parity positions, none of them barred.
pub fn plans_lawful()
    ensures { PlansLawful }
{}

// The worked examples of the rules.
pub fn fixed_points()
    ensures { FixedPoints }
{}
