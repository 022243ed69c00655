//! The worked examples of docs/RULES.md that are about definitions, gathered in one contract. Theory alone.
#![tactic(auto)]

ghost use Rattle.bits.specs.Laws.{OneOf32};
ghost use Rattle.cost.specs.Laws.{CostsOfAPair};
ghost use Rattle.crc.specs.Examples.{SpreadOfEight};
ghost use Rattle.outer.specs.Examples.{RemainderOfOne};
ghost use Rattle.plan.specs.Laws.{FixedPoints};

use bits::one_of_32;
use cost::laws::pair_example;
use outer::checks_as_worked;
use plan::fixed_points;

// What the four paths over soft values 3 and -5 cost; the code word of u5 alone at N = 32; the order of places at N = 64,
// a plan with parity, two modes and two bounds on low positions; a remainder; a spread word and a hopeless beginning.
pub fn rules_as_worked()
    ensures costs { CostsOfAPair }
    ensures transform { OneOf32 }
    ensures plan { FixedPoints }
    ensures remainder { RemainderOfOne }
    ensures spread { SpreadOfEight }
{
    pair_example();
    let _ = one_of_32();
    let _ = fixed_points();
    checks_as_worked();
}
