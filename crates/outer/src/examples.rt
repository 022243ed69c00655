// Worked examples of the checks as theorems, by computing from the definitions alone. Assumes nothing.
ghost use Rattle.crc.specs.Examples.{SpreadOfEight, SpreadAsPublished};
ghost use Rattle.outer.specs.Examples.{RemainderOfOne};

use crc::orders_as_worked;

// The remainder of a lone one under 6 check bits; a word, a hopeless beginning and two orders of 4 check bits; the order
// of 24 check bits as the public standard prints it.
pub fn checks_as_worked()
    ensures remainder { RemainderOfOne }
    ensures spread { SpreadOfEight }
    ensures published { SpreadAsPublished }
{
    orders_as_worked();
}
