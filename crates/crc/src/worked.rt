// Worked examples of the spread order as theorems, by computing from the definitions alone. Assumes nothing.
ghost use Rattle.crc.specs.Examples.{SpreadOfEight, SpreadAsPublished};

// A word, a hopeless beginning and two orders of 4 check bits; the order of 24 check bits as the public standard prints
// it.
pub fn orders_as_worked()
    ensures spread { SpreadOfEight }
    ensures published { SpreadAsPublished }
{}
