// The bits of a spread word in the order of the word, as an iterator. Assumes nothing.
ghost use Rattle.std.specs.Iterator.{YieldsFirst, item_count};
ghost use Rattle.outer.specs.Order.{left};

// Yields indices into the payload and the check bits after it.
#[derive(Drop)]
pub struct Bits {
    // what is left of the order of the longest word
    pub order: &'static [u8],
    // how many bits of the longest payload are struck out
    pub struck: usize,
}

impl Iterator for Bits {
    type Item = usize;

    ghost next_gives = { YieldsFirst left };

    ghost remaining = { item_count left };

    fn next(&mut self) -> Option<usize> {
        while let Some((bit, others)) = self.order.split_first() {
            self.order = others;
            let bit = usize::from(*bit);
            if bit >= self.struck {
                return Some(bit - self.struck);
            }
        }
        None
    }
}
