// What a plan says of the path in a row. For the decoder alone: hence the `requires`. Assumes nothing.
ghost use Rattle.std.specs.Prelude.{◌≡◌, ◌≤◌};
ghost use Rattle.bits.specs.Row.{row_bit};
ghost use Rattle.model.specs.Blocks.{kinds_of};
ghost use Rattle.model.specs.Reading.{first_bits};
ghost use Rattle.search.specs.Paths.{information_from, is_information};

use bits::Row;
use plan::{Kind, Plan};

// The encoder has the same comparison in the words of plans; this one is in those of the search.
pub fn is_information(plan: &Plan, i: usize) -> bool
    ensures { result ≡ is_information (kinds_of plan.now i) }
{
    plan.kind(i) == Kind::Information
}

// The bits at the information positions of the first len bits, ascending; they are written into the front of room.
pub fn gather<'a>(plan: &Plan, path: &Row, len: usize, room: &'a mut [bool; 1024]) -> &'a [bool]
    requires size { len ≤ 1024 }
    ensures { result.now ≡ information_from (kinds_of plan.now) 0 (first_bits (row_bit path.now) len) }
{
    // counted beside the loop: an iterator that fills the room doesn't say how much of it is filled
    let mut count = 0;
    for i in 0..len {
        if is_information(plan, i) {
            room[count] = path.get(i);
            count += 1;
        }
    }
    &room[0..count]
}
