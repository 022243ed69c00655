// Making a request of its parts. Assumes nothing.
ghost use Rattle.sender.specs.Requests.{Requested};

use crate::request::{Request, Unfit};
use block::{PlanNumbers, SearchNumbers};

// The greatest magnitude of a received value.
const MOST: u16 = 4095;

impl Request {
    // The request of these parts, or which of them is beyond its limits.
    pub fn new(
        plan: PlanNumbers,
        search: SearchNumbers,
        payload: Vec<u8>,
        magnitude: u16,
        flips: Vec<u16>,
    ) -> Result<Request, Unfit>
        ensures { Requested plan search payload magnitude flips result }
    {
        if search.words == 0 {
            return Err(Unfit::Words);
        }
        if magnitude == 0 || magnitude > MOST {
            return Err(Unfit::Magnitude);
        }
        Ok(Request {
            plan,
            search,
            payload,
            magnitude,
            flips,
        })
    }
}
