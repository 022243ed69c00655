// What a path costs: decision values by halving, the cost of a path, and the laws of both.
#![tactic(auto)]

pub mod laws;
mod memo;
mod rows;
mod soft;
pub mod value;
mod workspace;

pub use memo::Memo;
pub use rows::Rows;
pub use soft::{Soft, first_beyond};
pub use workspace::Workspace;

#[cfg(test)]
mod tests {
    use crate::{Soft, Workspace};
    use bits::Row;
    use std::test::Fail;

    fn path(first: bool, second: bool) -> Row {
        let mut row = Row::zero();
        row.set(0, first);
        row.set(1, second);
        row
    }

    // Soft values 3 and -5: what the paths 00, 01, 10 and 11 cost.
    #[test]
    fn costs_of_a_pair(rt: HostRuntime) -> Result<(), Fail> {
        let Some(block) = Soft::new(1, &[3, -5]) else {
            return Err(Fail::new("two values are a block"));
        };
        let mut scratch = [0; 4];
        assert_eq!(rt; block.path_cost(&path(false, false), 2, &mut scratch), 5);
        assert_eq!(rt; block.path_cost(&path(false, true), 2, &mut scratch), 3);
        assert_eq!(rt; block.path_cost(&path(true, false), 2, &mut scratch), 8);
        assert_eq!(rt; block.path_cost(&path(true, true), 2, &mut scratch), 0);
        Ok(())
    }

    // The same values one after the other: -3 before any bit, then -5 + 3 after a 0 and -5 - 3 after a 1.
    #[test]
    fn values_one_after_another(rt: HostRuntime) -> Result<(), Fail> {
        let Some(block) = Soft::new(1, &[3, -5]) else {
            return Err(Fail::new("two values are a block"));
        };
        let mut scratch = [0; 4];
        let mut work = Workspace::new(&block, &mut scratch);
        let (none, one) = (path(false, false), path(true, false));
        assert_eq!(rt; work.decision(&none, 0), -3);
        assert_eq!(rt; work.decision(&none, 1), -2);
        assert_eq!(rt; work.decision(&one, 1), -8);
        assert_eq!(rt; work.decision(&none, 0), -3);
        Ok(())
    }
}
