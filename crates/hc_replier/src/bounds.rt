ghost use Rattle.std.specs.Prelude.{◌↔◌, IsTrue};
ghost use Rattle.hc_replier.specs.Bounds.{AreBounds};

use r2_base::{GREATEST_MEMBER, Listed};

/// The greatest bound of a member.
pub const MOST_BOUND: u16 = 1_024;

/// For each member, how many entries it may have to answer at a time. A member with the bound 0 gets none.
pub type Bounds = Listed<u16>;

/// Whether a group may have these bounds: one for each of its members, each at most `MOST_BOUND`, and not all of them 0.
pub fn are_bounds(bounds: &[u16]) -> bool
    ensures { IsTrue result ↔ AreBounds bounds.now }
{
    let few = bounds.len() <= usize::from(GREATEST_MEMBER) + 1;
    let each = bounds.iter().all(|bound| *bound <= MOST_BOUND);
    let some = bounds.iter().any(|bound| *bound > 0);
    few && each && some
}

#[cfg(test)]
mod tests {
    use super::*;
    use std::test::Fail;

    #[test]
    fn a_copy_has_the_same_bounds(rt: HostRuntime) -> Result<(), Fail> {
        let bounds = Bounds::from_vec(vec![in rt.alloc(); 1, 0, 1_024]?);
        let copy = bounds.copy(rt.alloc())?;
        assert_eq!(rt; copy, bounds);
        assert!(rt; are_bounds(copy.as_slice()));
        Ok(())
    }
}
