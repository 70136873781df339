ghost use Rattle.std.specs.Prelude.{◌≡◌, ◌<◌, ◌↔◌, [], length, All, IfOk, IfSome, IsNone, nat_le, not, ◌||◌};
ghost use Rattle.std.specs.List.{list_all};
ghost use Rattle.hc_replier.specs.Bounds.{AreBounds};
ghost use Rattle.hc_replier.specs.Queues.{AreFull, AreQueues, HasPlace, IsChosen, assign, choose, has_place, is_freest, new_queues, report, row_at, unreported};

use crate::queue::Queue;
use r2_base::NoMemory;
use std::alloc::Global;
use std::marker::Model;

/// For each member of a group, the indexes of the entries that a leader gave it to answer and that it hasn't reported applied
/// (HovercRaft, on bounded queues). A member has at most as many as its bound says, so that a slow one holds up few requests.
#[derive(Debug, Drop)]
pub struct Queues {
    queues: Vec<Queue>,
}

impl Model for Queues {
    ghost use Rattle.std.specs.Prelude.{List};
    ghost use Rattle.hc_replier.specs.Queues.{AreQueues, Row};

    ghost Value = { List Row };

    ghost view = { λ a. a.queues.items };

    ghost invariant = { λ a. AreQueues a.queues.items };
}

impl Queues {
    /// No queues, as a member has that isn't a leader, with no memory taken.
    pub fn none(alloc: Global) -> Queues
        ensures { result ≡ [] }
    {
        Queues {
            queues: Vec::new(alloc),
        }
    }

    /// The queues of a new leader: one for each member, with nothing given. No call of theirs takes memory.
    pub fn new(alloc: Global, bounds: &[u16]) -> Result<Queues, NoMemory>
        requires { AreBounds bounds.now }
        ensures { IfOk result (λ queues. queues ≡ new_queues bounds.now) }
    {
        Ok(Queues {
            queues: new_queues(alloc, bounds)?,
        })
    }

    /// The member that is to answer the next request: of those below their bound the one with the fewest entries, the lowest
    /// number first.
    pub fn choose(&self) -> Option<u8>
        ensures exact { result ≡ choose self.now }
        ensures found { IfSome result (IsChosen self.now) }
        ensures none { IsNone result ↔ AreFull self.now }
        ensures holds { AreQueues self.now }
    {
        match chosen(self.queues.as_slice()) {
            None => None,
            Some(member) => Some(member as u8),
        }
    }

    /// Gives a member the entry at an index to answer.
    pub fn assign(&mut self, member: u8, index: u64)
        requires is_member { member < length self.old }
        requires below { HasPlace (row_at self.old member) }
        requires above { All (λ other. other < index) (row_at self.old member).given }
        ensures { self.new ≡ assign self.old member index }
    {
        self.queues[usize::from(member)].push(index);
    }

    /// A member reports that it applied every entry up to an index.
    pub fn report(&mut self, member: u8, applied: u64)
        requires { member < length self.old }
        ensures { self.new ≡ report self.old member applied }
    {
        self.queues[usize::from(member)].report(applied);
    }

    /// How many entries a member has that it hasn't reported applied, and 0 where there is no such member.
    pub fn unreported(&self, member: u8) -> u16
        ensures { result ≡ unreported self.now member }
    {
        match self.queues.get(usize::from(member)) {
            None => 0,
            Some(queue) => queue.len() as u16,
        }
    }
}

/// A queue for each bound, with nothing given.
fn new_queues(alloc: Global, bounds: &[u16]) -> Result<Vec<Queue>, NoMemory>
    ensures { IfOk result (λ queues. queues.items ≡ new_queues bounds.now) }
{
    let mut queues = Vec::with_capacity(alloc, bounds.len())?;
    'bounds: for bound in bounds {
        queues.push(Queue::new(alloc, *bound)?)?;
    }
    Ok(queues)
}

/// The first member that may get a further entry and has the fewest.
#[tactic(auto, unfolding(crate::specs::Queues::choose))]
fn chosen(queues: &[Queue]) -> Option<usize>
    ensures { result ≡ choose queues.now }
{
    queues.iter().position(|queue| is_freest(queues, queue))
}

/// Whether a member may get a further entry, and no other that may has fewer.
fn is_freest(queues: &[Queue], queue: &Queue) -> bool
    ensures { result ≡ is_freest queues.now queue.now }
{
    queue.has_place() && has_fewest(queues, queue.len())
}

/// Whether no member that may get a further entry has fewer.
fn has_fewest(queues: &[Queue], len: usize) -> bool
    ensures { result ≡ list_all (λ other. not (has_place other) || nat_le len (length other.given)) queues.now }
{
    queues
        .iter()
        .all(|other| !other.has_place() || len <= other.len())
}

#[cfg(test)]
mod tests {
    use super::*;
    use std::test::Fail;

    #[test]
    fn the_member_with_the_fewest_answers(rt: HostRuntime) -> Result<(), Fail> {
        let mut queues = Queues::new(rt.alloc(), &[1, 1, 1])?;
        assert_eq!(rt; queues.choose(), Some(0));
        queues.assign(0, 2);
        assert_eq!(rt; queues.choose(), Some(1));
        queues.assign(1, 3);
        assert_eq!(rt; queues.choose(), Some(2));
        queues.assign(2, 4);
        assert_eq!(rt; queues.choose(), None);
        queues.report(1, 3);
        assert_eq!(rt; queues.choose(), Some(1));
        Ok(())
    }

    #[test]
    fn a_member_without_a_place_is_passed_over(rt: HostRuntime) -> Result<(), Fail> {
        let mut queues = Queues::new(rt.alloc(), &[1, 0, 2])?;
        assert_eq!(rt; queues.choose(), Some(0));
        queues.assign(0, 2);
        assert_eq!(rt; queues.choose(), Some(2));
        queues.assign(2, 3);
        assert_eq!(rt; queues.choose(), Some(2));
        queues.assign(2, 4);
        assert_eq!(rt; queues.choose(), None);
        assert_eq!(rt; queues.unreported(2), 2);
        queues.report(0, 2);
        assert_eq!(rt; queues.choose(), Some(0));
        Ok(())
    }
}
