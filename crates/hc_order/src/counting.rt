ghost use Rattle.std.specs.Prelude.{◌≡◌, ◌≤◌, length};
ghost use Rattle.hc_order.specs.Counting.{IsCounted, counted, reaching};

/// How many of the numbers reach this one.
fn reaching(reached: &[u64], least: u64) -> usize
    ensures { result ≡ reaching reached.now least }
{
    let mut count = 0;
    'numbers: for number in reached {
        if least <= *number {
            count += 1;
        }
    }
    count
}

/// The greatest index that at least `need` of the numbers reach: where they say how far the logs of members go, the last entry
/// that so many have (Raft, section 5.3).
#[tactic(auto, unfolding(crate::specs::Counting::counted))]
pub fn counted(reached: &[u64], need: u8) -> u64
    requires least { 1 ≤ need }
    requires most { need ≤ length reached.now }
    ensures exact { result ≡ counted reached.now need }
    ensures greatest { IsCounted reached.now need result }
{
    let mut greatest = 0;
    'numbers: for number in reached {
        if usize::from(need) <= reaching(reached, *number) {
            greatest = greatest.max(*number);
        }
    }
    greatest
}
