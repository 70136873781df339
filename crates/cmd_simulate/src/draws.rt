//! What is drawn by lot.

ghost use Rattle.std.specs.Prelude.{◌≡◌, ◌<◌, ◌≤◌};
ghost use Rattle.cmd_simulate.specs.Drawn.{drawn, next_lots};

use rand_core::utils::NextWord;
use rand_pcg::Lcg64Xsh32;

/// A number below `m`: the next word of 32 bits modulo `m`.
#[tactic(auto, unfolding(crate::specs::Drawn::drawn, crate::specs::Drawn::next_lots))]
pub(crate) fn draw(lots: &mut Lcg64Xsh32, m: u64) -> u64
    requires { 1 ≤ m }
    ensures is { result ≡ drawn m lots.old }
    ensures below { result < m }
    ensures next { lots.new ≡ next_lots lots.old }
{
    u64::from(lots.next_word()) % m
}
