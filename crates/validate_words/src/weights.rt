// Rule 3 of the edges' weights.

ghost use Rattle.std.specs.Prelude.{◌≤◌, ◌≡◌, length};
ghost use Rattle.shape.specs.Rules.{weights_right as weights_test};

use crate::axes::none_above;

// Rule 3: the low of no edge, removed or not, is above its high.
#[tactic(auto, unfolding(shape::specs::Rules::weights_right))]
pub fn weights_right(lows: &[u32], highs: &[u32], bound: usize) -> bool
    requires { (bound ≤ length lows.now) × (bound ≤ length highs.now) }
    ensures { result ≡ weights_test bound lows.now highs.now }
{
    none_above(&lows[..bound], &highs[..bound])
}
