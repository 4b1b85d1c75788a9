// The published names of the rules, as modes.
#![tactic(auto)]

ghost use Rattle.std.specs.Prelude.{◌≡◌};
ghost use Rattle.active_rules.specs.Rule.{mode_of};

use paper::Mode;

// The rules that need no drawn bond, under their published names.
#[derive(Clone, Copy, PartialEq, Eq, Debug)]
pub enum ActiveRule {
    Balanced,
    Pairwise,
    Permutation,
    GaugedPermutation,
}

pub fn mode_of(rule: ActiveRule) -> Mode
    ensures { result ≡ mode_of rule }
{
    match rule {
        ActiveRule::Balanced => Mode::Houd,
        ActiveRule::Pairwise => Mode::Pair,
        ActiveRule::Permutation => Mode::Perm,
        ActiveRule::GaugedPermutation => Mode::Gperm,
    }
}
