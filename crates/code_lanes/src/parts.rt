//! The parts of a word: what is listed of the monitored nets, be it a bit or a lane each.
ghost use Rattle.std.specs.Prelude.{◌≡◌, ◌+◌, length, take, drop};

use tsc_net::Plan;

/// What is listed of the outputs.
pub fn outputs_part<'a, T>(plan: &Plan, word: &'a [T]) -> &'a [T]
    requires sized { length word.now ≡ (plan.now.outputs + length plan.now.checks) + plan.now.latches }
    ensures part { result.now ≡ take plan.now.outputs word.now }
    ensures sized { length result.now ≡ plan.now.outputs }
{
    &word[..plan.outputs]
}

/// What is listed of the checks.
pub fn checks_part<'a, T>(plan: &Plan, word: &'a [T]) -> &'a [T]
    requires sized { length word.now ≡ (plan.now.outputs + length plan.now.checks) + plan.now.latches }
    ensures part { result.now ≡ take (length plan.now.checks) (drop plan.now.outputs word.now) }
    ensures sized { length result.now ≡ length plan.now.checks }
{
    &word[plan.outputs..][..plan.checks.len()]
}

/// What is listed of the nets at the latch inputs.
pub fn next_part<'a, T>(plan: &Plan, word: &'a [T]) -> &'a [T]
    requires sized { length word.now ≡ (plan.now.outputs + length plan.now.checks) + plan.now.latches }
    ensures part { result.now ≡ drop (length plan.now.checks) (drop plan.now.outputs word.now) }
    ensures sized { length result.now ≡ plan.now.latches }
{
    &word[plan.outputs..][plan.checks.len()..]
}
