//! How many points a plan has.
ghost use Rattle.std.specs.Prelude.{◌≡◌, ◌↔◌, ◌*◌, ◌<◌, ◌≤◌, ◌^◌, IfSome, IsNone};

use lane_sim::width_of;

/// How many points there are of so many states and inputs; none above 65,536.
pub(crate) fn count_of(states: usize, inputs: usize) -> Option<usize>
    requires some { 0 < states }
    ensures count { IfSome result (λ count. count ≡ states * 2 ^ inputs) }
    ensures few { IfSome result (λ count. count ≤ 65536) }
    ensures inputs { IfSome result (λ _. inputs ≤ 16) }
    ensures none { IsNone result ↔ (65536 < states * 2 ^ inputs) }
{
    if inputs > 16 {
        return None;
    }
    let count = states.checked_mul(width_of(inputs))?;
    if count > 65536 { None } else { Some(count) }
}
