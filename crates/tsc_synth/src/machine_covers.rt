//! The bound on the covers of a machine's netlist.
ghost use Rattle.std.specs.Prelude.{◌≡◌, ◌+◌, ◌-◌, ◌*◌, ◌^◌, ◌≤◌, cond, min};
ghost use Rattle.machine_lines.specs.MachineSize.{row_count};
ghost use Rattle.machine_synth.specs.MachineBound.{check_count, machine_bound, state_weight};
ghost use Rattle.tsc_synth.specs.RowStates.{states_of_row};

use tsc_net::{Code, Machine, MachineRow};

/// The bound on the covers of a machine's netlist under a code; the greatest number, where it is above it.
pub fn machine_bound(machine: &Machine, code: Code) -> usize
    ensures bound { result ≡ min (machine_bound machine.now.table code) (2 ^ 64 - 1) }
{
    let checks = check_count(code, machine.outputs());
    let bits = 2 * state_weight(machine.states());
    let row = 2 * machine.inputs() + machine.outputs() + checks + bits + 2;
    let state = 2 * bits + checks + 2;
    row_count(machine)
        .saturating_mul(row)
        .saturating_add(machine.states().saturating_mul(state))
        .saturating_add(machine.inputs())
        .saturating_add(square_share(machine.outputs()))
        .saturating_add(square_share(bits))
        .saturating_add(16)
        .saturating_mul(4)
}

/// What the checker may cost by so many places of a part of its word; the greatest number, where it is above it.
fn square_share(places: usize) -> usize
    ensures size { result ≡ min (8 * (places + 1) ^ 2) (2 ^ 64 - 1) }
{
    let side = places.saturating_add(1);
    side.saturating_mul(side).saturating_mul(8)
}

/// 1 where something holds, and else 0.
fn one_where(holds: bool) -> usize
    ensures one { result ≡ cond holds 1 0 }
    ensures few { result ≤ 1 }
{
    if holds { 1 } else { 0 }
}

/// How many checks a code has for so many outputs.
fn check_count(code: Code, outputs: usize) -> usize
    requires few { outputs ≤ 64 }
    ensures count { result ≡ check_count code outputs }
    ensures few { result ≤ 64 }
{
    match code {
        Code::Parity => 0,
        Code::Berger => digits(outputs),
        Code::MOutOfN => outputs,
    }
}

/// How many binary digits a number of at most 64 has.
fn digits(number: usize) -> usize
    requires few { number ≤ 64 }
    ensures digits { result ≡ check_count Code.Berger number }
    ensures few { result ≤ 7 }
{
    let past = number + 1;
    let low = one_where(1 < past) + one_where(2 < past) + one_where(4 < past);
    let high = one_where(8 < past) + one_where(16 < past) + one_where(32 < past);
    low + high + one_where(64 < past)
}

/// The weight of the words of so many states.
fn state_weight(states: usize) -> usize
    ensures weight { result ≡ state_weight states }
    ensures few { result ≤ 6 }
{
    let low = one_where(2 < states) + one_where(6 < states) + one_where(20 < states);
    1 + low + one_where(70 < states) + one_where(252 < states)
}

/// How many rows a machine has, where a row of every state counts once a state; the greatest number, where it is above it.
fn row_count(machine: &Machine) -> usize
    ensures count { result ≡ min (row_count machine.now.table) (2 ^ 64 - 1) }
{
    let states = machine.states();
    let mut total: usize = 0;
    for row in machine.rows() {
        total = total.saturating_add(states_of_row(row, states));
    }
    total
}

/// At how many of so many states a row may answer.
fn states_of_row(row: &MachineRow, states: usize) -> usize
    ensures states { result ≡ states_of_row states row.now.from }
{
    match row.from {
        Some(_) => 1,
        None => states,
    }
}
