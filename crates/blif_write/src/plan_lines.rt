//! The plan lines.
ghost use Rattle.std.specs.Prelude.{◌≡◌, ◌≤◌, ◌⊎◌, ◌++◌, OnOk, All, length, map};
ghost use Rattle.tsc_bits.specs.Bits.{bits_of};
ghost use Rattle.fault_secure.specs.CodePlan.{IsPlanOf, IsWellMade};
ghost use Rattle.tsc_net.specs.NetlistOf.{IsBuilt, names_of};
ghost use Rattle.tsc_net.specs.PlanView.{net_numbers};
ghost use Rattle.blif_write.specs.Layout.{word_of_bits, code_word, code_line, check_line, check_lines, code_lines, plan_lines};
ghost use Rattle.blif_write.specs.NamedPlan.{named_plan};
ghost use Rattle.blif_write.specs.NetLines.{AreNets, FitsGroup, line_of_group, line_of_state};
ghost use Rattle.blif_write.specs.Steps.{after_line, after_lines};

use crate::net_names::{push_names, push_places};
use crate::words::{bit_byte, end_line, push_word};
use std::alloc::AllocError;
use tsc_cover::bit_at;
use tsc_io::Bytes;
use tsc_net::{Code, Group, NetId, Netlist, Plan};

/// Adds the lines of a plan.
pub fn push_plan(out: &mut Bytes, net: &Netlist, plan: &Plan) -> Result<(), AllocError>
    requires checked { IsBuilt net.now }
    requires of_net { IsPlanOf net.now.circuit plan.now }
    ensures lines { OnOk result (out.new ≡ after_lines out.old (plan_lines (named_plan net.now plan.now))) }
    ensures well_made { OnOk result (IsWellMade plan.now) }
{
    push_code_lines(out, net, plan)?;
    push_states(out, plan.states.as_slice(), plan.states.width())
}

/// Adds the code line, and the lines that name the checks.
pub fn push_code_lines(out: &mut Bytes, net: &Netlist, plan: &Plan) -> Result<(), AllocError>
    requires checked { IsBuilt net.now }
    requires shown { plan.now.outputs ≤ length net.now.circuit.outputs }
    requires known { AreNets net.now.circuit plan.now.checks }
    ensures lines { OnOk result (out.new ≡ after_lines out.old (code_lines (named_plan net.now plan.now))) }
    ensures well_made { OnOk result (IsWellMade plan.now) }
{
    push_code_line(out, plan.version, plan.code)?;
    push_check_lines(out, net, plan)
}

/// The word of a code.
fn code_word(code: Code) -> &'static [u8]
    ensures word { result.now ≡ code_word code }
{
    match code {
        Code::Parity => b"parity",
        Code::Berger => b"berger",
        Code::MOutOfN => b"mofn",
    }
}

/// Adds the code line.
fn push_code_line(out: &mut Bytes, version: u8, code: Code) -> Result<(), AllocError>
    requires known { (version ≡ 1) ⊎ (version ≡ 2) }
    ensures line { OnOk result (out.new ≡ after_line out.old (code_line version code)) }
{
    out.append(b"#tsc")?;
    push_word(out, &[version + b'0'])?;
    push_word(out, code_word(code))?;
    end_line(out)
}

/// Adds the lines that name the checks: for parity one line per group, else one line.
fn push_check_lines(out: &mut Bytes, net: &Netlist, plan: &Plan) -> Result<(), AllocError>
    requires checked { IsBuilt net.now }
    requires shown { plan.now.outputs ≤ length net.now.circuit.outputs }
    requires known { AreNets net.now.circuit plan.now.checks }
    ensures lines { OnOk result (out.new ≡ after_lines out.old (check_lines plan.now.code (named_plan net.now plan.now))) }
{
    match plan.code {
        Code::Parity => push_groups(out, net, plan.groups.as_slice()),
        Code::Berger => push_check_line(out, net, plan.checks.as_slice()),
        Code::MOutOfN => push_check_line(out, net, plan.checks.as_slice()),
    }
}

/// Adds the lines of groups.
fn push_groups(out: &mut Bytes, net: &Netlist, groups: &[Group]) -> Result<(), AllocError>
    requires checked { IsBuilt net.now }
    requires fit { All (FitsGroup net.now.circuit) groups.now }
    ensures lines { OnOk result (out.new ≡ after_lines out.old (map (line_of_group net.now) groups.now)) }
{
    for group in groups {
        push_group(out, net, group)?;
    }
    Ok(())
}

/// Adds the line of a group.
fn push_group(out: &mut Bytes, net: &Netlist, group: &Group) -> Result<(), AllocError>
    requires checked { IsBuilt net.now }
    requires fits { FitsGroup net.now.circuit group.now }
    ensures line { OnOk result (out.new ≡ after_line out.old (line_of_group net.now group.now)) }
{
    out.append(b"#tsc")?;
    push_word(out, b"group")?;
    push_places(out, net, group.places.as_slice())?;
    push_word(out, net.name(group.check))?;
    end_line(out)
}

/// Adds the line of the checks.
fn push_check_line(out: &mut Bytes, net: &Netlist, checks: &[NetId]) -> Result<(), AllocError>
    requires known { AreNets net.now.circuit (net_numbers checks.now) }
    ensures line { OnOk result (out.new ≡ after_line out.old (check_line (names_of net.now.names (net_numbers checks.now)))) }
{
    out.append(b"#tsc")?;
    push_word(out, b"check")?;
    push_names(out, net, checks)?;
    end_line(out)
}

/// Adds the lines of state words, each of `width` bits.
fn push_states(out: &mut Bytes, words: &[u64], width: usize) -> Result<(), AllocError>
    requires wide { width ≤ 64 }
    ensures lines { OnOk result (out.new ≡ after_lines out.old (map (line_of_state width) words.now)) }
{
    for word in words {
        push_state(out, *word, width)?;
    }
    Ok(())
}

/// Adds the line of a state word.
fn push_state(out: &mut Bytes, word: u64, width: usize) -> Result<(), AllocError>
    requires wide { width ≤ 64 }
    ensures line { OnOk result (out.new ≡ after_line out.old (line_of_state width word)) }
{
    out.append(b"#tsc")?;
    push_word(out, b"state")?;
    out.push(b' ')?;
    push_bits(out, word, width)?;
    end_line(out)
}

/// Adds the last `width` bits of a number, the most significant first.
fn push_bits(out: &mut Bytes, word: u64, width: usize) -> Result<(), AllocError>
    requires wide { width ≤ 64 }
    ensures bits { OnOk result (out.new ≡ out.old ++ word_of_bits (bits_of width word)) }
{
    for pin in 0..width {
        out.push(bit_byte(bit_at(word, width - 1 - pin)))?;
    }
    Ok(())
}
