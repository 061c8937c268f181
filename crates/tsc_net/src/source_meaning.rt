//! What a netlist is judged by.
ghost use Rattle.std.specs.Prelude.{◌≡◌, ◌<◌, ◌≤◌};
ghost use Rattle.fault_secure.specs.Logic.{inputs_of, outputs_count, reset_of, states_of};
ghost use Rattle.tsc_net.specs.SourceView.{logic_of};

use crate::machine::Machine;
use crate::netlist::Netlist;

/// A source with free bits: two networks without latches, with as many inputs and as many outputs.
#[derive(Drop)]
pub struct Loose {
    /// The network of the chosen values.
    pub value: Netlist,
    /// The network that tells, output by output, where the value is free.
    pub free: Netlist,
}

/// What a netlist is judged by: a network without latches, a machine, or a source with free bits.
#[derive(Clone, Copy)]
pub enum SourceMeaning<'a> {
    /// A network: it answers with its outputs.
    Network(&'a Netlist),
    /// A machine: it answers with the outputs and the next state of its completed table.
    Machine(&'a Machine),
    /// A source with free bits: it answers with the outputs of its network of values.
    Loose(&'a Loose),
}

impl<'a> SourceMeaning<'a> {
    /// How many inputs it has.
    pub fn inputs(&self) -> usize
        ensures inputs { result ≡ inputs_of (logic_of self.now) }
    {
        match self {
            SourceMeaning::Network(net) => net.inputs(),
            SourceMeaning::Machine(machine) => machine.inputs(),
            SourceMeaning::Loose(loose) => loose.value.inputs(),
        }
    }

    /// How many outputs it has.
    pub fn outputs(&self) -> usize
        ensures outputs { result ≡ outputs_count (logic_of self.now) }
    {
        match self {
            SourceMeaning::Network(net) => net.outputs().len(),
            SourceMeaning::Machine(machine) => machine.outputs(),
            SourceMeaning::Loose(loose) => loose.value.outputs().len(),
        }
    }

    /// How many states it has, from 1 to 4,096; of a network and of a source with free bits that is 1.
    pub fn states(&self) -> usize
        ensures states { result ≡ states_of (logic_of self.now) }
        ensures some { 0 < result }
        ensures few { result ≤ 4096 }
    {
        match self {
            SourceMeaning::Network(_) | SourceMeaning::Loose(_) => 1,
            SourceMeaning::Machine(machine) => machine.states(),
        }
    }

    /// The reset state.
    pub fn reset(&self) -> u32
        ensures reset { result ≡ reset_of (logic_of self.now) }
        ensures is_state { result < states_of (logic_of self.now) }
    {
        match self {
            SourceMeaning::Network(_) | SourceMeaning::Loose(_) => 0,
            SourceMeaning::Machine(machine) => machine.reset(),
        }
    }
}
