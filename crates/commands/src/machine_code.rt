//! The codes of machines' netlists.
ghost use Rattle.std.specs.Prelude.{◌≡◌};
ghost use Rattle.fault_secure.specs.CodePlan.{IsUnorderedCode};
ghost use Rattle.commands.specs.Words.{code_of};

use tsc_net::Code;

/// A code of a machine's netlist. Parity is none of them: the outputs of a group may share no logic, and all of them read the state.
#[derive(Clone, Copy, Debug, PartialEq, Eq)]
pub enum MachineCode {
    /// The number of outputs that are 0, in binary.
    Berger,
    /// As many ones as there are outputs.
    MOutOfN,
}

impl MachineCode {
    /// The same code, as one of all.
    pub fn code(self) -> Code
        ensures code { result ≡ code_of self }
        ensures unordered { IsUnorderedCode result }
    {
        match self {
            MachineCode::Berger => Code::Berger,
            MachineCode::MOutOfN => Code::MOutOfN,
        }
    }
}
