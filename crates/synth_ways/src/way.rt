//! The ways of synthesis.
ghost use Rattle.std.specs.Prelude.{◌≡◌};
ghost use Rattle.synth_ways.specs.Ways.{way_code};

use fault_secure::Code;

/// A construction by which a network's netlist is made. Two of them have one code.
#[derive(Clone, Copy, Debug, PartialEq, Eq)]
pub enum Way {
    /// Under parity, with a copy of its own for each group of outputs.
    Parity,
    /// Under parity, with one copy that all groups share.
    Duplex,
    /// Under the Berger code.
    Berger,
    /// Under an m-out-of-n code.
    MOutOfN,
}

impl Way {
    /// The code of the netlists that are made so.
    pub fn code(self) -> Code
        ensures code { result ≡ way_code self }
    {
        match self {
            Way::Parity | Way::Duplex => Code::Parity,
            Way::Berger => Code::Berger,
            Way::MOutOfN => Code::MOutOfN,
        }
    }
}
