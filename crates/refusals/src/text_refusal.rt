//! What a text is refused for.
ghost use Rattle.std.specs.Prelude.{◌≡◌};
ghost use Rattle.refusals.specs.StatusOf.{blif_status, kiss_status, net_status, pla_status, text_status};

use crate::limit::Limit;
use crate::status::Status;
use blif_read::{BlifError, Kind};
use kiss_read::KissError;
use pla_read::PlaError;
use refutation_text::RefutationFault;
use tsc_net::NetError;

/// What a text is refused for. Lines are by their numbers, from 1.
#[derive(Drop)]
pub enum TextRefusal {
    /// A byte is not printable ASCII, tab, CR or LF.
    BadByte { line: usize },
    /// A BLIF section, read as a source or as a netlist, is refused.
    Blif { kind: Kind, error: BlifError },
    /// A machine is refused.
    Kiss(KissError),
    /// A table of a network with free bits is refused.
    Pla(PlaError),
    /// A line is left over after the last section.
    AfterTheEnd { line: usize },
    /// No line stands after the source of an audit.
    NoNetlist,
    /// The fault is not listed.
    NotListed,
    /// The netlist's plan lists no states of its registers.
    NoStates,
    /// A line after the netlist is no step's.
    StepShape { line: usize },
    /// The refutation isn't followed, or there is none.
    Refutation(RefutationFault),
    /// A limit is passed.
    TooMany(Limit),
}

impl TextRefusal {
    /// How a run ends whose text is refused by this.
    pub fn status(&self) -> Status
        ensures status { result ≡ text_status self.now }
    {
        match self {
            TextRefusal::BadByte { .. } | TextRefusal::AfterTheEnd { .. } => Status::BadInput,
            TextRefusal::NoNetlist | TextRefusal::NotListed => Status::BadInput,
            TextRefusal::NoStates | TextRefusal::StepShape { .. } => Status::BadInput,
            TextRefusal::Refutation(_) => Status::BadInput,
            TextRefusal::Blif { kind: _, error } => blif_status(error),
            TextRefusal::Kiss(error) => kiss_status(error),
            TextRefusal::Pla(error) => pla_status(error),
            TextRefusal::TooMany(_) => Status::Limit,
        }
    }
}

/// How a run ends whose BLIF text is refused by this.
fn blif_status(error: &BlifError) -> Status
    ensures status { result ≡ blif_status error.now }
{
    match error {
        BlifError::Limit { .. } => Status::Limit,
        BlifError::Net(error) => net_status(error),
        BlifError::Memory(_) => Status::Memory,
        _ => Status::BadInput,
    }
}

/// How a run ends whose machine is refused by this.
fn kiss_status(error: &KissError) -> Status
    ensures status { result ≡ kiss_status error.now }
{
    match error {
        KissError::Limit { .. } => Status::Limit,
        KissError::Memory(_) => Status::Memory,
        _ => Status::BadInput,
    }
}

/// How a run ends whose table is refused by this.
fn pla_status(error: &PlaError) -> Status
    ensures status { result ≡ pla_status error.now }
{
    match error {
        PlaError::Limit { .. } => Status::Limit,
        PlaError::Memory(_) => Status::Memory,
        _ => Status::BadInput,
    }
}

/// How a run ends whose parts are no netlist by this.
fn net_status(error: &NetError) -> Status
    ensures status { result ≡ net_status error.now }
{
    match error {
        NetError::Memory(_) => Status::Memory,
        _ => Status::BadInput,
    }
}
