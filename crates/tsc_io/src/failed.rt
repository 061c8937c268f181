//! The one error of a device.

use thiserror::Error;

/// A call of a source or of a sink failed. The device's count of faults rose.
#[derive(Clone, Copy, Debug, PartialEq, Eq, Error)]
#[error("the device failed")]
pub struct Failed;
