//! Secure at the points of a netlist, and secure against any one failing cell.
ghost use Rattle.point_laws.specs.PointLaws.{NetworksAreDecided, SecureAtPointsIsCellSecure, SilentIsInsecure, SoundIsSecureAtPoints, StemsDecide};

/// A netlist without a ring that follows its source and is secure at its points is secure against any one failing cell, whatever its
/// structure and whoever wrote it.
pub fn secure_at_points_is_cell_secure()
    ensures secure { SecureAtPointsIsCellSecure }
{}

/// Without latches it is so exactly where it follows its source and is secure at its points.
pub fn networks_are_decided()
    ensures decided { NetworksAreDecided }
{}

/// Where a run comes to the state of a point at which a cell fails silently, the netlist isn't one that is secure against any one failing cell.
pub fn silent_is_insecure()
    ensures insecure { SilentIsInsecure }
{}

/// A cell fails silently at a point exactly where its stem does, held at one of the two bits.
pub fn stems_decide()
    ensures decide { StemsDecide }
{}

/// What has sound structure and follows its source is secure at its points: the yes of an audit of structure is one of points.
pub fn sound_is_secure_at_points()
    ensures secure { SoundIsSecureAtPoints }
{}
