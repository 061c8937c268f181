//! What a joint of alarm-secure parts keeps.
ghost use Rattle.alarm_joints.specs.AlarmJoints.{AlarmSecurePartsJoin};

/// Parts that are alarm-secure, each for its source, make a joint that is secure for these sources: whichever cell of the joint fails, of
/// a part or of the tree, and whatever bits it gives at whatever steps. Of a joint no more is asked than of alarm-secure parts, as it
/// has no plan, and so no codewords: parts that are secure against any one failing cell are the special case.
pub fn alarm_secure_parts_join()
    ensures secure { AlarmSecurePartsJoin }
{}
