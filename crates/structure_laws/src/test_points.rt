//! What the exposing points of a fault say of runs.
ghost use Rattle.structure_laws.specs.TestPoints.{ExposedFaultsAlarm, LatentFaultsChangeNoWord};

/// A test: some inputs bring a fault-secure netlist to a state by at least one step, with a listed fault present at that step
/// and the next. Then the alarm comes at each input that exposes the fault there, where none came before.
pub fn exposed_faults_alarm()
    ensures alarm { ExposedFaultsAlarm }
{}

/// A listed fault that no point exposes, present at any steps, changes no monitored word of a fault-secure netlist.
pub fn latent_faults_change_no_word()
    ensures same { LatentFaultsChangeNoWord }
{}
