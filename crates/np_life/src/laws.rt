ghost use Rattle.np_life.specs.Laws.{OnePhaseChanges, OneIsBegun};

/// A call changes the phase of one instance, and every other one keeps its own.
pub fn one_phase_changes()
    ensures changes { OnePhaseChanges }
    ensures begins { OneIsBegun }
{}
