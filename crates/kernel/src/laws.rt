// A law of the machine's steps. It is the contract of a function that does nothing, so that the prover checks it.
ghost use Rattle.kernel.specs.Unrecorded.{UnrecordedStepsChangeNothing};

/// A step that isn't recorded changes nothing.
pub fn unrecorded_steps_change_nothing()
    ensures { UnrecordedStepsChangeNothing }
{}
