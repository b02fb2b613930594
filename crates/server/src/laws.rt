// Laws over what `serve` says of a single caller, as contracts of functions that do nothing, so that the check proves
// them.
ghost use Rattle.server.specs.Confining.{AnswerSaysConfined, ConfinedConnectionsStay};
ghost use Rattle.server.specs.Crashing.{AnsweredIsStored, BreakingLosesNothing, FailureLosesNothing, FrameIsStored};

use disk::Disk;

/// What a single caller answered is stored: a crash at any moment since leaves the state after a prefix of the records
/// that the calls made, and after the last answer, all of them.
pub fn answered_is_stored<D: Disk>()
    ensures { AnsweredIsStored D.honest D.view }
{}

/// So is its answer to the last frame, whose reply may be written in part, and after which it may not have been given
/// time.
pub fn frame_is_stored<D: Disk>()
    ensures { FrameIsStored D.honest D.view }
{}

/// A call that fails in the store loses nothing that was answered before.
pub fn failure_loses_nothing<D: Disk>()
    ensures { FailureLosesNothing D.honest D.view }
{}

/// Time after a reply that ends with a fault of the store loses nothing: a crash at any moment since it began leaves
/// the state as it was.
pub fn breaking_loses_nothing<D: Disk>()
    ensures { BreakingLosesNothing D.honest D.view }
{}

/// A caller that is confined stays confined, and attached to the space that it was attached to, whatever frames are
/// answered.
pub fn confined_connections_stay<D: Disk>()
    ensures { ConfinedConnectionsStay D.honest D.view }
{}

/// The answer to number 23 says whether the connection is confined: code 0 says that it is, to the space that it was
/// attached to, and any other that nothing changed.
pub fn answer_says_confined<D: Disk>()
    ensures { AnswerSaysConfined D.honest D.view }
{}
