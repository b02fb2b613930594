// Laws over what a connection does, as contracts of functions that do nothing, so that the check proves them.
ghost use Rattle.socket_server.specs.Confining.{AnswerSaysConfined, ConfinedConnectionsStay};

/// A connection that is confined stays confined, and its session stays in its space or, where that has gone, is in none:
/// whatever frames are taken in hand and answered.
pub fn confined_connections_stay()
    ensures { ConfinedConnectionsStay }
{}

/// The answer to number 23 says whether the connection is confined: code 0 says that it is, and any other that it is as
/// before.
pub fn answer_says_confined()
    ensures { AnswerSaysConfined }
{}
