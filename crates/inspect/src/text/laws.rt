// A law of the definitions. It is the contract of a function that does nothing, so that the prover checks it.
ghost use Rattle.inspect.specs.text.Holders.{HoldersAreListed};

/// The line of each live port of a lawful state shows the place of its receive right: a name of a space, or a message
/// in a port's queue.
pub fn holders_are_listed()
    ensures { HoldersAreListed }
{}
