// A law over calls of sessions, as the contract of a function that does nothing, so that the check proves it.
ghost use Rattle.keepers.specs.Destroying.{NoSpaceIsRefused};

/// A session that is in no space, as that of its confined connection was destroyed, is refused every call for good.
pub fn no_space_is_refused()
    ensures { NoSpaceIsRefused }
{}
