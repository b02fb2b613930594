// A law of filled items. It is the contract of a function that does nothing, so that the prover checks it.
ghost use Rattle.type_desc.specs.Filling.{FilledOneByOne};

/// Items are filled one by one. Each takes its names from the front of the remaining ones.
pub fn filled_one_by_one()
    ensures { FilledOneByOne }
{}
