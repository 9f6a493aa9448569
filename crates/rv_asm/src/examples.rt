//! Worked examples of the definition.

ghost use Rattle.std.specs.List.{All};
ghost use Rattle.rv_asm.specs.Examples.{examples, IsAssembled};

/// The text of each example is assembled to its result, as it is computed from the definition.
pub fn worked_examples()
    ensures { All IsAssembled examples }
{}
