//! That the shapes of messages exclude each other.

ghost use Rattle.gem_shapes.specs.Laws.{AsksOneThing};

/// No message asks for two things.
pub fn a_body_asks_for_one_thing()
    ensures { AsksOneThing }
{}
