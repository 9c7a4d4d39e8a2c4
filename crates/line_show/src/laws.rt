//! What holds of all captures: each is pieces and an ending, in one way only.

ghost use Rattle.line_show.specs.Laws.{BodiesAreShown, CapturesRead, CapturesReadInOneWay};

/// Each capture is pieces and an ending.
pub fn captures_read()
    ensures { CapturesRead }
{}

/// A capture is pieces and an ending in one way only.
pub fn captures_read_in_one_way()
    ensures { CapturesReadInOneWay }
{}

/// Of a message's text its item is shown, or its first fault.
pub fn bodies_are_shown()
    ensures { BodiesAreShown }
{}
