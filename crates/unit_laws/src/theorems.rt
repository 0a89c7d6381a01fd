//! The laws of frame objects.

ghost use Rattle.unit_laws.specs.Theorems.{ObjectsAreApart};

/// In every state of a run the objects of frames, of one thread or of several, lie apart.
pub fn objects_are_apart()
    ensures { ObjectsAreApart }
{}
