ghost use Rattle.store_api.specs.Laws.{AttachedAreLive, GivenLater, ReadingsAgree};

/// What is live in a history is the same by the last change of each key and by the finite map that
/// all changes make.
pub fn readings_agree()
    ensures { ReadingsAgree }
{}

/// A key is attached to a lease only while it is live.
pub fn attached_are_live()
    ensures { AttachedAreLive }
{}

/// What a history gave a reader, each later one gives too.
pub fn given_later()
    ensures { GivenLater }
{}
