// What holds of all keywords.
ghost use Rattle.frame_laws.specs.Known.{KeywordsAreKnown};

/// A law: the text of each keyword is read as that keyword, and no other.
pub fn keywords_are_known()
    ensures { KeywordsAreKnown }
{}
