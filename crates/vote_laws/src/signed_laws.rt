// What is signed of each document that is read, in words.
ghost use Rattle.vote_laws.specs.Signed.{CertificatesCoverTheirItems, VotesSignTheirItems};

/// A law: what is covered of each certificate that is read is the text from its first item through the NL of the keyword
/// line of its last.
pub fn certificates_cover_their_items()
    ensures { CertificatesCoverTheirItems }
{}

/// A law: what is signed of each vote that is read is the text of all items before its signature, the word
/// `directory-signature` and one space.
pub fn votes_sign_their_items()
    ensures { VotesSignTheirItems }
{}
