// Laws of a mirror, and how many bytes a document has.
ghost use Rattle.std.specs.Prelude.{◌≡◌, ℕ, List, All, Some, Err};
ghost use Rattle.dir_values.specs.declared.digest.Fingerprint.{Fingerprint};
ghost use Rattle.key_port.specs.Answers.{Rules};
ghost use Rattle.mirror_core.specs.{declared.refusal.MirrorRefusal.MirrorRefusal, Answers.AnswersCerts};
ghost use Rattle.mirror_core.specs.{Answers.{AnswersConsensus, AnswersMicros, micro_with}, Used.HasBytes};
ghost use Rattle.mirror_core.specs.{Lists.CallsLeave, Sound.IsSound, States.{Mirrored, no_mirror}, Bytes.HaveBytes};
ghost use Rattle.mirror_core.specs.Served.{IsNamedText};
ghost use Rattle.frame_terms.specs.{declared.document.Taken.Taken, Tables.Tables};
ghost use Rattle.authority_certs.specs.Reading.{cert_of};
ghost use Rattle.micro_desc.specs.Reading.{micro_of};

/// After every list of calls: the certificates that are kept were checked, one of each member at most; the consensus that is held
/// is of the microdesc flavour, and more than half of the roster signed it, each counted once; and each microdescriptor that is
/// held has a SHA-256 that this consensus names.
pub fn what_is_held()
    ensures { (rules : Rules) (roster : List Fingerprint) (mirrors : List Mirrored) → CallsLeave rules (no_mirror roster) mirrors → All (IsSound rules) mirrors }
{}

/// A call that is refused changes nothing.
pub fn a_refusal_changes_nothing()
    ensures certs { (rules : Rules) (now : ℕ) (before after : Mirrored) (bytes : List ℕ) (why : MirrorRefusal) → AnswersCerts rules now before bytes (Err why) after → after ≡ before }
    ensures consensus { (rules : Rules) (before after : Mirrored) (bytes : List ℕ) (why : MirrorRefusal) → AnswersConsensus rules before bytes (Err why) after → after ≡ before }
    ensures micros { (before after : Mirrored) (bytes : List ℕ) (why : MirrorRefusal) → AnswersMicros before bytes (Err why) after → after ≡ before }
{}

/// A microdescriptor that is given for a digest has this digest, and the held consensus names it.
pub fn what_is_served()
    ensures { (rules : Rules) (mirror : Mirrored) (digest text : List ℕ) → IsSound rules mirror → micro_with mirror digest ≡ Some text → IsNamedText mirror digest text }
{}

/// A certificate that is read of some bytes has a byte, and so has a microdescriptor (dir-spec, "Document meta-format").
pub fn what_is_read_has_bytes()
    ensures certs { HaveBytes cert_of }
    ensures micros { HaveBytes micro_of }
{}

/// A document that is read of an input with a byte has a byte.
pub fn documents_have_bytes<S, K, V, X, F>()
    ensures { (with : F → S → List (Taken V) → F) (tables : Tables S K V X) → HasBytes with tables }
{}
