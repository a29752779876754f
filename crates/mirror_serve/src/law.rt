// A law of what a mirror gives.
ghost use Rattle.std.specs.Prelude.{◌≡◌, ℕ, List, Some};
ghost use Rattle.http_words.specs.declared.asked.Asked.TheVariants as asked;
ghost use Rattle.http_words.specs.declared.asked.Form.TheVariants as form;
ghost use Rattle.key_port.specs.Answers.{Rules};
ghost use Rattle.mirror_core.specs.{Sound.IsSound, States.Mirrored};
ghost use Rattle.mirror_serve.specs.{Given.given_document, GivenTexts.{AreCheckedTexts, IsSignedText}};

/// What a mirror gives as the consensus is one of the microdesc flavour that more than half of its roster signed, each counted
/// once; what it gives as certificates are those of members, each of which held at some moment.
pub fn what_is_given()
    ensures consensus { (rules : Rules) (mirror : Mirrored) (path text : List ℕ) → IsSound rules mirror → given_document mirror (asked.Current form.Microdesc) path ≡ Some text → IsSignedText rules mirror.roster text }
    ensures certificates { (rules : Rules) (mirror : Mirrored) (path text : List ℕ) → IsSound rules mirror → given_document mirror asked.AllKeys path ≡ Some text → AreCheckedTexts rules mirror.roster text }
{}
