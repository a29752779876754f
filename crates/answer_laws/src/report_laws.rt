// What a verifier that may give one answer alone makes of reports.
ghost use Rattle.answer_laws.specs.Agreement.{OrderIsFree, ReportsAgree};

/// A law: where each signature may be accepted or refused, and never both, a roster, the held votes and a consensus have one
/// report alone.
pub fn reports_agree()
    ensures { ReportsAgree }
{}

/// A law: under such a verifier votes that come in any order and however often have one report alone, if no two different votes
/// of one authority share a rank.
pub fn order_is_free()
    ensures { OrderIsFree }
{}
