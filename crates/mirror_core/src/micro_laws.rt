// Laws of rows.
ghost use Rattle.std.specs.Prelude.{ℕ, List, AllPairs};
ghost use Rattle.mirror_core.specs.{Laws.{AreRowsOf, AreWanted, Differ, HaveDigests}, Rows.{Rows, rows_after, rows_of}};
ghost use Rattle.mirror_core.specs.Wanting.{missing_digests, first_missing};

/// What is wanted is named and not held, each digest once; nothing is wanted exactly where each that is named is held.
pub fn what_is_wanted()
    ensures are { (rows : Rows) (digests : List (List ℕ)) → AreWanted rows digests (first_missing rows digests) }
    ensures once { (rows : Rows) (digests : List (List ℕ)) → AllPairs Differ (missing_digests rows digests) }
{}

/// Exactly the digests that are named have rows, and what a row has has its digest.
pub fn rows_are_of_digests()
    ensures rows { (before : Rows) (digests : List (List ℕ)) → AreRowsOf digests (rows_of before digests) }
    ensures digests { (before : Rows) (digests : List (List ℕ)) → HaveDigests before → HaveDigests (rows_of before digests) }
    ensures taken { (digests : List (List ℕ)) (rows : Rows) (text : List ℕ) → AreRowsOf digests rows → AreRowsOf digests (rows_after rows text) }
    ensures has { (rows : Rows) (text : List ℕ) → HaveDigests rows → HaveDigests (rows_after rows text) }
{}
