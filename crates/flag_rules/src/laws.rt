// What follows from the table of flags: each function does nothing, and its contract is a law.
ghost use Rattle.flag_rules.specs.Laws as laws;

/// The rules of an operator allow one list of rulings of given relays, so under them the flags are one function of the
/// relays.
pub fn a_list_rules_one_way()
    ensures { laws.ListsRuleOneWay }
{}

/// A relay that is rejected has no flag.
pub fn rejected_relays_have_no_flags()
    ensures { laws.RejectedRelaysHaveNoFlags }
{}

/// A Sybil has no other flag.
pub fn sybils_have_no_other_flag()
    ensures { laws.SybilsHaveNoOtherFlag }
{}

/// At most two relays of an address are Running, where no two relays have one identity.
pub fn two_run_at_an_address()
    ensures { laws.TwoRunAtAnAddress }
{}

/// The flags of a relay agree: Guard and HSDir go with Fast, Stable and V2Dir, those and Exit with Running and Valid,
/// and MiddleOnly with BadExit and without Exit, Guard, HSDir and V2Dir.
pub fn flags_agree()
    ensures { laws.FlagsAgree }
{}
