// The rules of an operator.
ghost use Rattle.std.specs.Prelude.{◌≡◌, IfOk};
ghost use Rattle.flag_rules.specs.Private.{rule_order};
ghost use Rattle.flag_rules.specs.Rules as operator_rules;

use crate::hook::Rules;
use crate::relay::RelayFacts;
use crate::ruling::Ruling;
use dir_bytes::Memory;
use dir_values::Fingerprint;
use std::cmp::Ordering;
use std::marker::Model;

/// What the operator rules of the relay with an identity.
#[derive(Clone, Copy, Debug)]
pub struct OperatorRule {
    pub identity: Fingerprint,
    pub ruling: Ruling,
}

/// The rules of an operator: the ruling that is listed first for an identity, or else `Approve`. Contracts see them as
/// the list of the rules, none behind one of a greater identity.
#[derive(Debug, Drop)]
pub struct OperatorList {
    rules: Vec<OperatorRule>,
}

impl Model for OperatorList {
    ghost use Rattle.std.specs.Prelude.{List};
    ghost use Rattle.flag_rules.specs.{declared.operator.OperatorRule.OperatorRule, Rules.Ascend};

    ghost Value = { List OperatorRule };

    ghost view = { λ s. s.rules.items };

    ghost invariant = { λ s. Ascend s.rules.items };
}

impl Rules for OperatorList {
    ghost use Rattle.flag_rules.specs.Rules.{list_allows};

    ghost allows = { list_allows };
}

impl OperatorList {
    /// The list of the rules. Where two are for one identity, the first rules.
    ///
    /// # Errors
    /// `Memory` is want of memory.
    pub fn new(rules: Vec<OperatorRule>) -> Result<OperatorList, Memory>
        ensures { IfOk result (λ list. operator_rules.RuleAlike rules.items list) }
    {
        let mut rules = rules;
        rules.sort_by(|a, b| order(a, b))?;
        Ok(OperatorList { rules })
    }

    /// What the list rules of a relay.
    pub fn ruling(&self, facts: &RelayFacts) -> Ruling
        ensures { result ≡ operator_rules.ruling_for self.now facts.now.identity }
    {
        ruling_for(&self.rules, &facts.identity)
    }
}

/// How two rules stand by identity.
fn order(a: &OperatorRule, b: &OperatorRule) -> Ordering
    ensures { result ≡ rule_order a.now b.now }
{
    a.identity.0.as_slice().cmp(b.identity.0.as_slice())
}

/// The ruling that ascending rules list first for an identity, or else `Approve`.
fn ruling_for(rules: &[OperatorRule], identity: &Fingerprint) -> Ruling
    requires { operator_rules.Ascend rules.now }
    ensures { result ≡ operator_rules.ruling_for rules.now identity.now }
{
    let place = rules.partition_point(|rule| rule.identity.is_below(identity));
    match rules.get(place) {
        Some(rule) => {
            if rule.identity.is_same(identity) {
                rule.ruling
            } else {
                Ruling::Approve
            }
        }
        None => Ruling::Approve,
    }
}
