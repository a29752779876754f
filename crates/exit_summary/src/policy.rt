// The exit policy of a relay.
ghost use Rattle.std.specs.Prelude.{◌≡◌, ◌++◌, ◌∷◌, [], IsTrue, OnOk, OnErr};
ghost use Rattle.exit_summary.specs.Policies.{AreNets, is_net};

use dir_values::{Net, PolicyItem};
use std::alloc::{AllocError, Global};
use std::marker::Model;

/// The items of an exit policy, in their order. Of an IPv4 address no more than 32 bits count in any of them.
#[derive(Debug, Drop)]
pub struct Policy {
    items: Vec<PolicyItem>,
}

impl Model for Policy {
    ghost use Rattle.std.specs.Prelude.{List};
    ghost use Rattle.dir_values.specs.declared.policy.PolicyItem.{PolicyItem};
    ghost use Rattle.exit_summary.specs.Policies.{AreNets};

    ghost Value = { List PolicyItem };

    ghost view = { λ p. p.items.items };

    ghost invariant = { λ p. AreNets p.items.items };
}

impl Policy {
    /// A policy of no items.
    pub fn new(alloc: Global) -> Policy
        ensures { result ≡ [] }
    {
        Policy {
            items: Vec::new(alloc),
        }
    }

    /// Adds an item at the end. Without memory the policy stays as it was.
    ///
    /// # Errors
    /// There was no memory.
    pub fn push(&mut self, item: PolicyItem) -> Result<(), AllocError>
        requires { IsTrue (is_net item.net) }
        ensures ok { OnOk result (self.new ≡ self.old ++ item ∷ []) }
        ensures err { OnErr result (self.new ≡ self.old) }
    {
        self.items.push(item)?;
        Ok(())
    }

    /// The items, in their order.
    pub fn items(&self) -> &[PolicyItem]
        ensures value { result.now ≡ self.now }
        ensures nets { AreNets self.now }
    {
        self.items.as_slice()
    }
}

/// Whether no more than 32 bits of an IPv4 address count.
pub fn has_net_bits(net: Net) -> bool
    ensures { result ≡ is_net net }
{
    match net {
        Net::Star | Net::V6 => true,
        Net::V4 { bits, .. } => bits <= 32,
    }
}
