// A descriptor that was checked.
ghost use Rattle.std.specs.Prelude.{◌≡◌};
ghost use Rattle.key_port.specs.Answers.{rules};
ghost use Rattle.descriptor_doc.specs.{Checks.IsVerified, Reading.IsRead};

use crate::descriptor::Descriptor;
use key_port::Verifier;
use std::marker::{Model, PhantomData};

/// A descriptor that was read and that holds under a verifier: it names the identities that it has, and its signatures were
/// checked.
#[derive(Drop)]
pub struct CheckedDescriptor<V: Verifier> {
    descriptor: Descriptor,
    verifier: PhantomData<V>,
}

impl<V: Verifier> Model for CheckedDescriptor<V> {
    ghost use Rattle.key_port.specs.Answers.{rules};
    ghost use Rattle.descriptor_doc.specs.{Checks.IsChecked, declared.descriptor.Descriptor.Descriptor};

    ghost Value = { Descriptor };

    ghost view = { λ c. c.descriptor };

    ghost invariant = { λ c. IsChecked (rules V.may_accept V.may_refuse) c.descriptor };
}

impl<V: Verifier> CheckedDescriptor<V> {
    /// The descriptor, which was read and holds.
    pub(crate) fn new(descriptor: Descriptor) -> CheckedDescriptor<V>
        requires read { IsRead descriptor }
        requires verified { IsVerified (rules V.may_accept V.may_refuse) descriptor }
        ensures { result ≡ descriptor }
    {
        CheckedDescriptor {
            descriptor,
            verifier: PhantomData,
        }
    }

    /// The descriptor.
    pub fn descriptor(&self) -> &Descriptor
        ensures descriptor { result.now ≡ self.now }
        ensures read { IsRead self.now }
        ensures verified { IsVerified (rules V.may_accept V.may_refuse) self.now }
    {
        &self.descriptor
    }

    /// The descriptor, of which it is no longer known that it was checked. Takes no memory.
    pub fn into_descriptor(self) -> Descriptor
        ensures descriptor { result ≡ self }
        ensures read { IsRead self }
        ensures verified { IsVerified (rules V.may_accept V.may_refuse) self }
    {
        self.descriptor
    }
}
