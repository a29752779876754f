// What is kept of a station input.
ghost use Rattle.std.specs.Prelude.{◌≡◌};
ghost use Rattle.station_input.specs.Kept.{kept_with, none_kept};

use crate::frame::{StationFrame, StationSection};
use crate::frame_said::{MeasuredRelay, MemberLine, StationValue};
use crate::head::{Head, empty_head, with_certificate, with_station};
use crate::said::{push_measured, push_members, push_rules};
use dir_bytes::Seq;
use flag_rules::OperatorRule;
use frame_reader::Facts;
use frame_terms::Taken;
use frame_values::Value;
use std::alloc::{AllocError, Global};

/// What is kept of a station input.
#[derive(Drop)]
pub(crate) struct Kept {
    /// What its items say that stand once.
    pub head: Head,
    /// The authorities of its network, in their order.
    pub members: Seq<MemberLine>,
    /// The rules of its operator, in their order.
    pub rules: Seq<OperatorRule>,
    /// What was measured of relays, in their order.
    pub measured: Seq<MeasuredRelay>,
}

impl Facts<StationFrame> for Kept {
    ghost with = { kept_with };

    fn close(
        &mut self,
        section: StationSection,
        taken: &[Taken<Value<StationValue>>],
    ) -> Result<(), AllocError> {
        match section {
            StationSection::Certificate => self.head = with_certificate(self.head, taken),
            StationSection::Station => {
                self.head = with_station(self.head, taken);
                push_members(&mut self.members, taken)?;
                push_rules(&mut self.rules, taken)?;
                push_measured(&mut self.measured, taken)?;
            }
        }
        Ok(())
    }
}

/// What is kept where nothing was read.
pub(crate) fn nothing_kept(alloc: Global) -> Kept
    ensures { result ≡ none_kept }
{
    Kept {
        head: empty_head(),
        members: Seq::new(Vec::new(alloc)),
        rules: Seq::new(Vec::new(alloc)),
        measured: Seq::new(Vec::new(alloc)),
    }
}
