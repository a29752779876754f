// The bandwidth of the classes of relays.
ghost use Rattle.std.specs.Prelude.{◌≡◌, ◌+◌, ◌<◌, ◌^◌, length};
ghost use Rattle.bw_weights.specs.Sums.{AreInRange};
ghost use Rattle.bandwidth_rules.specs.Classes as classes;
ghost use Rattle.bandwidth_rules.specs.Private as private;

use crate::class::{Class, class_of};
use bw_weights::Sums;
use consensus_terms::Routerline;

/// The bandwidth of each class of these relays, in kilobytes per second.
pub fn sums_of(routers: &[Routerline]) -> Sums
    requires { length routers.now < 2 ^ 22 }
    ensures value { result ≡ classes.sums_of routers.now }
    ensures range { AreInRange result }
{
    let mut sums = Sums {
        g: 1,
        m: 1,
        e: 1,
        d: 1,
    };
    'routers: for router in routers {
        add(&mut sums, class_of(router), bandwidth_of(router));
    }
    sums
}

/// Adds a bandwidth to that of a class.
fn add(sums: &mut Sums, class: Class, bandwidth: u32)
    requires { AreInRange sums.old }
    ensures { sums.new ≡ private.with_bandwidth class bandwidth sums.old }
{
    let bandwidth = u64::from(bandwidth);
    match class {
        Class::Guard => sums.g += bandwidth,
        Class::Middle => sums.m += bandwidth,
        Class::Exit => sums.e += bandwidth,
        Class::Both => sums.d += bandwidth,
    }
}

/// The bandwidth of a relay, and 0 where it is not known.
fn bandwidth_of(router: &Routerline) -> u32
    ensures { result ≡ classes.counted_bandwidth router.now }
{
    match router.w {
        Some(bandwidth) => bandwidth.value,
        None => 0,
    }
}
