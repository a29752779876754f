// What the definitions of reading say of the bytes behind a limit.

ghost use Rattle.item_feeder.specs.Limits.{LimitIsEnough};

/// A law: what stands behind the first byte that a document may not have changes nothing.
pub fn limit_is_enough()
    ensures { LimitIsEnough }
{}
