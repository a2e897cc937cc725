//! What a source or a sink of bytes may be held to, as definitions that the streams and the top call cite: a count of
//! faults that never falls, a failure only where that count rose, and the bytes that a text leaves where it was put
//! whole or in part. They stand in a crate of their own, so that a caller of streams rests on the words alone.
#![tactic(auto)]

ghost use Rattle.device_rules.specs.Devices.{IsRiseAtLast};

/// A law: up to the last value of u64, a count rose exactly where it is greater than before, or stands at that value
/// both times.
pub fn counts_rise_to_the_last()
    ensures { IsRiseAtLast }
{}
