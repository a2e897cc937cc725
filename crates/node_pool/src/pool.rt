//! The pool. The values stand in a list in the order of their slots, as far as slots were ever used, and the numbers of
//! those that were given back in another, which both have room for all slots from the start. Placing takes the number that
//! was given back last, and where there is none the first slot that was never used. So each call is a few reads and writes,
//! nothing has to be filled when the pool is made, and no list ever takes memory again. Whether a slot is live isn't kept
//! beside its value, since no call has to ask.
ghost use Rattle.std.specs.Prelude.{◌≡◌, ◌+◌, ◌-◌, ◌<◌, ◌≤◌, ◌↔◌, Some, None, length, replicate, slice_set, IfSome, IfNone, IfOk};
ghost use Rattle.node_pool.specs.declared.pool.TheConstants.{MOST_SLOTS};
ghost use Rattle.node_pool.specs.Slots.{held, IsLive, live_slots, free_slots};

use crate::slot::Slot;
use std::alloc::{AllocError, Global};
use std::marker::Model;

/// No pool has more slots.
pub const MOST_SLOTS: u32 = 1_000_000;

/// A map from slots to values, with room for so many. A slot is live from the call of `place` that gave it to the call of
/// `give_back` that takes it.
#[derive(Drop)]
pub struct Pool<T: Copy> {
    values: Vec<T>,
    free: Vec<u32>,
    slots: usize,
}

impl<T: Copy> Model for Pool<T> {
    ghost use Rattle.std.specs.Prelude.{List, Option, vec_capacity};
    ghost use Rattle.node_pool.specs.Free.{KeepsFree, slots_of};

    ghost Value = { List (Option T) };

    ghost view = { λ pool. slots_of pool.values.items pool.free.items pool.slots };

    ghost invariant = { λ pool. KeepsFree pool.values.items pool.free.items pool.slots (vec_capacity pool.values) (vec_capacity pool.free) };
}

impl<T: Copy> Pool<T> {
    /// A pool with this many slots, from 1 to 1,000,000, none of them live. All the memory that the pool ever has is
    /// taken here; `AllocError` comes where there isn't so much.
    pub fn new(alloc: Global, slots: u32) -> Result<Pool<T>, AllocError>
        requires some { 1 ≤ slots }
        requires few { slots ≤ MOST_SLOTS }
        ensures empty { IfOk result (λ pool. pool ≡ replicate slots None) }
        ensures none { IfOk result (λ pool. live_slots pool ≡ 0) }
    {
        let room = slots as usize;
        Ok(Pool {
            values: Vec::with_capacity(alloc, room)?,
            free: Vec::with_capacity(alloc, room)?,
            slots: room,
        })
    }

    /// Puts the value into a slot that isn't live, which is live from then on, and leaves every other slot as it was.
    /// None exactly where all slots are live; the pool is then as before.
    pub fn place(&mut self, value: T) -> Option<Slot>
        ensures full { result ≡ None ↔ (live_slots self.old ≡ length self.old) }
        ensures same { IfNone result (self.new ≡ self.old) }
        ensures within { IfSome result (λ at. at < length self.old) }
        ensures free { IfSome result (λ at. held self.old at ≡ None) }
        ensures placed { IfSome result (λ at. self.new ≡ slice_set self.old at (Some value)) }
        ensures count { IfSome result (λ at. live_slots self.new ≡ live_slots self.old + 1) }
    {
        if let Some(number) = self.free.pop() {
            self.values[number as usize] = value;
            return Some(Slot::new(number));
        }
        let used = self.values.len();
        if used == self.slots {
            return None;
        }
        self.values.push_reserved(value);
        Some(Slot::new(used as u32))
    }

    /// The value in a live slot.
    pub fn get(&self, at: Slot) -> &T
        requires { IsLive self.now at }
        ensures { held self.now at ≡ Some result.now }
    {
        &self.values[at.index()]
    }

    /// Puts the value into a live slot, in place of the one that was there.
    pub fn set(&mut self, at: Slot, value: T)
        requires { IsLive self.old at }
        ensures set { self.new ≡ slice_set self.old at (Some value) }
        ensures count { live_slots self.new ≡ live_slots self.old }
    {
        self.values[at.index()] = value;
    }

    /// Takes the value out of a live slot, which can then be had again by `place`. Every other slot is as it was.
    pub fn give_back(&mut self, at: Slot)
        requires { IsLive self.old at }
        ensures taken { self.new ≡ slice_set self.old at None }
        ensures count { live_slots self.new + 1 ≡ live_slots self.old }
    {
        self.free.push_reserved(at.number());
    }

    /// How many slots are live.
    pub fn live(&self) -> u32
        ensures value { result ≡ live_slots self.now }
        ensures within { result ≤ length self.now }
        ensures most { length self.now ≤ MOST_SLOTS }
    {
        (self.values.len() - self.free.len()) as u32
    }

    /// How many slots aren't live: all but the live ones.
    pub fn room(&self) -> u32
        ensures value { result ≡ free_slots self.now }
        ensures both { result + live_slots self.now ≡ length self.now }
        ensures most { length self.now ≤ MOST_SLOTS }
    {
        (self.slots - self.values.len() + self.free.len()) as u32
    }
}
