//! A pool of the most slots, filled, given up by every third slot and filled again.
ghost use Rattle.std.specs.Prelude.{◌≡◌, length};
ghost use Rattle.node_pool.specs.Slots.{live_slots};

use crate::slot::Slot;
use crate::{MOST_SLOTS, Pool};
use std::test::Fail;

/// Fills the pool, and answers how many values found a slot.
fn fill(pool: &mut Pool<u32>) -> u32
    ensures { live_slots pool.new ≡ length pool.new }
{
    let mut placed = 0_u32;
    while pool.place(placed).is_some() {
        placed = placed.saturating_add(1);
    }
    placed
}

/// Gives back every third slot of a full pool, from the first on.
fn give_back_every_third(pool: &mut Pool<u32>)
    requires { live_slots pool.old ≡ length pool.old }
{
    let slots = pool.live();
    let mut number = 0;
    while number < slots {
        pool.give_back(Slot::new(number));
        number += 3;
    }
}

#[test]
fn slots_given_back_are_filled_again(rt: HostRuntime) -> Result<(), Fail> {
    let mut pool = Pool::new(rt.alloc(), MOST_SLOTS)?;
    assert!(rt; fill(&mut pool) == MOST_SLOTS);
    give_back_every_third(&mut pool);
    assert!(rt; pool.room() == 333_334);
    assert!(rt; fill(&mut pool) == 333_334);
    assert!(rt; pool.place(0).is_none());
    Ok(())
}
