//! A pool with ample memory: each call answers something else than want of memory.
use node_pool::Pool;
use std::test::Fail;

#[test]
fn a_full_pool_has_a_slot_again_after_one_was_given_back(rt: HostRuntime) -> Result<(), Fail> {
    let mut pool: Pool<u8> = Pool::new(rt.alloc(), 2)?;
    let first = pool.place(5).ok_or("no first slot")?;
    let second = pool.place(6).ok_or("no second slot")?;
    assert!(rt; first != second);
    assert!(rt; pool.place(7).is_none());
    assert!(rt; (pool.live(), pool.room()) == (2, 0));
    pool.set(second, 8);
    pool.give_back(first);
    assert!(rt; (pool.live(), pool.room()) == (1, 1));
    let third = pool.place(7).ok_or("no third slot")?;
    assert!(rt; pool.live() == 2);
    assert!(rt; *pool.get(second) == 8);
    assert!(rt; *pool.get(third) == 7);
    Ok(())
}
