use layout_lease::{
    KeyState, LayoutLock, LeaseTable, cookies_in_hand, holders_of_leases, keys_in_hand,
    only_evictions_take_cookies, states_of_keys,
};

#[test]
fn an_eviction_takes_cookies(rt: HostRuntime) {
    let mut lock = LayoutLock::new();
    let old = lock.share(16);
    let other = lock.share(3);
    let first = (
        lock.holds(&old),
        lock.free_but(3),
        lock.free_but(16),
        lock.free_but(9),
    );
    assert!(rt; first == (true, Some(16), Some(3), Some(3)));
    lock.evict(16);
    let new = lock.share(16);
    let then = (lock.holds(&old), lock.holds(&new), lock.holds(&other));
    assert!(rt; then == (false, true, true));
    let given = (
        lock.free(old),
        lock.free(other),
        lock.free(new),
        lock.free_but(9),
    );
    assert!(rt; given == (false, true, true, None));
    only_evictions_take_cookies();
    cookies_in_hand();
}

#[test]
fn a_lease_is_broken_once(rt: HostRuntime) {
    let mut table = LeaseTable::new();
    let ours = table.take(2, 10).expect(&rt, "no lease stands");
    let theirs = table.take(2, 11).expect(&rt, "no lease stands");
    let busy = match table.take(3, 10) {
        Ok(_) => None,
        Err(holder) => Some(holder),
    };
    assert!(rt; (busy, table.holder(10), table.state(&ours)) == (Some(2), Some(2), KeyState::Held));
    table.break_by(10, 5);
    table.break_by(10, 6);
    table.evict(2, 7);
    let states = (table.state(&ours), table.state(&theirs), table.holder(10));
    assert!(rt;
        states
            == (
                KeyState::Broken { step: 5 },
                KeyState::Broken { step: 7 },
                None
            )
    );
    table.give(theirs);
    let last = table.take(3, 10).expect(&rt, "the lease is broken");
    assert!(rt;
        (table.state(&last), table.state(&ours)) == (KeyState::Held, KeyState::Broken { step: 5 })
    );
    table.give(last);
    table.give(ours);
    assert!(rt; table.holder(10) == None);
    keys_in_hand();
    states_of_keys();
    holders_of_leases();
}
