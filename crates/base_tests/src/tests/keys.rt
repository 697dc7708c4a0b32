use event_key::{INITIAL, Key, end_bound, later, stamp_of, step_of, time_of};

#[test]
fn a_stamp_is_a_time_and_a_step(rt: HostRuntime) {
    assert!(rt; stamp_of(4, 0) == 262144);
    assert!(rt; time_of(262145) == 4);
    assert!(rt; step_of(262145) == 1);
}

#[test]
fn what_is_sent_comes_later(rt: HostRuntime) {
    assert!(rt; later(262144, 0) == Some(262145));
    assert!(rt; later(262145, 3) == Some(458752));
    assert!(rt; later(65535, 1) == Some(65536));
}

#[test]
fn a_tick_ends_with_its_last_step(rt: HostRuntime) {
    assert!(rt; later(65535, 0) == None);
}

#[test]
fn the_end_bound_is_past_the_last_tick(rt: HostRuntime) {
    assert!(rt; end_bound(20) == 1376256);
    assert!(rt; end_bound(70368744177663) == 4611686018427387904);
}

const KEY: Key = Key {
    stamp: 7,
    rank: 1,
    dest: 5,
    src: 3,
    serial: 9,
};

/// Keys behind that one, each by the first field in which it differs.
const BEHIND: [Key; 5] = [
    Key {
        stamp: 8,
        rank: 0,
        dest: 5,
        src: 3,
        serial: 9,
    },
    Key {
        stamp: 7,
        rank: 2,
        dest: 0,
        src: 3,
        serial: 9,
    },
    Key {
        stamp: 7,
        rank: 1,
        dest: 6,
        src: 0,
        serial: 9,
    },
    Key {
        stamp: 7,
        rank: 1,
        dest: 5,
        src: INITIAL,
        serial: 0,
    },
    Key {
        stamp: 7,
        rank: 1,
        dest: 5,
        src: 3,
        serial: 10,
    },
];

#[test]
fn keys_are_compared_field_by_field(rt: HostRuntime) {
    for key in &BEHIND {
        assert!(rt; KEY.is_before(key));
        assert!(rt; KEY < *key);
    }
    assert!(rt; !KEY.is_before(&KEY));
}
