use random_streams::{
    DelayLaw, Divisor, Law, PreparedLaw, Shares, Stream, Values, Weights, are_shares, choose_by,
    draw,
};
use std::alloc::Global;
use std::process::Abort;
use std::test::Fail;

#[test]
fn the_first_words_under_seed_0(rt: HostRuntime) {
    let mut words = Stream::new(0, 0, 0);
    for want in [2917185654, 2419978656, 3848953152, 683509331, 3088700093] {
        assert!(rt; words.word() == want);
    }
    assert!(rt; words.place() == 5);
}

/// The words of test vectors 1 and 2 of RFC 8439, appendix A.1: key and nonce are zero, and the block counter is 0 and 1.
const STANDARD: [[u8; 4]; 18] = [
    [0x76, 0xb8, 0xe0, 0xad],
    [0xa0, 0xf1, 0x3d, 0x90],
    [0x40, 0x5d, 0x6a, 0xe5],
    [0x53, 0x86, 0xbd, 0x28],
    [0xbd, 0xd2, 0x19, 0xb8],
    [0xa0, 0x8d, 0xed, 0x1a],
    [0xa8, 0x36, 0xef, 0xcc],
    [0x8b, 0x77, 0x0d, 0xc7],
    [0xda, 0x41, 0x59, 0x7c],
    [0x51, 0x57, 0x48, 0x8d],
    [0x77, 0x24, 0xe0, 0x3f],
    [0xb8, 0xd8, 0x4a, 0x37],
    [0x6a, 0x43, 0xb8, 0xf4],
    [0x15, 0x18, 0xa1, 0x1c],
    [0xc3, 0x87, 0xb6, 0x69],
    [0xb2, 0xee, 0x65, 0x86],
    [0x9f, 0x07, 0xe7, 0xbe],
    [0x55, 0x51, 0x38, 0x7a],
];

/// Seeds, objects and places from which a stream comes there.
const EARLIER: [(u64, u32, u64); 6] = [
    (0, 0, 0),
    (0, 0, 3),
    (0, 0, 16),
    (0, 0, 15),
    (0, 1, 5),
    (1, 0, 5),
];

/// From a place on a stream has the words of the standard.
fn assert_standard<R: Abort>(rt: &R, words: &mut Stream, place: usize) {
    words.move_to(0, 0, place as u64);
    for want in STANDARD.iter().skip(place) {
        assert!(rt; words.word().to_le_bytes() == *want);
    }
}

/// A word at a place is the same however the stream came there: from the start, back within the block, from the next
/// block, from another object or from another seed.
#[test]
fn the_words_of_the_standard_by_every_way(rt: HostRuntime) {
    let mut words = Stream::new(0, 0, 0);
    for (seed, object, place) in &EARLIER {
        words.move_to(*seed, *object, *place);
        words.word();
        for back in [0, 7, 16] {
            assert_standard(&rt, &mut words, back);
        }
    }
    assert!(rt; words.place() == 18);
}

#[test]
fn draws_under_seed_0(rt: HostRuntime) {
    let half = 2147483648;
    let laws = [
        (Law::Geometric { p: half, cap: 5 }, 0, (4, 4)),
        (Law::Geometric { p: half, cap: 3 }, 0, (3, 2)),
        (Law::Geometric { p: half, cap: 1 }, 0, (1, 0)),
        (Law::Uniform { low: 1, high: 10 }, 2, (3, 3)),
        (Law::Fixed { value: 6 }, 9, (6, 9)),
    ];
    for (law, place, want) in &laws {
        assert!(rt; law.check());
        assert!(rt; draw(0, 0, *place, law) == *want);
    }
}

#[test]
#[tactic(auto, unfolding(random_streams::specs::Laws::is_drawable))]
fn choices_under_seed_0(rt: HostRuntime) -> Result<(), Fail> {
    let weights = Weights::new(vec![in rt.alloc(); 1, 2, 3]?);
    assert!(rt; weights.as_slice() == [1, 2, 3].as_slice());
    let law = Law::Choice { weights };
    assert!(rt; law.check());
    assert!(rt; draw(0, 0, 0, &law) == (0, 1));
    assert!(rt; draw(0, 0, 3, &law) == (2, 4));
    if let Law::Choice { weights } = &law {
        let mut words = Stream::new(1, 1, 1);
        assert!(rt; choose_by(&mut words, 0, 0, 3, weights) == (2, 4));
        assert!(rt; choose_by(&mut words, 0, 0, 0, weights) == (0, 1));
    }
    Ok(())
}

#[test]
fn a_law_is_checked_at_its_bounds(rt: HostRuntime) {
    let most = 1 << 40;
    let laws = [
        (Law::Fixed { value: most }, true),
        (Law::Fixed { value: most + 1 }, false),
        (Law::Uniform { low: 5, high: 5 }, true),
        (Law::Uniform { low: 5, high: 4 }, false),
        (
            Law::Uniform {
                low: 0,
                high: 4294967295,
            },
            true,
        ),
        (
            Law::Uniform {
                low: 0,
                high: 4294967296,
            },
            false,
        ),
        (
            Law::Uniform {
                low: most,
                high: most + 1,
            },
            false,
        ),
        (Law::Geometric { p: 1, cap: 65536 }, true),
        (Law::Geometric { p: 0, cap: 1 }, false),
        (Law::Geometric { p: 1, cap: 0 }, false),
        (Law::Geometric { p: 1, cap: 65537 }, false),
    ];
    for (law, want) in &laws {
        assert!(rt; law.check() == *want, "{law:?}");
        assert!(rt; law.is_delay() == *want, "{law:?}");
    }
}

/// Weights, and whether a law may choose by them.
const WEIGHTS: [(&[u32], bool); 6] = [
    (&[65535; 64], true),
    (&[1; 65], false),
    (&[0, 1], true),
    (&[0, 0], false),
    (&[65536], false),
    (&[], false),
];

/// A law that chooses is one, or none, and never one of delays.
fn assert_choice<R: Abort>(rt: &R, law: &Law, want: bool) {
    assert!(rt; law.check() == want, "{law:?}");
    assert!(rt; !law.is_delay());
}

#[test]
fn weights_are_checked_at_their_bounds(rt: HostRuntime) -> Result<(), Fail> {
    for (list, want) in &WEIGHTS {
        let weights = Weights::new(list.to_vec(rt.alloc())?);
        assert_choice(&rt, &Law::Choice { weights }, *want);
    }
    Ok(())
}

#[test]
fn a_remainder_at_the_bounds_of_words_and_divisors(rt: HostRuntime) {
    for (divisor, word, want) in [
        (1, 4294967295, 0),
        (3, 4294967295, 0),
        (3, 4294967294, 2),
        (10, 2917185654, 4),
        (65536, 65535, 65535),
        (2147483649, 4294967295, 2147483646),
        (4294967295, 4294967294, 4294967294),
        (4294967295, 4294967295, 0),
        (4294967296, 4294967295, 4294967295),
    ] {
        assert!(rt; Divisor::new(divisor).remainder(word) == want);
    }
}

#[test]
#[tactic(auto, unfolding(random_streams::specs::Laws::is_drawable))]
fn a_prepared_law_draws_as_the_law(rt: HostRuntime) {
    let prepared = PreparedLaw::new(Law::Uniform { low: 1, high: 10 });
    let mut words = Stream::new(0, 0, 2);
    assert!(rt; words.draw_prepared(&prepared) == 3);
    assert!(rt; words.place() == 3);
    let prepared = PreparedLaw::new(Law::Geometric {
        p: 2147483648,
        cap: 5,
    });
    words.move_to(0, 0, 0);
    assert!(rt; words.draw_prepared(&prepared) == 4);
    assert!(rt; words.place() == 4);
}

/// These weights, as shares.
fn shares_of(alloc: Global, list: &[u32]) -> Result<Shares, Fail> {
    let weights = list.to_vec(alloc)?;
    if !are_shares(&weights) {
        return Err(Fail::from("no shares"));
    }
    Ok(Shares::new(alloc, weights)?)
}

/// A place of the stream, and the value that a law draws there, with the place behind it.
type Draw = (u64, (u64, u64));

const TABLE_DRAWS: [Draw; 2] = [(0, (9, 1)), (2, (5, 3))];

const STEPS_DRAWS: [Draw; 2] = [(0, (6, 2)), (3, (33, 5))];

/// A law draws this under seed 0.
fn assert_draws<R: Abort>(rt: &R, words: &mut Stream, law: &DelayLaw, draws: &[Draw]) {
    assert!(rt; law.check());
    for (place, want) in draws {
        words.move_to(0, 0, *place);
        let value = words.draw_delay(law);
        assert!(rt; (value, words.place()) == *want, "{law:?}");
    }
}

/// A law of three values.
fn table(alloc: Global) -> Result<DelayLaw, Fail> {
    Ok(DelayLaw::Table {
        values: Values::new(vec![in alloc; 5, 9, 30]?),
        weights: shares_of(alloc, &[3, 5, 2])?,
    })
}

/// A law of two steps.
fn steps(alloc: Global) -> Result<DelayLaw, Fail> {
    Ok(DelayLaw::Steps {
        bounds: Values::new(vec![in alloc; 0, 10, 40]?),
        weights: shares_of(alloc, &[1, 1])?,
    })
}

/// A law of so many spread units at most.
fn spread(cap: u32) -> DelayLaw {
    DelayLaw::Spread {
        p: 2147483648,
        cap,
        unit: Divisor::new(10),
    }
}

#[test]
#[tactic(auto, unfolding(random_streams::specs::Laws::is_drawable))]
fn delays_under_seed_0(rt: HostRuntime) -> Result<(), Fail> {
    let mut words = Stream::new(0, 0, 0);
    assert_draws(&rt, &mut words, &table(rt.alloc())?, &TABLE_DRAWS);
    assert_draws(&rt, &mut words, &steps(rt.alloc())?, &STEPS_DRAWS);
    assert_draws(&rt, &mut words, &spread(5), &[(0, (34, 5))]);
    assert_draws(&rt, &mut words, &spread(3), &[(0, (23, 3))]);
    let law = PreparedLaw::new(Law::Fixed { value: 6 });
    assert_draws(&rt, &mut words, &DelayLaw::Plain { law }, &[(9, (6, 9))]);
    Ok(())
}

/// The greatest delay.
const MOST: u64 = 1 << 40;

/// Bounds of steps, and whether a law may have them with one weight.
const BOUNDS: [(&[u64], bool); 8] = [
    (&[0, 1], true),
    (&[1, 1], false),
    (&[2, 1], false),
    (&[0, 4294967296], true),
    (&[0, 4294967297], false),
    (&[MOST - 1, MOST], true),
    (&[MOST, MOST + 1], false),
    (&[0, 1, 2], false),
];

#[test]
fn a_law_of_delays_is_checked_at_its_bounds(rt: HostRuntime) -> Result<(), Fail> {
    for (list, want) in &BOUNDS {
        let weights = shares_of(rt.alloc(), &[1])?;
        let bounds = Values::new(list.to_vec(rt.alloc())?);
        let law = DelayLaw::Steps { bounds, weights };
        assert!(rt; law.check() == *want, "{law:?}");
    }
    Ok(())
}

/// Weights, and whether they are shares.
const SHARES: [(&[u32], bool); 5] = [
    (&[65535; 1024], true),
    (&[1; 1025], false),
    (&[0, 0], false),
    (&[65536], false),
    (&[], false),
];

#[test]
fn shares_are_checked_at_their_bounds(rt: HostRuntime) {
    for (list, want) in &SHARES {
        assert!(rt; are_shares(list) == *want);
    }
}
