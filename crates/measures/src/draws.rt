//! Random words and draws at places where the cipher's blocks and counters turn over.
//!
//! What must be written was computed by a ChaCha20 of its own, written in Python from RFC 8439. Each line has a seed,
//! an object and a place, the word there, and for each law its value and the next place.
use random_streams::{Law, Stream, Weights, draw};
use std::alloc::Global;
use std::io::{self, Print};

const SEEDS: [u64; 4] = [0, 7, 81985529216486895, 9223372036854775807];

const OBJECTS: [u32; 3] = [0, 65535, 4294967295];

const PLACES: [u64; 8] = [0, 15, 16, 17, 63, 64, 4294967296, 18446744073709551615];

/// Prints the table.
pub fn print_table(rt: &impl Print, alloc: Global) -> io::Result<()> {
    let even = Weights::new(vec![in alloc; 9, 1]?);
    let uneven = Weights::new(vec![in alloc; 0, 3, 0, 65535, 1]?);
    let laws = [
        Law::Uniform { low: 5, high: 20 },
        Law::Uniform {
            low: 1095216660481,
            high: 1099511627776,
        },
        Law::Geometric {
            p: 429496729,
            cap: 200,
        },
        Law::Geometric { p: 1, cap: 100 },
        Law::Choice { weights: even },
        Law::Choice { weights: uneven },
    ];
    for seed in SEEDS {
        for object in OBJECTS {
            for place in PLACES {
                print_row(rt, seed, object, place, &laws)?;
            }
        }
    }
    Ok(())
}

/// One line of the table.
fn print_row(rt: &impl Print, seed: u64, object: u32, place: u64, laws: &[Law]) -> io::Result<()> {
    let word = Stream::new(seed, object, place).word();
    print!(rt; "{seed} {object} {place} {word}")?;
    for law in laws {
        if law.check() {
            let (value, next) = draw(seed, object, place, law);
            print!(rt; " {value} {next}")?;
        }
    }
    println!(rt; "")?;
    Ok(())
}
