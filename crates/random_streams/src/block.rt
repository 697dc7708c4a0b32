//! One block of the cipher, by the rows of its state: the block function of RFC 8439, 2.3.
ghost use Rattle.std.specs.Prelude.{◌≡◌, ℕ, ◌+◌, ◌%◌, ◌^◌, ◌<◌, slice_index};
ghost use Rattle.rand_chacha.specs.Block.{add32, xor_rotate, quarter_round, column_round, diagonal_round, initial_state, block_word};
ghost use Rattle.rand_chacha.specs.ChaCha.{key_of};
ghost use Rattle.random_streams.specs.Rows.{row_of, state_of};
ghost use Rattle.random_streams.specs.Words.{seed_bytes};

use rand_core::utils::read_u32;
use std::simd::u32x4;

/// How many double rounds ChaCha20 has.
const DOUBLE_ROUNDS: u32 = 10;

/// A state of the cipher: four rows of four words.
#[derive(Clone, Copy)]
struct Rows {
    a: u32x4,
    b: u32x4,
    c: u32x4,
    d: u32x4,
}

/// The sixteen words of a block of an object's stream under a seed.
pub(crate) fn block(seed: u64, object: u32, number: u64) -> [u32; 16]
    ensures { (k : ℕ) → k < 16
        → slice_index result k ≡ block_word 10 (key_of (seed_bytes seed)) number object k }
{
    let first = initial_rows(&key(seed), number, object);
    let mut rows = first;
    for _round in 0..DOUBLE_ROUNDS {
        rows = diagonal_round(column_round(rows));
    }
    sums(rows, first)
}

/// The words of the key that a seed stands for.
#[inline(always)]
fn key(seed: u64) -> [u32; 8]
    ensures { result ≡ key_of (seed_bytes seed) }
{
    let s = seed.to_le_bytes();
    let bytes = [
        s[0], s[1], s[2], s[3], s[4], s[5], s[6], s[7], 0, 0, 0, 0, 0, 0, 0, 0, 0, 0, 0, 0, 0, 0,
        0, 0, 0, 0, 0, 0, 0, 0, 0, 0,
    ];
    [
        read_u32(&bytes, 0),
        read_u32(&bytes, 1),
        read_u32(&bytes, 2),
        read_u32(&bytes, 3),
        read_u32(&bytes, 4),
        read_u32(&bytes, 5),
        read_u32(&bytes, 6),
        read_u32(&bytes, 7),
    ]
}

/// The state that a block begins with: the constants, the key, the block's number and the object's.
#[inline(always)]
fn initial_rows(key: &[u32; 8], number: u64, object: u32) -> Rows
    ensures { state_of result ≡ initial_state key.now number object }
{
    let low = (number % (1 << 32)) as u32;
    let high = (number >> 32) as u32;
    Rows {
        a: u32x4::from_array([0x6170_7865, 0x3320_646e, 0x7962_2d32, 0x6b20_6574]),
        b: u32x4::from_array([key[0], key[1], key[2], key[3]]),
        c: u32x4::from_array([key[4], key[5], key[6], key[7]]),
        d: u32x4::from_array([low, high, object, 0]),
    }
}

/// The quarter round on each column of the state.
#[inline(always)]
fn column_round(rows: Rows) -> Rows
    ensures { state_of result ≡ column_round (state_of rows) }
{
    let (a, b, c, d) = quarter_round(rows.a, rows.b, rows.c, rows.d);
    Rows { a, b, c, d }
}

/// The quarter round on each diagonal, which is a column once three rows are turned. The second row stays, since a quarter
/// round ends with it and the next one begins with it.
#[inline(always)]
fn diagonal_round(rows: Rows) -> Rows
    ensures { state_of result ≡ diagonal_round (state_of rows) }
{
    let (a, b, c, d) = quarter_round(
        left_by_three(rows.a),
        rows.b,
        left_by_one(rows.c),
        left_by_two(rows.d),
    );
    Rows {
        a: left_by_one(a),
        b,
        c: left_by_three(c),
        d: left_by_two(d),
    }
}

/// A row turned left by one word.
#[inline(always)]
fn left_by_one(words: u32x4) -> u32x4
    ensures { result ≡ row_of (slice_index words 1) (slice_index words 2) (slice_index words 3) (slice_index words 0) }
{
    let [w, x, y, z] = words.to_array();
    u32x4::from_array([x, y, z, w])
}

/// A row turned left by two words.
#[inline(always)]
fn left_by_two(words: u32x4) -> u32x4
    ensures { result ≡ row_of (slice_index words 2) (slice_index words 3) (slice_index words 0) (slice_index words 1) }
{
    let [w, x, y, z] = words.to_array();
    u32x4::from_array([y, z, w, x])
}

/// A row turned left by three words.
#[inline(always)]
fn left_by_three(words: u32x4) -> u32x4
    ensures { result ≡ row_of (slice_index words 3) (slice_index words 0) (slice_index words 1) (slice_index words 2) }
{
    let [w, x, y, z] = words.to_array();
    u32x4::from_array([z, w, x, y])
}

/// The quarter round on each column of four rows.
#[inline(always)]
fn quarter_round(a: u32x4, b: u32x4, c: u32x4, d: u32x4) -> (u32x4, u32x4, u32x4, u32x4)
    ensures { (j : ℕ) → j < 4
        → (slice_index result.0 j, slice_index result.1 j, slice_index result.2 j, slice_index result.3 j)
        ≡ quarter_round (slice_index a j) (slice_index b j) (slice_index c j) (slice_index d j) }
{
    let a1 = add(a, b);
    let d1 = xor_rotate(d, a1, 16);
    let c1 = add(c, d1);
    let b1 = xor_rotate(b, c1, 12);
    let a2 = add(a1, b1);
    let d2 = xor_rotate(d1, a2, 8);
    let c2 = add(c1, d2);
    let b2 = xor_rotate(b1, c2, 7);
    (a2, b2, c2, d2)
}

/// The sums of the words of two states, with the carries dropped.
#[inline(always)]
fn sums(rows: Rows, first: Rows) -> [u32; 16]
    ensures { (k : ℕ) → k < 16
        → slice_index result k ≡ add32 (slice_index (state_of rows) k) (slice_index (state_of first) k) }
{
    let [a0, a1, a2, a3] = add(rows.a, first.a).to_array();
    let [b0, b1, b2, b3] = add(rows.b, first.b).to_array();
    let [c0, c1, c2, c3] = add(rows.c, first.c).to_array();
    let [d0, d1, d2, d3] = add(rows.d, first.d).to_array();
    [
        a0, a1, a2, a3, b0, b1, b2, b3, c0, c1, c2, c3, d0, d1, d2, d3,
    ]
}

/// The sums of the words of two rows, with the carries dropped.
#[inline(always)]
fn add(a: u32x4, b: u32x4) -> u32x4
    ensures { (j : ℕ) → j < 4 → slice_index result j ≡ add32 (slice_index a j) (slice_index b j) }
{
    a + b
}

/// Each word of a row with that of another by exclusive or, turned left by `k` bits.
#[inline(always)]
fn xor_rotate(a: u32x4, b: u32x4, k: u32) -> u32x4
    requires { (0 < k) × (k < 32) }
    ensures { (j : ℕ) → j < 4 → slice_index result j ≡ xor_rotate (slice_index a j) (slice_index b j) k }
{
    let x = a ^ b;
    (x << u32x4::splat(k)) | (x >> u32x4::splat(32 - k))
}
