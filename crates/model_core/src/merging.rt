//! Records of two buffers as one, by their heads.
ghost use Rattle.std.specs.Prelude.{◌≡◌, ◌+◌, ◌*◌, ◌<◌, ◌≤◌, ◌^◌, ◌++◌, [], length, map, vec_capacity, vec_len, if◌then◌else◌, All, IsPermutation};
ghost use Rattle.model_core.specs.Records.{head_key, place, shifted};
ghost use Rattle.model_core.specs.Sorted.{AreSorted, IsMerging};

use crate::record_head::RecordHead;
use event_key::Key;

/// Where an event comes among others, but for its source and serial.
fn place_of(key: &Key) -> u128
    ensures place { result ≡ place key.now }
    ensures rank { key.now.rank < 2 ^ 32 }
    ensures dest { key.now.dest < 2 ^ 32 }
{
    u128::from(key.stamp) * 18_446_744_073_709_551_616
        + u128::from(key.rank) * 4_294_967_296
        + u128::from(key.dest)
}

/// One of two heads, the second with its parts so much further on.
fn choose(is_first: bool, one: &RecordHead, other: &RecordHead, by: u64) -> RecordHead
    requires { other.now.start + by < 2 ^ 64 }
    ensures { result ≡ (if is_first then one.now else shifted by other.now) }
{
    let (head, further) = if is_first { (one, 0) } else { (other, by) };
    RecordHead {
        key: head.key,
        start: head.start + further,
        count: head.count,
    }
}

/// Merges two sorted lists, the second with its parts so much further on, up to two heads at one place. Which head comes
/// next is as good as random, so no branch is taken by it. Answers how many are merged of each.
fn merge_apart(
    left: &[RecordHead],
    right: &[RecordHead],
    by: u64,
    merged: &mut Vec<RecordHead>,
) -> (usize, usize)
    requires left { AreSorted head_key left.now }
    requires right { AreSorted head_key right.now }
    requires further { All (λ head. head.start + by < 2 ^ 64) right.now }
    requires empty { merged.old.items ≡ [] }
    requires room { length left.now + length right.now ≤ vec_capacity merged.old }
    ensures merging { IsMerging head_key left.now (map (shifted by) right.now) result.0 result.1 merged.new.items }
    ensures count { vec_len merged.new ≡ result.0 + result.1 }
    ensures capacity { vec_capacity merged.new ≡ vec_capacity merged.old }
{
    let (mut i, mut j) = (0, 0);
    while i < left.len() && j < right.len() {
        let (one, other) = (&left[i], &right[j]);
        let (here, there) = (place_of(&one.key), place_of(&other.key));
        if here == there {
            break;
        }
        let is_left = here < there;
        merged.push_reserved(choose(is_left, one, other, by));
        i += usize::from(is_left);
        j += usize::from(!is_left);
    }
    (i, j)
}

/// Heads behind others, where there is room for them, with their parts so much further on.
fn put_heads(heads: &[RecordHead], by: u64, into: &mut Vec<RecordHead>)
    requires further { All (λ head. head.start + by < 2 ^ 64) heads.now }
    requires room { vec_len into.old + length heads.now ≤ vec_capacity into.old }
    ensures items { into.new.items ≡ into.old.items ++ map (shifted by) heads.now }
    ensures capacity { vec_capacity into.new ≡ vec_capacity into.old }
{
    for head in heads {
        into.push_reserved(RecordHead {
            key: head.key,
            start: head.start + by,
            count: head.count,
        });
    }
}

/// Two sorted lists as one, the second with its parts so much further on.
pub fn merge(left: &[RecordHead], right: &[RecordHead], by: u64, merged: &mut Vec<RecordHead>)
    requires left { AreSorted head_key left.now }
    requires right { AreSorted head_key right.now }
    requires here { All (λ head. head.start < 2 ^ 64) left.now }
    requires further { All (λ head. head.start + by < 2 ^ 64) right.now }
    requires empty { merged.old.items ≡ [] }
    requires room { length left.now + length right.now ≤ vec_capacity merged.old }
    ensures permutes { IsPermutation (left.now ++ map (shifted by) right.now) merged.new.items }
    ensures ordered { AreSorted head_key merged.new.items }
    ensures capacity { vec_capacity merged.new ≡ vec_capacity merged.old }
{
    let (mut i, mut j) = merge_apart(left, right, by, merged);
    // most often one list is used up
    while i < left.len() && j < right.len() {
        let is_left = left[i].key.is_before(&right[j].key);
        merged.push_reserved(choose(is_left, &left[i], &right[j], by));
        if is_left {
            i += 1;
        } else {
            j += 1;
        }
    }
    put_heads(&left[i..], 0, merged);
    put_heads(&right[j..], by, merged);
}
