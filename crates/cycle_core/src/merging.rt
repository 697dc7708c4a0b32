//! The records of a cycle, in the order of their keys.
ghost use Rattle.std.specs.Prelude.{◌≡◌, ◌<◌, ◌++◌, [], length, IfOk, IfNone, IfSome, OnOk, IsPermutation};
ghost use Rattle.std.specs.List.{AllByRecursion};
ghost use Rattle.cycle_core.specs.Busy.{NamesTelling};
ghost use Rattle.cycle_core.specs.Ends.{told_by};
ghost use Rattle.cycle_core.specs.Records.{AreInOrder, RecordsDiffer, HaveGiven, HaveMerged, IsOnlyTold, MergesInto, TellsNothing};

use model_core::{OutOfMemory, RecordBuffer};
use node_core::Committed;
use std::mem;

/// Up to so many commits are merged one after another. More go two by two, so that their records are moved less often.
const FEW: usize = 3;

/// Two lists as one, in time linear in their records. Both are left empty. A list that is alone is handed on as it is.
fn merge_two(
    left: &mut RecordBuffer,
    right: &mut RecordBuffer,
    merged: &mut RecordBuffer,
) -> Result<(), OutOfMemory>
    requires left { AreInOrder left.old.items }
    requires right { AreInOrder right.old.items }
    requires differ { RecordsDiffer (left.old.items ++ right.old.items) }
    requires empty { merged.old.items ≡ [] }
    ensures permutes { OnOk result (IsPermutation (left.old.items ++ right.old.items) merged.new.items) }
    ensures ordered { OnOk result (AreInOrder merged.new.items) }
    ensures left { OnOk result (left.new.items ≡ []) }
    ensures right { OnOk result (right.new.items ≡ []) }
{
    if right.is_empty() {
        mem::swap(left, merged);
        return Ok(());
    }
    if left.is_empty() {
        mem::swap(right, merged);
        return Ok(());
    }
    merged.merge(left, right)
}

/// The records of a commit, put among those that are merged already.
fn merge_next(
    commit: &mut Committed,
    merged: &mut RecordBuffer,
    spare: &mut RecordBuffer,
) -> Result<(), OutOfMemory>
    requires merged { AreInOrder merged.old.items }
    requires next { AreInOrder commit.old.done.items }
    requires differ { RecordsDiffer (merged.old.items ++ commit.old.done.items) }
    requires spare { spare.old.items ≡ [] }
    ensures permutes { OnOk result (IsPermutation (merged.old.items ++ commit.old.done.items) merged.new.items) }
    ensures ordered { OnOk result (AreInOrder merged.new.items) }
    ensures emptied { OnOk result (TellsNothing commit.new) }
    ensures out { OnOk result (commit.new.out ≡ commit.old.out) }
    ensures spare { OnOk result (spare.new.items ≡ []) }
{
    if commit.done.is_empty() {
        return Ok(());
    }
    merge_two(merged, &mut commit.done, spare)?;
    mem::swap(merged, spare);
    Ok(())
}

/// The records of two commits, in the first one.
fn merge_into(
    first: &mut Committed,
    second: &mut Committed,
    spare: &mut RecordBuffer,
) -> Result<(), OutOfMemory>
    requires first { AreInOrder first.old.done.items }
    requires second { AreInOrder second.old.done.items }
    requires differ { RecordsDiffer (first.old.done.items ++ second.old.done.items) }
    requires spare { spare.old.items ≡ [] }
    ensures merged { OnOk result (MergesInto first.old second.old first.new second.new) }
    ensures spare { OnOk result (spare.new.items ≡ []) }
{
    merge_next(second, &mut first.done, spare)
}

/// The records of all these commits in the first one, merged two by two.
fn merge_all(parts: &mut [Committed], spare: &mut RecordBuffer) -> Result<(), OutOfMemory>
    requires some { 0 < length parts.old }
    requires ordered { AllByRecursion (λ c. AreInOrder c.done.items) parts.old }
    requires differ { RecordsDiffer (told_by parts.old) }
    requires spare { spare.old.items ≡ [] }
    ensures merged { OnOk result (HaveMerged parts.old parts.new) }
    ensures spare { OnOk result (spare.new.items ≡ []) }
{
    let count = parts.len();
    if count == 1 {
        return Ok(());
    }
    let (front, back) = parts.split_at_mut(count / 2);
    merge_all(front, spare)?;
    merge_all(back, spare)?;
    merge_into(&mut front[0], &mut back[0], spare)
}

/// The place of a commit without which the others tell of nothing, unless there are two that tell of something.
fn only_told(committed: &[Committed]) -> Option<usize>
    requires { 0 < length committed.now }
    ensures some { IfSome result (IsOnlyTold committed.now) }
    ensures none { IfNone result (1 < length committed.now) }
{
    let mut only = 0;
    let mut told = false;
    for i in 0..committed.len() {
        if committed[i].done.is_empty() {
            continue;
        }
        if told {
            return None;
        }
        only = i;
        told = true;
    }
    Some(only)
}

/// The same, if the commits that tell of something are among those at these places.
pub fn only_told_among(committed: &[Committed], busy: &[usize]) -> Option<usize>
    requires some { 0 < length committed.now }
    requires busy { NamesTelling committed.now busy.now }
    ensures some { IfSome result (IsOnlyTold committed.now) }
    ensures none { IfNone result (1 < length committed.now) }
{
    let mut only = 0;
    let mut told = false;
    for k in 0..busy.len() {
        let place = busy[k];
        if committed[place].done.is_empty() {
            continue;
        }
        if told {
            return None;
        }
        only = place;
        told = true;
    }
    Some(only)
}

/// The records of two commits or more in a list that was empty, merged two by two.
fn merge_halves(
    committed: &mut [Committed],
    merged: &mut RecordBuffer,
    spare: &mut RecordBuffer,
) -> Result<(), OutOfMemory>
    requires some { 1 < length committed.old }
    requires ordered { AllByRecursion (λ c. AreInOrder c.done.items) committed.old }
    requires differ { RecordsDiffer (told_by committed.old) }
    requires empty { merged.old.items ≡ [] }
    requires spare { spare.old.items ≡ [] }
    ensures permutes { OnOk result (IsPermutation (told_by committed.old) merged.new.items) }
    ensures ordered { OnOk result (AreInOrder merged.new.items) }
    ensures given { OnOk result (HaveGiven committed.old committed.new) }
    ensures spare { OnOk result (spare.new.items ≡ []) }
{
    let half = committed.len() / 2;
    let (front, back) = committed.split_at_mut(half);
    merge_all(front, spare)?;
    merge_all(back, spare)?;
    merge_two(&mut front[0].done, &mut back[0].done, merged)
}

/// All records of these commits in a list that was empty. If that at `only` alone tells of something, its list is handed out.
fn put_merged(
    committed: &mut [Committed],
    only: Option<usize>,
    merged: &mut RecordBuffer,
    spare: &mut RecordBuffer,
) -> Result<(), OutOfMemory>
    requires only { IfSome only (IsOnlyTold committed.old) }
    requires some { IfNone only (1 < length committed.old) }
    requires ordered { AllByRecursion (λ c. AreInOrder c.done.items) committed.old }
    requires differ { RecordsDiffer (told_by committed.old) }
    requires empty { merged.old.items ≡ [] }
    requires spare { spare.old.items ≡ [] }
    ensures permutes { OnOk result (IsPermutation (told_by committed.old) merged.new.items) }
    ensures ordered { OnOk result (AreInOrder merged.new.items) }
    ensures given { OnOk result (HaveGiven committed.old committed.new) }
    ensures spare { OnOk result (spare.new.items ≡ []) }
{
    match only {
        Some(only) => {
            mem::swap(&mut committed[only].done, merged);
            Ok(())
        }
        None => merge_halves(committed, merged, spare),
    }
}

/// All records of the commits at these places, which alone tell of something, in a list that was empty: one commit after
/// another.
fn merge_in_turn(
    committed: &mut [Committed],
    busy: &[usize],
    merged: &mut RecordBuffer,
    spare: &mut RecordBuffer,
) -> Result<(), OutOfMemory>
    requires busy { NamesTelling committed.old busy.now }
    requires ordered { AllByRecursion (λ c. AreInOrder c.done.items) committed.old }
    requires differ { RecordsDiffer (told_by committed.old) }
    requires empty { merged.old.items ≡ [] }
    requires spare { spare.old.items ≡ [] }
    ensures permutes { OnOk result (IsPermutation (told_by committed.old) merged.new.items) }
    ensures ordered { OnOk result (AreInOrder merged.new.items) }
    ensures given { OnOk result (HaveGiven committed.old committed.new) }
    ensures spare { OnOk result (spare.new.items ≡ []) }
{
    for k in 0..busy.len() {
        let place = busy[k];
        merge_next(&mut committed[place], merged, spare)?;
    }
    Ok(())
}

/// All records of commits, of which those at these places alone tell of something, in a list that was empty.
fn put_among(
    committed: &mut [Committed],
    only: Option<usize>,
    busy: &[usize],
    merged: &mut RecordBuffer,
    spare: &mut RecordBuffer,
) -> Result<(), OutOfMemory>
    requires only { IfSome only (IsOnlyTold committed.old) }
    requires some { IfNone only (1 < length committed.old) }
    requires busy { NamesTelling committed.old busy.now }
    requires ordered { AllByRecursion (λ c. AreInOrder c.done.items) committed.old }
    requires differ { RecordsDiffer (told_by committed.old) }
    requires empty { merged.old.items ≡ [] }
    requires spare { spare.old.items ≡ [] }
    ensures permutes { OnOk result (IsPermutation (told_by committed.old) merged.new.items) }
    ensures ordered { OnOk result (AreInOrder merged.new.items) }
    ensures given { OnOk result (HaveGiven committed.old committed.new) }
    ensures spare { OnOk result (spare.new.items ≡ []) }
{
    if only.is_none() && busy.len() <= FEW {
        return merge_in_turn(committed, busy, merged, spare);
    }
    put_merged(committed, only, merged, spare)
}

/// All records of these commits in the order of their keys, of which those at these places alone tell of something, in time
/// linear in the records and logarithmic in the commits. They are taken out of their lists and put into `told`, whatever that
/// holds. If one commit alone tells of something, which is at `only`, its list is handed out as it is.
pub fn merge_among(
    committed: &mut [Committed],
    only: Option<usize>,
    busy: &[usize],
    told: RecordBuffer,
    spare: &mut RecordBuffer,
) -> Result<RecordBuffer, OutOfMemory>
    requires only { IfSome only (IsOnlyTold committed.old) }
    requires some { IfNone only (1 < length committed.old) }
    requires busy { NamesTelling committed.old busy.now }
    requires ordered { AllByRecursion (λ c. AreInOrder c.done.items) committed.old }
    requires differ { RecordsDiffer (told_by committed.old) }
    requires spare { spare.old.items ≡ [] }
    ensures permutes { IfOk result (λ merged. IsPermutation (told_by committed.old) merged.items) }
    ensures ordered { IfOk result (λ merged. AreInOrder merged.items) }
    ensures given { OnOk result (HaveGiven committed.old committed.new) }
    ensures spare { OnOk result (spare.new.items ≡ []) }
{
    let mut merged = told;
    merged.clear();
    put_among(committed, only, busy, &mut merged, spare)?;
    Ok(merged)
}

/// The same, if it isn't known which commits tell of something. Any number of them may be there.
pub fn merge(
    committed: &mut [Committed],
    told: RecordBuffer,
    spare: &mut RecordBuffer,
) -> Result<RecordBuffer, OutOfMemory>
    requires ordered { AllByRecursion (λ c. AreInOrder c.done.items) committed.old }
    requires differ { RecordsDiffer (told_by committed.old) }
    requires spare { spare.old.items ≡ [] }
    ensures permutes { IfOk result (λ merged. IsPermutation (told_by committed.old) merged.items) }
    ensures ordered { IfOk result (λ merged. AreInOrder merged.items) }
    ensures given { OnOk result (HaveGiven committed.old committed.new) }
    ensures spare { OnOk result (spare.new.items ≡ []) }
{
    let mut merged = told;
    merged.clear();
    if committed.is_empty() {
        return Ok(merged);
    }
    let only = only_told(committed);
    put_merged(committed, only, &mut merged, spare)?;
    Ok(merged)
}
