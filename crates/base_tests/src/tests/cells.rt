ghost use Rattle.std.specs.Prelude.{◌≡◌, [], ◌∷◌, IfOk};

use super::following;
use event_chain::{Cell, CellPool, Chain};
use std::alloc::Global;
use std::collections::VecDeque;
use std::process::Abort;
use std::test::Fail;
use std::thread::{Builder, Threads, join};

/// A cell with a number.
fn cell(alloc: Global, value: u64) -> Result<Cell<u64>, Fail>
    ensures { IfOk result (λ cell. cell ≡ value) }
{
    match Cell::new(alloc, value) {
        Ok(cell) => Ok(cell),
        Err(_) => Err(Fail::from("no memory")),
    }
}

#[test]
fn a_cell_holds_its_value(rt: HostRuntime) -> Result<(), Fail> {
    let cell = cell(rt.alloc(), 7)?;
    assert!(rt; *cell.get() == 7);
    assert!(rt; cell.into_inner() == 7);
    Ok(())
}

/// A chain of these values.
fn chain_of(alloc: Global, values: &[u64]) -> Result<Chain<u64>, Fail> {
    let mut chain = Chain::new();
    for value in values {
        let cell = cell(alloc, *value)?;
        if chain.len() > 100 {
            return Err(Fail::from("too many cells"));
        }
        chain.push_back(cell);
    }
    Ok(chain)
}

/// A chain has these values, in this order.
fn assert_values<R: Abort>(rt: &R, chain: &mut Chain<u64>, values: &[u64]) -> Result<(), Fail> {
    assert!(rt; chain.len() == values.len());
    for value in values {
        let cell = chain.pop_front().ok_or("empty")?;
        assert!(rt; cell.into_inner() == *value);
    }
    assert!(rt; chain.len() == 0);
    Ok(())
}

#[test]
fn a_chain_is_its_values_in_order(rt: HostRuntime) -> Result<(), Fail> {
    let (first, second) = (cell(rt.alloc(), 1)?, cell(rt.alloc(), 2)?);
    let more = chain_of(rt.alloc(), &[3])?;
    let mut chain = Chain::new();
    assert!(rt; more.len() == 1);
    assert!(rt; chain.front().is_none());
    assert!(rt; chain.pop_front().is_none());
    chain.push_back(second);
    chain.push_front(first);
    chain.append(more);
    assert!(rt; chain.front() == Some(&1));
    assert_values(&rt, &mut chain, &[1, 2, 3])
}

#[test]
fn a_pool_hands_out_the_cells_that_it_gets_back(rt: HostRuntime) -> Result<(), Fail> {
    let mut pool = CellPool::new();
    assert!(rt; pool.spare() == 0);
    pool.reserve(rt.alloc(), 2)?;
    assert!(rt; pool.spare() == 2);
    let first: Cell<u64> = pool.fill(7);
    let second = pool.fill(8);
    assert!(rt; pool.spare() == 0);
    assert!(rt; pool.recycle(first) == 7);
    let third = pool.fill(9);
    assert!(rt; pool.recycle(second) == 8);
    assert!(rt; pool.recycle(third) == 9);
    assert!(rt; pool.spare() == 2);
    Ok(())
}

/// Two threads see a chain of one value.
fn assert_seen<R: Abort + Threads + Sync>(rt: &R, chain: &Chain<u64>, value: u64) {
    let (len, first) = join(rt, || chain.len(), || chain.front().copied());
    assert!(rt; len == 1);
    assert!(rt; first == Some(value));
}

/// A chain of one cell and a cell with a value may each go to a thread.
fn assert_moved<R: Abort + Threads + Sync>(rt: &R, chain: Chain<u64>, cell: Cell<u64>, value: u64) {
    let (len, there) = join(rt, move || chain.len(), move || cell.into_inner());
    assert!(rt; len == 1);
    assert!(rt; there == value);
}

#[test]
fn cells_cross_threads(rt: HostRuntime) -> Result<(), Fail> {
    let cell = cell(rt.alloc(), 6)?;
    let chain = chain_of(rt.alloc(), &[5])?;
    assert_seen(&rt, &chain, 5);
    assert_moved(&rt, chain, cell, 6);
    Ok(())
}

/// A chain of two values.
fn pair(alloc: Global, first: u64, second: u64) -> Result<Chain<u64>, Fail>
    ensures { IfOk result (λ chain. chain ≡ first ∷ second ∷ []) }
{
    let (first, second) = (cell(alloc, first)?, cell(alloc, second)?);
    let mut chain = Chain::new();
    chain.push_back(first);
    chain.push_back(second);
    Ok(chain)
}

#[test]
fn two_sorted_chains_become_one(rt: HostRuntime) -> Result<(), Fail> {
    let mut chain = pair(rt.alloc(), 1, 3)?;
    chain.merge_sorted(pair(rt.alloc(), 2, 4)?);
    assert_values(&rt, &mut chain, &[1, 2, 3, 4])
}

#[test]
fn a_million_cells_are_let_go_on_a_small_stack(rt: HostRuntime) -> Result<(), Fail> {
    let many = 1_000_000;
    let mut pool = CellPool::new();
    pool.reserve(rt.alloc(), many)?;
    let mut chain = Chain::new();
    for value in 0..many {
        assert!(rt; 0 < pool.spare() && chain.len() == value);
        chain.push_back(pool.fill(value));
    }
    pool.reserve(rt.alloc(), many)?;
    let small = Builder::new().stack_size(65_536);
    let dropped = small.spawn(&rt, move || {
        drop(chain);
        drop(pool);
    })?;
    dropped.join(&rt);
    Ok(())
}

/// A chain with its pool, beside a plain list that takes the same steps.
#[derive(Drop)]
struct Beside {
    chain: Chain<u64>,
    pool: CellPool<u64>,
    plain: VecDeque<u64>,
}

/// A cell of the pool, or a new one where the pool is empty.
fn filled(pool: &mut CellPool<u64>, alloc: Global, value: u64) -> Result<Cell<u64>, Fail> {
    if pool.spare() == 0 {
        return cell(alloc, value);
    }
    Ok(pool.fill(value))
}

impl Beside {
    fn new(alloc: Global) -> Beside {
        Beside {
            chain: Chain::new(),
            pool: CellPool::new(),
            plain: VecDeque::new(alloc),
        }
    }

    /// Whether the chain has as many values as the list, and the same first one.
    fn agrees(&self) -> bool {
        self.chain.len() == self.plain.len() && self.chain.front() == self.plain.front()
    }

    /// A value comes at the back or at the front, two come by a chain of their own, or the first one goes.
    fn step(&mut self, alloc: Global, choice: u64, value: u64) -> Result<(), Fail> {
        if self.chain.len() > 100_000 {
            return Err(Fail::from("too many cells"));
        }
        match choice {
            0 => {
                self.chain.push_back(filled(&mut self.pool, alloc, value)?);
                self.plain.push_back(value)?;
            }
            1 => {
                self.chain.push_front(filled(&mut self.pool, alloc, value)?);
                self.plain.push_front(value)?;
            }
            2 => {
                let mut more = Chain::new();
                more.push_back(filled(&mut self.pool, alloc, value)?);
                more.push_back(filled(&mut self.pool, alloc, value / 2)?);
                self.chain.append(more);
                self.plain.push_back(value)?;
                self.plain.push_back(value / 2)?;
            }
            _ => {
                let first = self.chain.pop_front().map(|cell| self.pool.recycle(cell));
                if first != self.plain.pop_front() {
                    return Err(Fail::from("another value"));
                }
            }
        }
        Ok(())
    }
}

#[test]
fn a_chain_takes_the_steps_of_a_plain_list(rt: HostRuntime) -> Result<(), Fail> {
    let mut beside = Beside::new(rt.alloc());
    let mut random: u64 = 1;
    for _ in 0..20_000 {
        random = following(random);
        beside.step(rt.alloc(), (random >> 33) % 6, random)?;
        assert!(rt; beside.agrees());
    }
    Ok(())
}
