use super::assert_act;
use event_bags::Bags;
use std::alloc::Global;
use std::marker::Model;
use std::process::Abort;
use std::test::Fail;

/// Three bags.
#[derive(Drop)]
struct Three {
    bags: Bags<u64>,
}

impl Model for Three {
    ghost use Rattle.std.specs.Prelude.{◌≡◌, ℕ, length};
    ghost use Rattle.event_bags.specs.Views.{BagsView};

    ghost Value = { BagsView ℕ };

    ghost view = { λ three. three.bags };

    ghost invariant = { λ three. length three.bags.bags ≡ 3 };
}

/// What is done with three bags.
#[derive(Clone, Copy)]
enum Act {
    Push(usize, u64),
    /// The value at the front of a bag is this one, and goes.
    Pop(usize, Option<u64>),
    /// Nothing is in a bag.
    Empty(usize),
}

impl Three {
    /// Bags that have room for so many values.
    fn new(alloc: Global, room: usize) -> Result<Three, Fail> {
        let mut bags = Bags::new(alloc, 3)?;
        bags.reserve(room)?;
        Ok(Three { bags })
    }

    /// Puts a value to the front of a bag, if there is that bag.
    fn push(&mut self, bag: usize, value: u64) -> Result<bool, Fail> {
        self.bags.reserve(1)?;
        let is_there = bag < 3;
        if is_there {
            self.bags.push(bag, value);
        }
        Ok(is_there)
    }

    /// Does what it is told, and answers whether that comes out as it is told.
    fn act(&mut self, act: &Act) -> Result<bool, Fail> {
        match *act {
            Act::Push(bag, value) => self.push(bag, value),
            Act::Pop(bag, value) => Ok(bag < 3 && self.bags.pop(bag) == value),
            Act::Empty(bag) => Ok(bag < 3 && self.bags.is_empty(bag)),
        }
    }
}

/// Each of these comes out as it is told.
fn assert_acts<R: Abort>(rt: &R, alloc: Global, acts: &[Act]) -> Result<(), Fail> {
    let mut three = Three::new(alloc, 4)?;
    for (place, act) in acts.iter().enumerate() {
        assert_act(rt, three.act(act)?, place);
    }
    Ok(())
}

const FRONTS: [Act; 13] = [
    Act::Push(0, 10),
    Act::Push(2, 20),
    Act::Push(0, 11),
    Act::Pop(0, Some(11)),
    Act::Push(2, 21),
    Act::Push(1, 30),
    Act::Pop(2, Some(21)),
    Act::Pop(2, Some(20)),
    Act::Empty(2),
    Act::Pop(2, None),
    Act::Pop(0, Some(10)),
    Act::Pop(1, Some(30)),
    Act::Empty(1),
];

#[test]
fn values_come_back_from_the_front_of_their_bags(rt: HostRuntime) -> Result<(), Fail> {
    assert_acts(&rt, rt.alloc(), &FRONTS)
}
