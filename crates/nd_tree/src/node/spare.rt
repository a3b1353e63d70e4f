//! Memory that an insertion may need.
ghost use Rattle.std.specs.Prelude.{◌≡◌, ◌+◌, ◌<◌, ◌≤◌, [], OnOk, vec_capacity};

use super::Node;
use crate::leaf::Leaf;
use pls_vectors::Range;
use std::alloc::{AllocError, Global};
use std::marker::Model;
use std::mem;

/// Leaves without points, each with memory for `room` points, and empty lists with memory for `links` boxes and as many children.
#[derive(Drop)]
pub struct Spare {
    room: usize,
    links: usize,
    leaves: Vec<Leaf>,
    boxes: Vec<Range>,
    children: Vec<Node>,
}

impl Model for Spare {
    ghost use Rattle.std.specs.Prelude.{◌≡◌, ◌≤◌, [], length, vec_capacity};
    ghost use Rattle.pls_archive.specs.Lists.{Every};
    ghost use Rattle.nd_tree.specs.Insertion.{Ready};

    ghost Value = { Ready };

    ghost view = { λ a. record { leaves = length a.leaves.items; room = a.room; links = a.links } };

    ghost invariant = { λ a. Every (λ l. (l.points ≡ []) × (a.room ≤ l.room)) a.leaves.items
        × (a.boxes.items ≡ []) × (a.children.items ≡ []) × (a.links ≤ vec_capacity a.boxes) × (a.links ≤ vec_capacity a.children) };
}

impl Spare {
    pub fn new(alloc: Global) -> Spare
        ensures { result ≡ record { leaves = 0; room = 0; links = 0 } }
    {
        Spare {
            room: 0,
            links: 0,
            leaves: Vec::new(alloc),
            boxes: Vec::new(alloc),
            children: Vec::new(alloc),
        }
    }

    /// Finds what memory is still lacking for so many leaves and children, where a leaf has memory for so many points.
    pub fn fill(&mut self, alloc: Global, count: usize, room: usize) -> Result<(), AllocError>
        ensures leaves { OnOk result (count ≤ self.new.leaves) }
        ensures room { OnOk result (room ≤ self.new.room) }
        ensures links { OnOk result (count ≤ self.new.links) }
    {
        self.link(count)?;
        self.widen(room);
        while self.leaf_count() < count {
            self.add_leaf(alloc)?;
        }
        Ok(())
    }

    fn leaf_count(&self) -> usize
        ensures { result ≡ self.now.leaves }
    {
        self.leaves.len()
    }

    /// Finds memory for so many boxes and children.
    fn link(&mut self, count: usize) -> Result<(), AllocError>
        ensures links { OnOk result (count ≤ self.new.links) }
    {
        if self.links < count {
            self.boxes.try_reserve(count)?;
            self.children.try_reserve(count)?;
            self.links = count;
        }
        Ok(())
    }

    /// Lets leaves with memory for fewer points go.
    fn widen(&mut self, room: usize)
        ensures room { room ≤ self.new.room }
        ensures links { self.new.links ≡ self.old.links }
    {
        if self.room < room {
            self.leaves.clear();
            self.room = room;
        }
    }

    fn add_leaf(&mut self, alloc: Global) -> Result<(), AllocError>
        ensures leaves { OnOk result (self.new.leaves ≡ self.old.leaves + 1) }
        ensures room { self.new.room ≡ self.old.room }
        ensures links { self.new.links ≡ self.old.links }
    {
        let leaf = Leaf::with_room(alloc, self.room)?;
        self.leaves.push(leaf)?;
        Ok(())
    }

    /// One of the leaves.
    pub fn take_leaf(&mut self) -> Leaf
        requires { 0 < self.old.leaves }
        ensures points { result.points ≡ [] }
        ensures room { self.old.room ≤ result.room }
        ensures leaves { self.new.leaves + 1 ≡ self.old.leaves }
        ensures links { self.new.links ≡ self.old.links }
        ensures same { self.new.room ≡ self.old.room }
    {
        match self.leaves.pop() {
            Some(leaf) => leaf,
            None => unreachable!(),
        }
    }

    /// The lists of boxes and of children.
    pub fn take_links(&mut self, alloc: Global) -> (Vec<Range>, Vec<Node>)
        ensures boxes { result.0.items ≡ [] }
        ensures children { result.1.items ≡ [] }
        ensures boxes_room { self.old.links ≤ vec_capacity result.0 }
        ensures children_room { self.old.links ≤ vec_capacity result.1 }
        ensures leaves { self.new.leaves ≡ self.old.leaves }
        ensures same { self.new.room ≡ self.old.room }
    {
        self.links = 0;
        let boxes = mem::replace(&mut self.boxes, Vec::new(alloc));
        let children = mem::replace(&mut self.children, Vec::new(alloc));
        (boxes, children)
    }
}
