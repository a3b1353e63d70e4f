//! The archive as an ND-tree.
ghost use Rattle.std.specs.Prelude.{◌≡◌, ◌≤◌, [], IsTrue};
ghost use Rattle.pls_archive.specs.Lists.{Every};
ghost use Rattle.pls_archive.specs.Reply.{some_weakly_dominates};

use crate::node::{Node, Spare};
use crate::recent::Recent;
use pls_archive::{Nondominated, Point, PointList, Single, Taken};
use pls_vectors::Vector;
use std::alloc::{AllocError, Global};
use std::cmp::{max, min};
use std::marker::Model;

/// How many levels of inner nodes a tree may have. A leaf below so many is not divided.
const MOST_LEVELS: usize = 256;

/// The nondominated archive as an ND-tree (Jaszkiewicz and Lust 2018): the points lie in leaves, up to twenty in each, and each child of an
/// inner node has a box, which answers many questions without a look below.
#[derive(Drop)]
pub struct NdTree {
    objectives: u8,
    alloc: Global,
    longest: usize,
    root: Node,
    recent: Recent,
    spare: Spare,
}

impl Model for NdTree {
    ghost use Rattle.pls_archive.specs.Plain.{ListArchive};
    ghost use Rattle.nd_tree.specs.Tree.{IsTree};

    ghost Value = { ListArchive };

    ghost view = { λ a. record { objectives = a.objectives; points = a.root.points } };

    ghost invariant = { λ a. IsTree a.objectives a.longest a.root a.recent };
}

impl NdTree {
    /// An archive without members, for vectors of so many parts. It takes no memory until a point is added.
    pub fn new(alloc: Global, objectives: u8) -> NdTree
        requires some { 2 ≤ objectives }
        requires few { objectives ≤ 4 }
        ensures { result ≡ record { objectives = objectives; points = [] } }
    {
        NdTree {
            objectives,
            alloc,
            longest: 21,
            root: Node::empty(alloc),
            recent: Recent::new(),
            spare: Spare::new(alloc),
        }
    }
}

impl Single for NdTree {
    type Law = Nondominated;

    ghost number = { λ _. 0 };

    ghost objectives = { λ a. a.objectives };

    ghost points = { λ a. a.points };

    fn update(&mut self, point: Point) -> Result<Taken, AllocError> {
        let point = &point;
        if refuses(&self.root, &mut self.recent, &point.value) {
            return Ok(Taken::Refused);
        }
        let count = self.objectives as usize + 2;
        let Some(room) = self.longest.checked_add(1) else {
            return Err(AllocError);
        };
        self.spare.fill(self.alloc, count, room)?;
        let removed = self.root.remove_dominated(self.alloc, &point.value);
        let len = self
            .root
            .insert(self.alloc, point, MOST_LEVELS, &mut self.spare);
        self.longest = max(self.longest, len);
        Ok(Taken::Added {
            removed: min(removed, u32::MAX as usize) as u32,
        })
    }

    fn covered(&self, value: &Vector) -> bool {
        self.root.covering(value).is_some()
    }

    fn member(&self, value: &Vector) -> bool {
        self.root.has(value)
    }

    fn snapshot(&self, alloc: Global) -> Result<PointList, AllocError> {
        let mut points = Vec::new(alloc);
        self.root.collect(&mut points)?;
        let list = PointList::sorted(points)?;
        Ok(list)
    }
}

/// Whether a point of the tree covers the value. What covers it is remembered.
fn refuses(root: &Node, recent: &mut Recent, value: &Vector) -> bool
    requires { Every (λ w. IsTrue (some_weakly_dominates root.now.points w)) recent.old }
    ensures answer { result ≡ some_weakly_dominates root.now.points value.now }
    ensures recent { Every (λ w. IsTrue (some_weakly_dominates root.now.points w)) recent.new }
{
    if recent.covers(value) {
        return true;
    }
    match root.covering(value) {
        Some(w) => {
            recent.remember(&w);
            true
        }
        None => false,
    }
}
