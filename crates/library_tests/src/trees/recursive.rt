//! The insertion and the hiding as they were first written, each by recursion: all nodes of the way are made anew, and each one that is
//! made looks at its two sides.
use std::alloc::{AllocError, Global};

// A node: its sides, its element, how high it is, and how many elements are below it, its own among them.
#[derive(Clone, Copy)]
struct Made {
    left: Option<u32>,
    elem: u32,
    right: Option<u32>,
    height: u32,
    count: u32,
}

/// All nodes that were made, and the newest top.
#[derive(Drop)]
pub struct Recursive {
    made: Vec<Made>,
    top: Option<u32>,
}

// No way is as long.
const LEVELS: u32 = 64;

impl Recursive {
    pub fn new(alloc: Global) -> Recursive {
        Recursive {
            made: Vec::new(alloc),
            top: None,
        }
    }

    /// How many nodes were made.
    pub fn nodes(&self) -> usize {
        self.made.len()
    }

    /// The element at the place of the newest tree, and how many nodes lead to it, its own among them.
    pub fn at(&self, place: u32) -> Option<(u32, u64)> {
        let mut link = self.top;
        let mut left = place;
        for level in 1..u64::from(LEVELS) {
            let node = self.node(link)?;
            let before = self.count(node.left);
            if left == before {
                return Some((node.elem, level));
            }
            if left < before {
                link = node.left;
            } else {
                link = node.right;
                left = left.saturating_sub(before).saturating_sub(1);
            }
        }
        None
    }

    /// Puts an element in at a place.
    pub fn insert(&mut self, place: u32, elem: u32) -> Result<(), AllocError> {
        self.top = self.insert_in(self.top, place, elem, LEVELS)?;
        Ok(())
    }

    /// Hides the element at a place.
    pub fn hide(&mut self, place: u32) -> Result<(), AllocError> {
        self.top = self.hide_in(self.top, place, LEVELS)?;
        Ok(())
    }

    fn node(&self, link: Option<u32>) -> Option<Made> {
        let node = self.made.get(link? as usize)?;
        Some(*node)
    }

    fn height(&self, link: Option<u32>) -> u32 {
        match self.node(link) {
            None => 0,
            Some(node) => node.height,
        }
    }

    fn count(&self, link: Option<u32>) -> u32 {
        match self.node(link) {
            None => 0,
            Some(node) => node.count,
        }
    }

    fn fork(
        &mut self,
        left: Option<u32>,
        elem: u32,
        right: Option<u32>,
    ) -> Result<Option<u32>, AllocError> {
        let height = self.height(left).max(self.height(right)).saturating_add(1);
        let sides = self.count(left).saturating_add(self.count(right));
        let number = u32::try_from(self.made.len()).ok();
        self.made.push(Made {
            left,
            elem,
            right,
            height,
            count: sides.saturating_add(1),
        })?;
        Ok(number)
    }

    fn lean_left(
        &mut self,
        left: Option<u32>,
        elem: u32,
        right: Option<u32>,
    ) -> Result<Option<u32>, AllocError> {
        let Some(node) = self.node(left) else {
            return Ok(None);
        };
        if self.height(node.right) <= self.height(node.left) {
            let low = self.fork(node.right, elem, right)?;
            return self.fork(node.left, node.elem, low);
        }
        let Some(middle) = self.node(node.right) else {
            return Ok(None);
        };
        let low_left = self.fork(node.left, node.elem, middle.left)?;
        let low_right = self.fork(middle.right, elem, right)?;
        self.fork(low_left, middle.elem, low_right)
    }

    fn lean_right(
        &mut self,
        left: Option<u32>,
        elem: u32,
        right: Option<u32>,
    ) -> Result<Option<u32>, AllocError> {
        let Some(node) = self.node(right) else {
            return Ok(None);
        };
        if self.height(node.left) <= self.height(node.right) {
            let low = self.fork(left, elem, node.left)?;
            return self.fork(low, node.elem, node.right);
        }
        let Some(middle) = self.node(node.left) else {
            return Ok(None);
        };
        let low_left = self.fork(left, elem, middle.left)?;
        let low_right = self.fork(middle.right, node.elem, node.right)?;
        self.fork(low_left, middle.elem, low_right)
    }

    fn rebuild(
        &mut self,
        left: Option<u32>,
        elem: u32,
        right: Option<u32>,
    ) -> Result<Option<u32>, AllocError> {
        let (on_left, on_right) = (self.height(left), self.height(right));
        if on_right < on_left && on_left - on_right > 1 {
            self.lean_left(left, elem, right)
        } else if on_left < on_right && on_right - on_left > 1 {
            self.lean_right(left, elem, right)
        } else {
            self.fork(left, elem, right)
        }
    }

    fn insert_in(
        &mut self,
        link: Option<u32>,
        place: u32,
        elem: u32,
        levels: u32,
    ) -> Result<Option<u32>, AllocError> {
        let Some(node) = self.node(link) else {
            return self.fork(None, elem, None);
        };
        if levels == 0 {
            return Ok(None);
        }
        let before = self.count(node.left);
        if place <= before {
            let left = self.insert_in(node.left, place, elem, levels - 1)?;
            self.rebuild(left, node.elem, node.right)
        } else {
            let right = self.insert_in(node.right, place - before - 1, elem, levels - 1)?;
            self.rebuild(node.left, node.elem, right)
        }
    }

    fn hide_in(
        &mut self,
        link: Option<u32>,
        place: u32,
        levels: u32,
    ) -> Result<Option<u32>, AllocError> {
        let Some(node) = self.node(link) else {
            return Ok(None);
        };
        if levels == 0 {
            return Ok(None);
        }
        let before = self.count(node.left);
        if place < before {
            let left = self.hide_in(node.left, place, levels - 1)?;
            self.fork(left, node.elem, node.right)
        } else if place == before {
            self.fork(node.left, node.elem, node.right)
        } else {
            let right = self.hide_in(node.right, place - before - 1, levels - 1)?;
            self.fork(node.left, node.elem, right)
        }
    }
}
