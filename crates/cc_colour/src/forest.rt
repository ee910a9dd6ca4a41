// Joins numbers into classes, with a forest whose trees are flattened when they are climbed. The root of a tree is its least
// number.

use std::alloc::{AllocError, Global};

/// The class of each number below a limit.
#[derive(Drop)]
pub struct Forest {
    parents: Vec<u32>,
}

impl Forest {
    /// Each number in a class of its own. There should be fewer than 2^32 numbers; if there are more, no class is kept.
    pub fn new(alloc: Global, count: usize) -> Result<Forest, AllocError> {
        let count = u32::try_from(count).unwrap_or(0);
        let mut parents = Vec::with_capacity(alloc, count as usize)?;
        for number in 0..count {
            parents.push(number)?;
        }
        Ok(Forest { parents })
    }

    /// Joins the classes of two numbers.
    pub fn join(&mut self, a: usize, b: usize) {
        let a = self.root(a);
        let b = self.root(b);
        if a < b {
            self.hang(b, a);
        } else {
            self.hang(a, b);
        }
    }

    /// Numbers the classes by their least numbers, and answers the class of each number, and the number of classes. `Err` if memory runs
    /// out.
    pub fn numbered(&mut self, alloc: Global) -> Result<(Vec<u32>, u32), AllocError> {
        let mut classes = Vec::with_capacity(alloc, self.parents.len())?;
        let mut count = 0u32;
        for number in 0..self.parents.len() {
            let root = self.root(number);
            match classes.get(root).copied() {
                Some(class) => classes.push(class)?,
                None => {
                    classes.push(count)?;
                    count = count.saturating_add(1);
                }
            }
        }
        Ok((classes, count))
    }

    // The root of a number's tree. On the way, every second number is hung from the number two steps above it.
    fn root(&mut self, number: usize) -> usize {
        let mut at = number;
        for _ in 0..self.parents.len() {
            let up = self.parent(at);
            if up == at {
                break;
            }
            let above = self.parent(up);
            self.hang(at, above);
            at = above;
        }
        at
    }

    fn parent(&self, number: usize) -> usize {
        match self.parents.get(number) {
            Some(parent) => *parent as usize,
            None => number,
        }
    }

    fn hang(&mut self, number: usize, parent: usize) {
        if let Some(place) = self.parents.get_mut(number) {
            *place = u32::try_from(parent).unwrap_or(0);
        }
    }
}
