//! What leads to what between eight positions, and what that says of a list of them and of a set's roots.
//!
//! Pairs of positions are a number of 64 bits, where that of the pair from a to b is 8 a + b.
use crate::judge::Given;
use std::alloc::Global;
use std::process::Abort;

// Each position and itself.
const SAME: u64 = 0x8040_2010_0804_0201;

fn leads(pairs: u64, from: usize, to: usize) -> bool {
    from < 8 && to < 8 && (pairs >> (from * 8 + to)) & 1 == 1
}

// The pairs of which the one leads to the other, over all links or over those that aren't dev-only.
fn reach_of(links: &[(usize, usize, bool)], with_dev_only: bool) -> u64 {
    let mut pairs = SAME;
    for (from, to, is_dev_only) in links {
        if (with_dev_only || !*is_dev_only) && *from < 8 && *to < 8 {
            pairs |= 1 << (*from * 8 + *to);
        }
    }
    for via in 0..8 {
        for pair in 0..64 {
            if leads(pairs, pair / 8, via) && leads(pairs, via, pair % 8) {
                pairs |= 1 << pair;
            }
        }
    }
    pairs
}

fn is_mutual(pairs: u64, one: usize, other: usize) -> bool {
    leads(pairs, one, other) && leads(pairs, other, one)
}

// Whether a position leads there to which no other one leads.
fn has_root(pairs: u64, position: usize) -> bool {
    for root in 0..8 {
        let mut is_root = true;
        for other in 0..8 {
            is_root = is_root && (other == root || !leads(pairs, other, root));
        }
        if is_root && leads(pairs, root, position) {
            return true;
        }
    }
    false
}

fn has_cycle(pairs: u64) -> bool {
    for pair in 0..64 {
        if pair / 8 != pair % 8 && is_mutual(pairs, pair / 8, pair % 8) {
            return true;
        }
    }
    false
}

/// The links of a graph, and what leads to what over all of them and over those that aren't dev-only.
#[derive(Clone, Copy)]
pub(super) struct Reach<'a> {
    links: &'a [(usize, usize, bool)],
    all: u64,
    kept: u64,
}

impl<'a> Reach<'a> {
    pub(super) fn new(links: &'a [(usize, usize, bool)]) -> Self {
        Reach {
            links,
            all: reach_of(links, true),
            kept: reach_of(links, false),
        }
    }

    // Whether each index over the links that aren't dev-only has the one before the other.
    fn precedes(&self, one: usize, other: usize) -> bool {
        match (has_root(self.kept, one), has_root(self.kept, other)) {
            (true, true) => {
                self.links.contains(&(one, other, false)) && !leads(self.kept, other, one)
            }
            (false, false) => one < other,
            (is_one_first, _) => is_one_first,
        }
    }

    // The first rule that is broken by a position behind those before it in the list.
    fn broken_behind(&self, earlier: &[usize], later: usize) -> Option<&'static str> {
        let mut is_other_between = false;
        for earlier in earlier.iter().rev() {
            let is_mutual = is_mutual(self.all, *earlier, later);
            if *earlier == later {
                return Some("not each once");
            }
            if is_mutual && is_other_between {
                return Some("a component is torn");
            }
            if is_mutual && self.precedes(later, *earlier) {
                return Some("not by the index");
            }
            if !is_mutual && leads(self.all, later, *earlier) {
                return Some("a dependency first");
            }
            if !has_cycle(self.kept) && self.links.contains(&(later, *earlier, false)) {
                return Some("a dependency first that is not for development");
            }
            is_other_between = is_other_between || !is_mutual;
        }
        None
    }

    /// The first rule that is broken by a list of all positions, so many, dependents first; none where it
    /// is right.
    pub(super) fn broken_list_rule(&self, count: usize, list: &[usize]) -> Option<&'static str> {
        for (place, later) in list.iter().enumerate() {
            if *later >= count {
                return Some("not each once");
            }
            let broken = self.broken_behind(&list[..place], *later);
            if broken.is_some() {
                return broken;
            }
        }
        if list.len() != count {
            return Some("not each");
        }
        None
    }

    /// The roots of the members, where the links are those inside them.
    pub(super) fn roots_of(
        &self,
        rt: &impl Abort,
        alloc: Global,
        inside: Given<'_>,
        members: &[bool],
    ) -> Vec<bool> {
        let mut roots = Vec::new(alloc);
        for (position, is_member) in members.iter().enumerate() {
            let mut is_root = *is_member;
            for number in 0..inside.links.len() {
                let (near, far) = inside.ends(number);
                let is_entry = is_mutual(self.all, far, position);
                is_root = is_root && !(is_entry && !is_mutual(self.all, near, position));
            }
            roots.push(is_root).expect(rt, "roots");
        }
        roots
    }
}
