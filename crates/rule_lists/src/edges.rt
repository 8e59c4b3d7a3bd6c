//! The edges of the windows whose letters are known, and steps along these edges. A search fills the table of a rule
//! window by window, and the letters so far are called known. A node is a word of m - 1 letters.
use word_image::{EdgeRows, MOST_ENTRIES, MOST_NODES, MOST_STATES, Rule, Side};

/// The edges of the windows whose letters are known: forward edges on the right side, backward edges on the left. The
/// functions of this type have no contracts, since another test checks everything that is found with them.
#[derive(Drop)]
pub(crate) struct Edges {
    /// For each window the node at which its edge begins.
    from: [u8; MOST_ENTRIES],
    /// For each window the node at which its edge ends.
    to: [u8; MOST_ENTRIES],
    /// How much the value of a window grows if the number of the node at which its edge begins grows by one.
    node_step: u8,
    /// How much the value of a window grows if the letter of its edge grows by one.
    letter_step: u8,
    /// The number of letters k.
    k: u8,
    /// The number of nodes of the shape.
    nodes: u8,
    /// For each label and node, the set of nodes to which edges with this label lead from the node.
    ends: EdgeRows,
}

impl Edges {
    /// Makes the value for a shape and a side. It has no edges yet.
    pub(crate) fn of(side: Side, shape: &Rule) -> Edges {
        let mut from = [0; MOST_ENTRIES];
        let mut to = [0; MOST_ENTRIES];
        for window in 0..shape.size() {
            from[usize::from(window)] = side.other().end_node(shape, window);
            to[usize::from(window)] = side.end_node(shape, window);
        }
        let (k, nodes) = (shape.k(), shape.nodes());
        let (node_step, letter_step) = match side {
            Side::Right => (k, 1),
            Side::Left => (1, nodes),
        };
        Edges {
            from,
            to,
            node_step,
            letter_step,
            k,
            nodes,
            ends: [[0; MOST_NODES]; MOST_STATES],
        }
    }

    /// Returns the number of letters k.
    pub(crate) fn k(&self) -> u8 {
        self.k
    }

    /// Returns the node at which the edge of a window begins.
    pub(crate) fn first_node(&self, window: u8) -> u8 {
        self.from[usize::from(window)]
    }

    /// Returns the node at which the edge of a window ends.
    pub(crate) fn last_node(&self, window: u8) -> u8 {
        self.to[usize::from(window)]
    }

    /// Returns the window whose edge begins at this node and follows this letter.
    pub(crate) fn window(&self, node: u8, letter: u8) -> u8 {
        node.wrapping_mul(self.node_step)
            .wrapping_add(letter.wrapping_mul(self.letter_step))
    }

    /// Returns the number of the pair of these two nodes.
    pub(crate) fn pair(&self, first: u8, second: u8) -> u8 {
        first.wrapping_mul(self.nodes).wrapping_add(second)
    }

    /// Returns the set of nodes to which the edges with this label lead from this node.
    pub(crate) fn ends(&self, label: u8, node: u8) -> u16 {
        self.ends[usize::from(label % 16)][usize::from(node % 16)]
    }

    /// Returns the set of nodes to which the edges with this label lead from the nodes of a set.
    pub(crate) fn all_ends(&self, label: u8, nodes: u16) -> u16 {
        let mut ends = 0;
        for node in 0..self.nodes {
            if nodes & bit(node) != 0 {
                ends |= self.ends(label, node);
            }
        }
        ends
    }

    /// Adds the edge of this window with this label.
    pub(crate) fn add(&mut self, window: u8, label: u8) {
        let node = usize::from(self.first_node(window) % 16);
        let end = bit(self.last_node(window));
        self.ends[usize::from(label % 16)][node] |= end;
    }

    /// Removes the edge of this window with this label.
    pub(crate) fn remove(&mut self, window: u8, label: u8) {
        let node = usize::from(self.first_node(window) % 16);
        let end = bit(self.last_node(window));
        self.ends[usize::from(label % 16)][node] &= !end;
    }
}

/// Returns the set that contains only this node.
pub(crate) fn bit(node: u8) -> u16 {
    1u16 << (node % 16)
}

/// Returns the least node of a set that isn't empty.
pub(crate) fn first_node(set: u16) -> u8 {
    set.trailing_zeros() as u8
}
