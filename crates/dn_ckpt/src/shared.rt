//! A node with several owners.

ghost use Rattle.std.specs.Prelude.{◌≡◌, IfOk};
ghost use Rattle.std.specs.Arc.{arc_value};

use dn_guest::{Guest, NoMemory, Node};
use std::alloc::Global;
use std::marker::Model;
use std::sync::Arc;

/// A node that doesn't change any more, and that several owners have, in any threads. In a clause it is the node.
#[derive(Drop)]
pub struct SharedNode<G: Guest> {
    node: Arc<Node<G>, Global>,
}

impl<G: Guest> Model for SharedNode<G> {
    ghost use Rattle.std.specs.Arc.{arc_value};
    ghost use Rattle.dn_guest.specs.declared.node.Node.{Node};

    ghost Value = { Node G };

    ghost view = { λ s. arc_value s.node };
}

impl<G: Guest> SharedNode<G> {
    /// The node, with one owner.
    pub fn new(alloc: Global, node: Node<G>) -> Result<SharedNode<G>, NoMemory>
        ensures { IfOk result (λ made. made ≡ node) }
    {
        Ok(SharedNode {
            node: Arc::new(alloc, node)?,
        })
    }

    /// Another owner of the same node. It takes no memory. `NoMemory`: there are as many owners as can be counted.
    pub fn share(&self) -> Result<SharedNode<G>, NoMemory>
        ensures { IfOk result (λ other. other ≡ self.now) }
    {
        Ok(SharedNode {
            node: Arc::try_clone(&self.node)?,
        })
    }

    /// The node.
    pub fn node(&self) -> &Node<G>
        ensures { result.now ≡ self.now }
    {
        &*self.node
    }
}
