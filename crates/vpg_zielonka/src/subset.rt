//! Sets of products of a universe.
ghost use Rattle.std.specs.Prelude.{◌≡◌};
ghost use Rattle.vpg_zielonka.specs.Universes.{node_of, bits_of};

use vpg_sets::Set;

/// A set of products of a universe.
#[derive(Clone, Copy, Debug, PartialEq, Eq)]
pub(crate) enum Subset {
    /// A node of decision diagrams.
    Node(Set),
    /// A bit for each listed product.
    Bits(u64),
}

impl Subset {
    /// Returns the node, or that of the empty set if it has none.
    pub(crate) fn node(self) -> Set
        ensures { result ≡ node_of self }
    {
        match self {
            Subset::Node(set) => set,
            Subset::Bits(_) => Set { node: 0 },
        }
    }

    /// Returns the bits, or none if it is a node.
    pub(crate) fn bits(self) -> u64
        ensures { result ≡ bits_of self }
    {
        match self {
            Subset::Node(_) => 0,
            Subset::Bits(bits) => bits,
        }
    }
}
