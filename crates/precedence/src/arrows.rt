//! A graph of numbered nodes.

ghost use Rattle.std.specs.Prelude.{◌≡◌, ◌<◌};
ghost use Rattle.std.specs.List.{All};
ghost use Rattle.precedence.specs.Graph.{Graph};

/// A graph of nodes that are numbered from 0, each parent below its child.
pub trait Arrows {
    /// The graph.
    ghost graph: { Self → Graph };

    /// How many nodes there are.
    fn count(&self) -> usize
        ensures { result ≡ (graph self.now).count };

    /// The parents of a node.
    fn parents(&self, node: usize) -> &[u32]
        requires { node < (graph self.now).count }
        ensures are { result.now ≡ (graph self.now).parents node }
        ensures below { All (λ parent. parent < node) result.now };

    /// Whether the node is ragged: it names what isn't in the graph.
    fn ragged(&self, node: usize) -> bool
        requires { node < (graph self.now).count }
        ensures { result ≡ (graph self.now).ragged node };
}
