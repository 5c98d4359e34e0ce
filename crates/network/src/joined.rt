// Whether an external edge leads from some nodes to others, by the relations themselves: nothing is compiled for it.
ghost use Rattle.std.specs.Prelude.{◌≡◌, ◌≤◌};
ghost use Rattle.network.specs.Graph.{relations_at, links_of};
ghost use Rattle.network.specs.inner.Sound.{NetworkFits};
ghost use Rattle.network.specs.inner.Nodes.{within, side_nodes, element_nodes, link_leads, relation_leads, joined};

use crate::lent::Network;
use crate::link::{Link, Relation, link_ahead, link_behind, node_of, relation_at};

// The nodes from one to another.
#[derive(Clone, Copy)]
pub struct Nodes {
    pub first: usize,
    pub last: usize,
}

// The node of a side.
pub fn side_nodes(element: usize, side: usize) -> Nodes
    requires { (element ≤ 4294967295) × (side ≤ 4294967295) }
    ensures { result ≡ side_nodes element side }
{
    let v = node_of(element, side);
    Nodes { first: v, last: v }
}

// The nodes of both sides.
pub fn element_nodes(element: usize) -> Nodes
    requires { element ≤ 4294967295 }
    ensures { result ≡ element_nodes element }
{
    Nodes {
        first: node_of(element, 0),
        last: node_of(element, 1),
    }
}

#[tactic(auto, unfolding(crate::specs::inner::Nodes::within))]
fn is_within(nodes: Nodes, v: usize) -> bool
    ensures { result ≡ within nodes v }
{
    nodes.first <= v && v <= nodes.last
}

// Most links start elsewhere, so that is asked first.
#[tactic(auto, unfolding(crate::specs::inner::Nodes::link_leads))]
fn link_leads(sources: Nodes, targets: Nodes, l: Link) -> bool
    ensures { result ≡ link_leads sources targets l }
{
    is_within(sources, l.from) && is_within(targets, l.to) && l.passable
}

#[tactic(auto, unfolding(crate::specs::inner::Nodes::relation_leads))]
fn relation_leads(elements: usize, sources: Nodes, targets: Nodes, r: Relation) -> bool
    ensures { result ≡ relation_leads elements sources targets r }
{
    link_leads(sources, targets, link_ahead(elements, r))
        || link_leads(sources, targets, link_behind(elements, r))
}

// Whether a relation's link leads at a minute from one of the sources to one of the targets, among so many elements.
pub fn are_joined(
    net: &Network<'_>,
    elements: usize,
    minute: u32,
    sources: Nodes,
    targets: Nodes,
) -> bool
    requires { NetworkFits net.now }
    ensures { result ≡ joined (links_of elements (relations_at net.now.windows minute net.now.relations)) sources targets }
{
    (0..net.relations.from.len()).any(|k| relation_leads(
        elements,
        sources,
        targets,
        relation_at(net, minute, k),
    ))
}
