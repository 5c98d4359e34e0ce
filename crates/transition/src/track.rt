// What steps read of a network.
use network::compile::CompiledGraph;
use std::marker::Model;

// The graph at a minute, compiled, and four headings and a flag for each element.
#[derive(Drop)]
pub struct Track<'a> {
    pub graph: &'a CompiledGraph<'a>,
    pub headings: &'a [f64],
    pub flags: &'a [u32],
}

impl<'a> Model for Track<'a> {
    ghost use Rattle.transition.specs.inner.Track.{TrackLists};

    ghost Value = { TrackLists };

    ghost view = { λ t. record { graph = t.graph.now; headings = t.headings.now; flags = t.flags.now } };
}
