// The network that the host lends, in slices. A clause sees the lists of `specs/Network.antt`.
ghost use Rattle.network.specs.Network.{Relations as RelationLists, Windows as WindowLists, Network as NetworkLists};

use std::marker::Model;

// The six fields of the relations.
#[derive(Drop)]
pub struct Relations<'a> {
    pub from: &'a [u32],
    pub to: &'a [u32],
    pub from_side: &'a [u32],
    pub to_side: &'a [u32],
    pub forward: &'a [u32],
    pub backward: &'a [u32],
}

impl<'a> Model for Relations<'a> {
    ghost Value = { RelationLists };

    ghost view = { λ r.
        record {
          from = r.from.now;
          to = r.to.now;
          from_side = r.from_side.now;
          to_side = r.to_side.now;
          forward = r.forward.now;
          backward = r.backward.now;
        } };
}

// Possession windows: a count for each relation, four first and four last minutes.
#[derive(Drop)]
pub struct Windows<'a> {
    pub counts: &'a [u32],
    pub firsts: &'a [u32],
    pub lasts: &'a [u32],
}

impl<'a> Model for Windows<'a> {
    ghost Value = { WindowLists };

    ghost view = { λ w. record { counts = w.counts.now; firsts = w.firsts.now; lasts = w.lasts.now } };
}

#[derive(Drop)]
pub struct Network<'a> {
    pub lengths: &'a [f64],
    pub headings: &'a [f64],
    pub flags: &'a [u32],
    pub relations: Relations<'a>,
    pub windows: Windows<'a>,
}

impl<'a> Model for Network<'a> {
    ghost Value = { NetworkLists };

    ghost view = { λ n.
        record {
          lengths = n.lengths.now;
          headings = n.headings.now;
          flags = n.flags.now;
          relations = n.relations;
          windows = n.windows;
        } };
}
