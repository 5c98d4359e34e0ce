// The network and the settings of a call, in one.
ghost use Rattle.std.specs.Prelude.{◌≡◌};
ghost use Rattle.host.specs.Lent.{network_of};

use network::lent::{Network, Relations, Windows};

// The network that twelve slices hold.
pub fn network<'a>(
    lengths: &'a [f64],
    headings: &'a [f64],
    flags: &'a [u32],
    from: &'a [u32],
    to: &'a [u32],
    from_side: &'a [u32],
    to_side: &'a [u32],
    forward: &'a [u32],
    backward: &'a [u32],
    counts: &'a [u32],
    firsts: &'a [u32],
    lasts: &'a [u32],
) -> Network<'a>
    ensures { result ≡ network_of lengths.now headings.now flags.now
        from.now to.now from_side.now to_side.now forward.now backward.now counts.now firsts.now lasts.now }
{
    let relations = Relations {
        from,
        to,
        from_side,
        to_side,
        forward,
        backward,
    };
    let windows = Windows {
        counts,
        firsts,
        lasts,
    };
    Network {
        lengths,
        headings,
        flags,
        relations,
        windows,
    }
}
