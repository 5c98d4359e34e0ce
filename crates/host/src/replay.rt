// A journal replayed: whether feeding would have written its rows.
ghost use Rattle.std.specs.Prelude.{◌≡◌};
ghost use Rattle.network.specs.Network.{known_count};
ghost use Rattle.transition.specs.Step.{transition};
ghost use Rattle.decoder.specs.Refusal.{refusal_of};
ghost use Rattle.replaying.specs.Replay.{replaying};
ghost use Rattle.host.specs.Lent.{network_of, settings_of};
ghost use Rattle.host.specs.Status.{replay_status, replay_row};

use crate::lent::network;
use crate::status::{DIFFERS, DONE};
use replaying::replay::replay;
use transition::step::Settings;

// Done where each row's words are what feeding its own recorded fix would write; 254 and the row, from 0, for the first whose words differ; or a refusal by
// checks 1 to 5, 16, 6, 7, 9.
#[unsafe(no_mangle)]
pub extern "C" fn box_replay(
    lengths: &[f64],
    headings: &[f64],
    flags: &[u32],
    from: &[u32],
    to: &[u32],
    from_side: &[u32],
    to_side: &[u32],
    forward: &[u32],
    backward: &[u32],
    window_counts: &[u32],
    window_firsts: &[u32],
    window_lasts: &[u32],
    beta: f64,
    scale: f64,
    journal: &[u32],
    row: &mut u32,
) -> u32
    ensures { let net = network_of lengths.now headings.now flags.now
        from.now to.now from_side.now to_side.now forward.now backward.now
        window_counts.now window_firsts.now window_lasts.now in
        let settings = settings_of beta scale in
        let answer = replaying (refusal_of net settings) (known_count net) (transition net settings) journal.now in
        (result ≡ replay_status answer)
        × (row.new ≡ replay_row answer row.old) }
{
    let net = network(
        lengths,
        headings,
        flags,
        from,
        to,
        from_side,
        to_side,
        forward,
        backward,
        window_counts,
        window_firsts,
        window_lasts,
    );
    let settings = Settings { beta, scale };
    match replay(&net, settings, journal) {
        Ok(None) => DONE,
        Ok(Some(number)) => {
            *row = number;
            DIFFERS
        }
        Err(refusal) => refusal.number(),
    }
}
