// Replaying: checks 1 to 5, 16, 6, 7 and 9, then row by row. Nothing is changed.
ghost use Rattle.std.specs.Prelude.{◌≡◌, Ok};
ghost use Rattle.network.specs.Network.{known_count, checked};
ghost use Rattle.journal.specs.Journal.{read_journal};
ghost use Rattle.transition.specs.Step.{transition};
ghost use Rattle.decoder.specs.Refusal.{refusal_of};
ghost use Rattle.replaying.specs.Replay.{replay_read, replaying};
ghost use Rattle.std.proofs.Math.Option.{none};

use crate::compare::Standing;
use decoder::known::rows_known;
use journal::check::read_journal;
use network::check::check_network;
use network::lent::Network;
use refusals::Refusal;
use transition::step::{Settings, settings_fit};

// Checks 7 and 9, then row by row.
fn replay_journal(
    net: &Network<'_>,
    settings: Settings,
    journal: &[u32],
) -> Result<Option<u32>, Refusal>
    requires { checked net.now ≡ Ok tt }
    ensures { result ≡ replay_read none (known_count net.now) (transition net.now settings) (read_journal journal.now) }
{
    let survey = read_journal(journal)?;
    if !rows_known(journal, survey.rows, survey.used, net.lengths.len() as u32) {
        return Err(Refusal::Candidate);
    }
    let standing = Standing {
        net,
        settings,
        journal,
        end: survey.used,
    };
    Ok(standing.compare_rows())
}

// All checks, then the number of the first row whose words differ from what feeding its own recorded fix on the rows before it would write, or none:
// every row is what feeding gives. Words past the used ones are not looked at.
#[tactic(auto, unfolding(decoder::specs::Refusal::refusal_of, crate::specs::Replay::replaying))]
pub fn replay(
    net: &Network<'_>,
    settings: Settings,
    journal: &[u32],
) -> Result<Option<u32>, Refusal>
    ensures { result ≡ replaying (refusal_of net.now settings) (known_count net.now) (transition net.now settings) journal.now }
{
    check_network(net)?;
    if !settings_fit(settings) {
        return Err(Refusal::Setting);
    }
    replay_journal(net, settings, journal)
}
