//! Two stations that exchange letters by hand.
ghost use Rattle.std.specs.Prelude.{◌≡◌, ◌<◌, true, Err, IfErr, IfOk, OnOk};
ghost use Rattle.sup_replica.specs.declared.refusal.Refusal.TheVariants.{KeepFailed};
ghost use Rattle.sup_station.specs.KeptStations.{keeper_of, kept_station_of};
ghost use Rattle.sup_uses.specs.Letters.{BringsLetter, CountsFailure, CountsNone, IsUpToDate, MakesExchange, SendsLetter, StopsExchange, StopsLetter, StopsSending};

use sup_keeper::Keeper;
use sup_placement::Weigh;
use sup_replica::{Act, Event, Letter, Refusal};
use sup_specs::NodeName;
use sup_station::Station;

/// Brings letters from either station to the other, until a round finds that neither has anything that the other hasn't acknowledged, but
/// by no more than so many rounds. Whether it came to such a round.
///
/// # Errors
///
/// As the first act that is refused, but for a ship that has nothing to bring. A part may be done then. `KeepFailed` comes only where one
/// of the two keepers counted a failure, and none does where nothing is refused.
pub fn exchange<K: Keeper, W: Weigh>(
    left: &mut Station<K, W>,
    left_name: NodeName,
    right: &mut Station<K, W>,
    right_name: NodeName,
    times: u32,
    weigher: &W,
) -> Result<bool, Refusal>
    ensures left { IfOk result (λ all. all ≡ true → IsUpToDate W.weight_of (kept_station_of K.kept left.new) right_name) }
    ensures right { IfOk result (λ all. all ≡ true → IsUpToDate W.weight_of (kept_station_of K.kept right.new) left_name) }
    ensures exchanged { IfOk result (λ all. MakesExchange W.weight_of left_name right_name times all
        (kept_station_of K.kept left.old) (kept_station_of K.kept right.old) (kept_station_of K.kept left.new) (kept_station_of K.kept right.new)) }
    ensures stopped { IfErr result (λ r. StopsExchange W.weight_of left_name right_name times r
        (kept_station_of K.kept left.old) (kept_station_of K.kept right.old) (kept_station_of K.kept left.new) (kept_station_of K.kept right.new)) }
    ensures rose { result ≡ Err KeepFailed → CountsFailure K.failures (keeper_of left.old) (keeper_of right.old) (keeper_of left.new) (keeper_of right.new) }
    ensures uncounted { OnOk result (CountsNone K.failures (keeper_of left.old) (keeper_of right.old) (keeper_of left.new) (keeper_of right.new)) }
{
    for _ in 0..times {
        let there = send(left, right, right_name, weigher)?;
        let back = send(right, left, left_name, weigher)?;
        if !there && !back {
            return Ok(true);
        }
    }
    Ok(false)
}

// Ships what the receiver hasn't acknowledged, and brings back the acknowledgement. Whether there was anything to ship.
fn send<K: Keeper, W: Weigh>(
    from: &mut Station<K, W>,
    to: &mut Station<K, W>,
    receiver: NodeName,
    weigher: &W,
) -> Result<bool, Refusal>
    ensures sends { IfOk result (λ sent. SendsLetter W.weight_of receiver (kept_station_of K.kept from.old) (kept_station_of K.kept to.old) sent
        (kept_station_of K.kept from.new) (kept_station_of K.kept to.new)) }
    ensures stops { IfErr result (λ r. StopsSending W.weight_of receiver (kept_station_of K.kept from.old) (kept_station_of K.kept to.old) r
        (kept_station_of K.kept from.new) (kept_station_of K.kept to.new)) }
    ensures rose { result ≡ Err KeepFailed → CountsFailure K.failures (keeper_of from.old) (keeper_of to.old) (keeper_of from.new) (keeper_of to.new) }
    ensures uncounted { OnOk result (CountsNone K.failures (keeper_of from.old) (keeper_of to.old) (keeper_of from.new) (keeper_of to.new)) }
{
    match from.step(Act::Event(Event::Ship(receiver)), 0, weigher) {
        Ok(done) => {
            let answer = bring(to, done.out, weigher)?;
            bring(from, answer, weigher)?;
            Ok(true)
        }
        Err(Refusal::UpToDate) => Ok(false),
        Err(refusal) => Err(refusal),
    }
}

// Brings a letter to its receiver, and gives the one that this answers.
fn bring<K: Keeper, W: Weigh>(
    to: &mut Station<K, W>,
    letter: Option<Letter>,
    weigher: &W,
) -> Result<Option<Letter>, Refusal>
    ensures brings { IfOk result (λ answer. BringsLetter W.weight_of letter (kept_station_of K.kept to.old) answer (kept_station_of K.kept to.new)) }
    ensures stops { IfErr result (λ r. StopsLetter W.weight_of letter (kept_station_of K.kept to.old) r (kept_station_of K.kept to.new)) }
    ensures rose { result ≡ Err KeepFailed → K.failures (keeper_of to.old) < K.failures (keeper_of to.new) }
    ensures uncounted { OnOk result (K.failures (keeper_of to.new) ≡ K.failures (keeper_of to.old)) }
{
    let Some(letter) = letter else {
        return Ok(None);
    };
    let done = to.step(Act::Event(Event::Deliver(letter.bytes)), 0, weigher)?;
    Ok(done.out)
}
