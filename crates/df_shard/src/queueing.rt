//! How a call comes to wait: it takes its intents, its place and room for its hop, or nothing.

ghost use Rattle.std.specs.Prelude.{◌≡◌, ◌<◌, ◌≤◌, ◌++◌, ◌∷◌, [], true, false, IfNone, IfSome, OnOk, OnErr, IfErr};
ghost use Rattle.df_intents.specs.Holders.{holds, is_free};
ghost use Rattle.df_txqueue.specs.Places.{is_queued, with_place};
ghost use Rattle.df_shard.specs.Holds.{place_for, tail_of};
ghost use Rattle.df_shard.specs.declared.waiting.Waiting.{Waiting};

use crate::waiting::Waiting;
use df_intents::{Grant, Intents, room_of};
use df_model::Keys;
use df_txqueue::{Place, TxQueue};

/// The greatest number that waits, where it is above this one.
pub(crate) fn limit_for(queue: &TxQueue, number: u64) -> Option<u64>
    ensures low { IfNone result (tail_of queue.now.places ≤ number) }
    ensures high { IfSome result (λ limit. (number < limit) × (limit ≡ tail_of queue.now.places)) }
{
    let Some(tail) = queue.tail() else {
        return None;
    };
    if number < tail { Some(tail) } else { None }
}

/// Takes the intents and the place of a call, and keeps what waits of it. Where there is no memory, that comes back.
pub(crate) fn queue_up(
    intents: &mut Intents,
    queue: &mut TxQueue,
    waiting: &mut Vec<Waiting>,
    keys: Keys,
    call: Waiting,
) -> Result<(), Waiting>
    requires new { is_queued call.number queue.old.places ≡ false }
    requires none { holds call.number intents.old.holders ≡ false }
    ensures holders { OnOk result (intents.new.holders ≡ record { number = call.number; keys = keys } ∷ intents.old.holders) }
    ensures places { OnOk result (queue.new.places ≡ with_place (place_for call.number (is_free keys intents.old.holders)) queue.old.places) }
    ensures waiting { OnOk result (waiting.new.items ≡ waiting.old.items ++ call ∷ []) }
    ensures same { OnErr result ((intents.new.holders ≡ intents.old.holders) × (queue.new.places ≡ queue.old.places) × (waiting.new.items ≡ waiting.old.items)) }
    ensures back { IfErr result (λ given. given ≡ call) }
{
    if intents.reserve(room_of(&keys)).is_err()
        || queue.reserve(1).is_err()
        || waiting.reserve(1).is_err()
    {
        return Err(call);
    }
    let number = call.number;
    let granted = intents.take(number, keys) == Grant::Free;
    queue.insert(Place {
        number,
        granted,
        slot: 0,
    });
    waiting.push_reserved(call);
    Ok(())
}
