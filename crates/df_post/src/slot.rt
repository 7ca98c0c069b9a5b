//! Room for the message to one shard, and then for its answer.

ghost use Rattle.std.specs.Prelude.{◌≡◌, ◌<◌, true, IfNone, IfSome, None};
ghost use Rattle.df_post.specs.Fits.{awaited_by};
ghost use Rattle.df_post.specs.Postings.{awaits_at, shards_of};
ghost use Rattle.df_post.specs.Rounds as rounds;
ghost use Rattle.df_post.specs.declared.awaited.Awaited.{Awaited};
ghost use Rattle.df_post.specs.Rounds.{Counts, Goes, IsMine, Lies, OnlyAt, awaited_in, is_done, place_of};

use crate::awaited::Awaited;
use crate::post::Post;
use df_book::Witness;
use df_hops::{Answer, Message};

/// Where the message to a shard stands.
#[derive(Drop)]
pub(crate) enum Slot {
    /// There is none.
    Idle,
    /// It found no room yet.
    Unsent(Message),
    /// It is on its way, and this awaits its answer.
    Sent(Witness<Awaited>),
    /// Its answer came.
    Answered(Witness<Awaited>, Answer),
}

/// Sends what is not sent, or else takes what came.
pub(crate) fn go<P: Post>(slot: Slot, shard: u32, post: &mut P) -> Slot
    requires mine { IsMine (P.posting post.old).book shard slot }
    requires there { shard < shards_of (P.posting post.old) }
    requires matches { awaits_at shard (P.posting post.old) ≡ awaited_in (place_of slot) }
    ensures mine { IsMine (P.posting post.old).book shard result }
    ensures only { OnlyAt shard (awaited_in (place_of result)) (P.posting post.old) (P.posting post.new) }
    ensures goes { Goes (place_of slot) (place_of result) }
    ensures counts { Counts (place_of slot) (place_of result) (P.posting post.old).stalls (P.posting post.new).stalls }
{
    match slot {
        Slot::Idle => Slot::Idle,
        Slot::Unsent(m) => send(m, post),
        Slot::Sent(awaited) => take(awaited, shard, post),
        Slot::Answered(awaited, answer) => Slot::Answered(awaited, answer),
    }
}

/// Where there is no room on the way, it stays unsent.
fn send<P: Post>(m: Message, post: &mut P) -> Slot
    requires book { m.ticket.book ≡ (P.posting post.old).book }
    requires there { m.shard < shards_of (P.posting post.old) }
    requires idle { awaits_at m.shard (P.posting post.old) ≡ None }
    ensures mine { IsMine (P.posting post.old).book m.shard result }
    ensures only { OnlyAt m.shard (awaited_in (place_of result)) (P.posting post.old) (P.posting post.new) }
    ensures goes { Goes (rounds.Unsent (awaited_by m)) (place_of result) }
    ensures counts { Counts (rounds.Unsent (awaited_by m)) (place_of result) (P.posting post.old).stalls (P.posting post.new).stalls }
{
    let awaited = Awaited::of(&m);
    match post.send(m) {
        Ok(()) => Slot::Sent(Witness::of(&awaited)),
        Err(m) => Slot::Unsent(m),
    }
}

/// Where no answer came, it stays sent.
fn take<P: Post>(awaited: Witness<Awaited>, shard: u32, post: &mut P) -> Slot
    requires awaits { awaits_at shard (P.posting post.old) ≡ Some awaited.value }
    ensures mine { IsMine (P.posting post.old).book shard result }
    ensures only { OnlyAt shard (awaited_in (place_of result)) (P.posting post.old) (P.posting post.new) }
    ensures goes { Goes (rounds.Sent awaited.value) (place_of result) }
    ensures counts { Counts (rounds.Sent awaited.value) (place_of result) (P.posting post.old).stalls (P.posting post.new).stalls }
{
    match post.take(shard) {
        Some(answer) => Slot::Answered(awaited, answer),
        None => Slot::Sent(awaited),
    }
}

/// What is left there, and the answer if one came.
pub(crate) fn hand_out(slot: Slot) -> (Slot, Option<Answer>)
    ensures came { IfSome result.1 (λ answer. Lies slot answer × (result.0 ≡ Slot.Idle)) }
    ensures none { IfNone result.1 ((result.0 ≡ slot) × ((a : Awaited) → place_of slot ≡ rounds.Answered a → ⊥)) }
{
    match slot {
        Slot::Idle => (Slot::Idle, None),
        Slot::Unsent(m) => (Slot::Unsent(m), None),
        Slot::Sent(awaited) => (Slot::Sent(awaited), None),
        Slot::Answered(_, answer) => (Slot::Idle, Some(answer)),
    }
}

impl Slot {
    /// Whether nothing is on its way.
    pub(crate) fn is_done(&self) -> bool
        ensures { result ≡ is_done (place_of self.now) }
    {
        match self {
            Slot::Idle => true,
            Slot::Unsent(_) => false,
            Slot::Sent(_) => false,
            Slot::Answered(_, _) => true,
        }
    }
}
