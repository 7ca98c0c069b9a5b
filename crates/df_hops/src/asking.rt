//! How a caller makes a message, of the call that it drew last.

ghost use Rattle.std.specs.Prelude.{◌≡◌, ◌<◌, ◌/◌, ◌∷◌, [], length, Some, true};
ghost use Rattle.df_log.specs.Acts as acts;
ghost use Rattle.df_footprints.specs.Footprints.{commands_of, footprint_of};
ghost use Rattle.df_core.specs.Courses.{are_quick};
ghost use Rattle.df_core.specs.Due.{due};
ghost use Rattle.df_core.specs.Steps.{steps_of};
ghost use Rattle.df_book.specs.Draws.{call_at, draws_of, last_number};
ghost use Rattle.df_book.specs.Passes.{after_running, running_of, ticket_of};
ghost use Rattle.df_end.specs.Logs.{entries_in};
ghost use Rattle.df_hops.specs.Parts.{act_of, command_at, hash_for, shards_in};
ghost use Rattle.df_hops.specs.declared.message.Body.TheVariants as bodies;

use crate::message::{Body, Message, Part};
use df_book::{Book, CallerPass};
use df_caller::Slip;
use df_model::Keys;

/// Asks a shard for all of a call that has one hop, there.
pub fn quick(
    book: &Book,
    pass: &mut CallerPass,
    shard: u32,
    conn: u32,
    number: u64,
    hop: u32,
    hash: u64,
    slip: Box<Slip>,
) -> Message
    requires book { pass.old.book ≡ book.now }
    requires drawn { (0 < length pass.old.own) × (0 < draws_of number pass.old.own) }
    requires last { last_number pass.old.own ≡ number }
    requires call { slip.value.call ≡ call_at pass.old.own number }
    requires hash { hash ≡ hash_for hash slip.value.call }
    requires quick { are_quick (shards_in book.now) (commands_of slip.value.call) ≡ true }
    requires due { Some (acts.Run (command_at (commands_of slip.value.call) (hop / 4))) ≡ due (shards_in book.now) slip.value.call (λ i. []) shard hop }
    ensures pass { pass.new ≡ after_running pass.old }
    ensures message { (result.shard ≡ shard) × (result.conn ≡ conn) × (result.number ≡ number) }
    ensures body { result.body ≡ bodies.Quick hop hash slip }
    ensures ticket { result.ticket ≡ running_of pass.old }
{
    let ticket = book.ticket(pass, true);
    Message {
        shard,
        conn,
        number,
        body: Body::Quick(hop, hash, slip),
        ticket,
    }
}

/// Asks a shard for the call's intents and place there.
pub fn schedule(
    book: &Book,
    pass: &mut CallerPass,
    shard: u32,
    conn: u32,
    number: u64,
    keys: Box<Keys>,
) -> Message
    requires book { pass.old.book ≡ book.now }
    requires drawn { (0 < length pass.old.own) × (0 < draws_of number pass.old.own) }
    requires last { last_number pass.old.own ≡ number }
    requires keys { Some keys.value ≡ footprint_of (shards_in book.now) (call_at pass.old.own number) shard }
    ensures pass { pass.new ≡ pass.old }
    ensures message { (result.shard ≡ shard) × (result.conn ≡ conn) × (result.number ≡ number) }
    ensures body { result.body ≡ bodies.Schedule keys }
    ensures ticket { result.ticket ≡ ticket_of pass.old }
{
    let ticket = book.ticket(pass, false);
    Message {
        shard,
        conn,
        number,
        body: Body::Schedule(keys),
        ticket,
    }
}

/// Asks a shard for the next hop of a call that has its place there.
pub fn hop(
    book: &Book,
    pass: &mut CallerPass,
    shard: u32,
    conn: u32,
    number: u64,
    hop: u32,
    part: Part,
) -> Message
    requires book { pass.old.book ≡ book.now }
    requires drawn { (0 < length pass.old.own) × (0 < draws_of number pass.old.own) }
    requires last { last_number pass.old.own ≡ number }
    requires due { Some (act_of part) ≡ due (shards_in book.now) (call_at pass.old.own number) (λ i. steps_of (entries_in (shards_in book.now) pass.old.seen number i)) shard hop }
    ensures pass { pass.new ≡ after_running pass.old }
    ensures message { (result.shard ≡ shard) × (result.conn ≡ conn) × (result.number ≡ number) }
    ensures body { result.body ≡ bodies.Hop hop part }
    ensures ticket { result.ticket ≡ running_of pass.old }
{
    let running = book.ticket(pass, true);
    Message {
        shard,
        conn,
        number,
        body: Body::Hop(hop, part),
        ticket: running,
    }
}

/// Asks a shard to let go of the call, which ran nothing there.
pub fn cancel(book: &Book, pass: &mut CallerPass, shard: u32, conn: u32, number: u64) -> Message
    requires book { pass.old.book ≡ book.now }
    requires drawn { (0 < length pass.old.own) × (0 < draws_of number pass.old.own) }
    requires last { last_number pass.old.own ≡ number }
    ensures pass { pass.new ≡ pass.old }
    ensures message { (result.shard ≡ shard) × (result.conn ≡ conn) × (result.number ≡ number) }
    ensures body { result.body ≡ bodies.Cancel }
    ensures ticket { result.ticket ≡ ticket_of pass.old }
{
    let ticket = book.ticket(pass, false);
    Message {
        shard,
        conn,
        number,
        body: Body::Cancel,
        ticket,
    }
}

/// Asks a shard to let go of the call, which is done there.
pub fn conclude(book: &Book, pass: &mut CallerPass, shard: u32, conn: u32, number: u64) -> Message
    requires book { pass.old.book ≡ book.now }
    requires drawn { (0 < length pass.old.own) × (0 < draws_of number pass.old.own) }
    requires last { last_number pass.old.own ≡ number }
    ensures pass { pass.new ≡ pass.old }
    ensures message { (result.shard ≡ shard) × (result.conn ≡ conn) × (result.number ≡ number) }
    ensures body { result.body ≡ bodies.Conclude }
    ensures ticket { result.ticket ≡ ticket_of pass.old }
{
    let ticket = book.ticket(pass, false);
    Message {
        shard,
        conn,
        number,
        body: Body::Conclude,
        ticket,
    }
}
