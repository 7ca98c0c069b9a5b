//! How a call of one hop is asked for: it draws a number, and all of it goes to its shard.

ghost use Rattle.std.specs.Prelude.{◌≡◌, ◌+◌, ◌<◌};
ghost use Rattle.df_book.specs.Draws.{Bounded};
ghost use Rattle.df_hops.specs.Parts.{hash_for};
ghost use Rattle.df_post.specs.Fits.{awaited_by};
ghost use Rattle.df_coord.specs.Asking.{Asked, RunsAlone, awaited_for};

use df_book::{Book, CallerPass};
use df_caller::Slip;
use df_hops::{Message, quick};

/// Draws a number for the slip's call, and makes the message that asks for it. Takes no memory.
pub(crate) fn ask(
    book: &Book,
    pass: &mut CallerPass,
    shards: u32,
    conn: u32,
    slip: Box<Slip>,
    shard: u32,
    hash: u64,
) -> Message
    requires book { (pass.old.book ≡ book.now) × (book.now.words ≡ shards + 2) }
    requires some { 0 < shards }
    requires caller { (pass.old.first ≡ 0) × (0 < pass.old.budget) }
    requires bounded { Bounded pass.old.own pass.old.made pass.old.seen }
    requires runs { RunsAlone shards shard slip.value.call }
    requires hash { hash ≡ hash_for hash slip.value.call }
    ensures asked { Asked pass.old pass.new slip.value.call result.number }
    ensures shard { result.shard ≡ shard }
    ensures awaited { awaited_by result ≡ awaited_for result.number }
    ensures book { result.ticket.book ≡ book.now }
{
    let number = book.draw(pass, &slip.call);
    quick(book, pass, shard, conn, number, 0, hash, slip)
}
