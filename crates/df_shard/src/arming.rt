//! A Hop comes: it waits for its turn, or it is none that a caller sends.

ghost use Rattle.std.specs.Prelude.{◌≡◌, true};
ghost use Rattle.df_hops.specs.Parts.{act_of};
ghost use Rattle.df_shard.specs.Arming.{after_hop, arm, armed_by};
ghost use Rattle.df_shard.specs.Bodies.{is_hop};
ghost use Rattle.df_shard.specs.Came.{Comes, with_pass};
ghost use Rattle.df_shard.specs.Holds.{wait_of};

use crate::shard::Shard;
use crate::waiting::{Armed, Waiting, find};
use df_book::Book;
use df_hops::{Body, Message, Part};

impl Shard {
    /// A Hop: it is armed where its call waits here with nothing armed and no hop from this one on ran. Any other, which
    /// no caller sends, changes nothing.
    pub fn hop(&mut self, book: &Book, m: Message)
        requires book { (self.old.pass.book ≡ book.now) × (m.ticket.book ≡ book.now) }
        requires here { (m.shard ≡ self.old.index) × (is_hop m.body ≡ true) }
        ensures book { self.new.pass.book ≡ book.now }
        ensures armed { self.new ≡ after_hop (with_pass self.old self.new.pass) m.number m.body }
    {
        let Message {
            shard: _,
            conn: _,
            number,
            body,
            ticket,
        } = m;
        let Body::Hop(hop, part) = body else {
            unreachable!()
        };
        self.take_ticket(book, ticket);
        self.arm(number, hop, part);
    }

    fn arm(&mut self, number: u64, hop: u32, part: Part)
        requires comes { Comes self.old number hop (act_of part) }
        ensures { self.new ≡ armed_by self.old number hop (act_of part) }
    {
        let Some(at) = find(&self.waiting, number) else {
            return;
        };
        arm_in(&mut self.waiting[at], hop, part);
    }
}

fn arm_in(call: &mut Waiting, hop: u32, part: Part)
    ensures { wait_of call.new ≡ arm (wait_of call.old) hop (act_of part) }
{
    match call.armed {
        Armed::Nothing => {
            if call.above <= hop as u64 {
                call.armed = Armed::Hop(hop, part);
            }
        }
        Armed::Quick(_, _) => {}
        Armed::Hop(_, _) => {}
    }
}
