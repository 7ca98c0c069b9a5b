//! What a connection keeps of its session beside its link and its caller.

ghost use Rattle.std.specs.Prelude.{◌≡◌, ◌≤◌, ◌+◌, ◌-◌, None, [], length, drop};
ghost use Rattle.df_model.specs.Session.{State};
ghost use Rattle.df_model.specs.Words.{Words};
ghost use Rattle.df_conn.specs.Answers.{TookWords, taken_of};
ghost use Rattle.df_conn.specs.Talks.{Took, Passed};

use crate::answer::{Answer, refuse_words, take_words};
use bytes::Bytes;
use df_caller::Slip;
use df_model::BadKind;
use df_multi::MultiState;
use df_resp::{Next, Reader, encode_protocol_error};
use std::alloc::Global;

/// The requests that came and aren't taken yet, the state of the session machine, and the replies.
#[derive(Drop)]
pub struct Talk {
    alloc: Global,
    pub state: MultiState,
    /// What its calls are given in: none before the first request, and none while a call is under way.
    pub slip: Option<Box<Slip>>,
    /// The bytes that were read, from the first request that isn't taken.
    pub reader: Reader,
    /// Replies, of which the first `sent` bytes were written.
    pub output: Vec<u8>,
    pub sent: usize,
}

/// What the next request came to.
pub enum Taken {
    /// Its reply was added.
    Replied,
    /// It is the call of this slip.
    Calls(Box<Slip>),
    /// QUIT, whose reply was added.
    Quit,
    /// SHUTDOWN.
    Asked,
    /// None is whole.
    Dry,
    /// The input is bad, and the error line was added.
    Bad(BadKind, u64),
    /// Memory ran out, and the session ends.
    NoMemory,
}

impl Talk {
    pub fn new(alloc: Global) -> Talk
        ensures state { result.state ≡ State.Ready }
        ensures rest { result.reader.rest ≡ [] }
        ensures before { result.reader.before ≡ 0 }
        ensures failed { result.reader.failed ≡ None }
        ensures output { result.output.items ≡ [] }
        ensures sent { result.sent ≡ 0 }
    {
        Talk {
            alloc,
            state: MultiState::new(),
            slip: None,
            reader: Reader::new(alloc),
            output: Vec::new(alloc),
            sent: 0,
        }
    }

    /// Bytes of output that wait to be written.
    pub fn waiting(&self) -> usize
        requires { self.now.sent ≤ length self.now.output.items }
        ensures { result ≡ length self.now.output.items - self.now.sent }
    {
        self.output.len() - self.sent
    }

    /// The output that waits.
    pub fn rest(&self) -> &[u8]
        requires { self.now.sent ≤ length self.now.output.items }
        ensures { result.now ≡ drop self.now.sent self.now.output.items }
    {
        &self.output[self.sent..]
    }

    /// So many bytes of what waits were written. Where that is all, the output is let go.
    pub fn pass(&mut self, count: usize)
        requires { self.old.sent + count ≤ length self.old.output.items }
        ensures state { self.new.state ≡ self.old.state }
        ensures reader { self.new.reader ≡ self.old.reader }
        ensures passed { Passed count self.old.output.items self.old.sent self.new.output.items self.new.sent }
    {
        self.sent += count;
        if self.sent == self.output.len() {
            self.output.clear();
            self.sent = 0;
        }
    }

    /// Takes the next request.
    pub fn take(&mut self) -> Taken
        ensures { Took result self.old.sent self.new.sent self.old.state self.new.state self.old.reader self.new.reader self.old.output.items self.new.output.items }
    {
        match self.reader.next() {
            Ok(Next::Words(words)) => {
                let taken = self.take_words(words.as_slice());
                self.reader.give_back(words);
                taken
            }
            Ok(Next::NeedMore) => Taken::Dry,
            Ok(Next::Bad { kind, at }) => match encode_protocol_error(kind, &mut self.output) {
                Ok(()) => Taken::Bad(kind, at),
                Err(_) => Taken::NoMemory,
            },
            Err(_) => Taken::NoMemory,
        }
    }

    /// Takes the request of these words. The slip is boxed for the first one, so that a connection which never asked for
    /// anything has none.
    fn take_words(&mut self, words: &[Bytes]) -> Taken
        ensures sent { self.new.sent ≡ self.old.sent }
        ensures reader { self.new.reader ≡ self.old.reader }
        ensures took { TookWords result words.now self.old.state self.new.state self.old.output.items self.new.output.items }
    {
        let mut slip = match self.slip.take() {
            Some(slip) => slip,
            None => match Box::new(self.alloc, Slip::new(self.alloc)) {
                Ok(slip) => slip,
                Err(_) => return self.refuse(),
            },
        };
        let answer = take_words(
            self.alloc,
            &mut self.state,
            words,
            &mut slip.call,
            &mut self.output,
        );
        taken_by(answer, slip, &mut self.slip)
    }

    /// Takes no request for want of memory.
    fn refuse(&mut self) -> Taken
        ensures sent { self.new.sent ≡ self.old.sent }
        ensures reader { self.new.reader ≡ self.old.reader }
        ensures took { (words : Words) → TookWords result words self.old.state self.new.state self.old.output.items self.new.output.items }
    {
        match refuse_words(&mut self.state, &mut self.output) {
            Ok(()) => Taken::Replied,
            Err(_) => Taken::NoMemory,
        }
    }

    /// Lets memory go that an idle connection doesn't need: all of it, where no request is begun and no output waits.
    pub fn shrink(&mut self)
        ensures state { self.new.state ≡ self.old.state }
        ensures reader { self.new.reader ≡ self.old.reader }
        ensures output { self.new.output.items ≡ self.old.output.items }
        ensures sent { self.new.sent ≡ self.old.sent }
    {
        self.slip = None;
        self.reader.shrink();
        if self.output.is_empty() {
            self.output = Vec::new(self.alloc);
        }
    }
}

/// What follows from an answer. The slip goes with a call, and else is kept for the next one.
fn taken_by(answer: Answer, slip: Box<Slip>, kept: &mut Option<Box<Slip>>) -> Taken
    ensures { result ≡ taken_of answer slip }
{
    let taken = match answer {
        Answer::Calls => return Taken::Calls(slip),
        Answer::Replied => Taken::Replied,
        Answer::Quit => Taken::Quit,
        Answer::Asked => Taken::Asked,
        Answer::NoMemory => Taken::NoMemory,
    };
    *kept = Some(slip);
    taken
}
