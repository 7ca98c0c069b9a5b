//! A connection's turns.
//!
//!     stage     what a turn does, the first that can be done
//!     Open      takes the next request, unless much output waits or there is no room for a reply; writes; reads
//!     Calling   goes on with its call
//!     Closing   writes, and ends once all is written
//!     Over      nothing: the session has ended
//!
//! What if memory runs out? Room for each short reply, that for want of memory among them, is made before a request
//! is taken. Where there is none, what waits is written first, and the session ends only once nothing waits.

ghost use Rattle.std.specs.Prelude.{◌≡◌, ◌⊎◌, ◌<◌, ◌≤◌, None, [], true, length, IfOk, MatchOption};
ghost use Rattle.df_model.specs.Spoken.{MAX_OPEN};
ghost use Rattle.df_conn.specs.Turns.{see, Going, IsGoing, IsWriting, Turned, Rests, Ended, StaysServed, is_away, is_over, is_too_many, waiting_in, cut_at, turned_away_line as expected_line};

use crate::answer::SHORT;
use crate::talk::{Taken, Talk};
use df_caller::{Caller, Went};
use df_model::{ErrorText, NoMemory, SessionEnd, Turn, Why};
use df_outside::{Got, Link, Put};
use df_resp::encode_error;
use std::alloc::Global;
use std::snapshot::Snapshot;

/// Bytes of waiting output above which no request is taken (1 MiB).
const OUTPUT_LIMIT: usize = 1048576;

/// What the next turn goes on with.
#[derive(Clone, Copy, Debug)]
pub enum Stage {
    /// The next request.
    Open,
    /// The call under way.
    Calling,
    /// Its output. Nothing more is taken, and the session ends so once all is written.
    Closing(Why),
    /// Nothing: the session ended so.
    Over(Why),
}

/// A connection with its session. Between its turns `Going` holds of it (specs/Turns).
#[derive(Drop)]
pub struct Conn<L, C> {
    /// Its place among those that were accepted, from 0.
    id: u64,
    stage: Stage,
    talk: Talk,
    /// What runs its calls.
    pub caller: C,
    link: L,
    /// The link as it was at the start.
    first: Snapshot<L>,
}

impl<L: Link, C: Caller> Conn<L, C> {
    /// A session before its first byte; `id` is its place among those that were accepted. Takes no memory.
    pub fn new(alloc: Global, id: u64, link: L, caller: C) -> Conn<L, C>
        requires idle { (C.calling caller).under ≡ None }
        requires none { (C.calling caller).told ≡ [] }
        ensures going { Going (see result.id result.stage (C.calling result.caller) (L.flow result.first.value) (L.flow result.link) result.talk) }
        ensures id { result.id ≡ id }
        ensures open { result.stage ≡ Stage.Open }
        ensures caller { result.caller ≡ caller }
        ensures first { result.first.value ≡ link }
    {
        let first = Snapshot::of(&link);
        Conn {
            id,
            stage: Stage::Open,
            talk: Talk::new(alloc),
            caller,
            link,
            first,
        }
    }

    /// A session that is turned away, since too many are open: it takes nothing, writes the line that says why, and ends.
    /// Takes no memory beside the line's, which `turned_away_line` made.
    pub fn turned_away(alloc: Global, id: u64, link: L, caller: C, line: Vec<u8>) -> Conn<L, C>
        requires idle { (C.calling caller).under ≡ None }
        requires none { (C.calling caller).told ≡ [] }
        requires late { MAX_OPEN ≤ id }
        requires line { line.items ≡ expected_line }
        ensures going { Going (see result.id result.stage (C.calling result.caller) (L.flow result.first.value) (L.flow result.link) result.talk) }
        ensures id { result.id ≡ id }
        ensures closing { result.stage ≡ Stage.Closing Why.TooMany }
        ensures caller { result.caller ≡ caller }
        ensures first { result.first.value ≡ link }
    {
        let first = Snapshot::of(&link);
        let mut talk = Talk::new(alloc);
        talk.output = line;
        Conn {
            id,
            stage: Stage::Closing(Why::TooMany),
            talk,
            caller,
            link,
            first,
        }
    }

    /// Does the first that can be done, and reads at most as much as the buffer holds. `stopping` says that all
    /// sessions are to end: then no request is taken, and it ends as `Why::Stopped` where nothing waits to be
    /// written or a write has to wait; a call under way still goes on to its end.
    pub fn turn(&mut self, buffer: &mut [u8], stopping: bool) -> Turn
        requires going { Going (see self.old.id self.old.stage (C.calling self.old.caller) (L.flow self.old.first.value) (L.flow self.old.link) self.old.talk) }
        requires not_over { IsGoing self.old.stage }
        requires room { 0 < length buffer.old }
        ensures turned { Turned result stopping (see self.old.id self.old.stage (C.calling self.old.caller) (L.flow self.old.first.value) (L.flow self.old.link) self.old.talk) (see self.new.id self.new.stage (C.calling self.new.caller) (L.flow self.new.first.value) (L.flow self.new.link) self.new.talk) }
        ensures ran { C.ran self.new.caller ≡ C.ran self.old.caller }
        ensures id { self.new.id ≡ self.old.id }
        ensures first { self.new.first.value ≡ self.old.first.value }
        ensures served { StaysServed self.old.stage self.new.stage }
    {
        match self.stage {
            Stage::Calling => self.go_on(stopping),
            Stage::Closing(why) => self.close(why, stopping),
            Stage::Open => {
                if stopping || self.talk.waiting() >= OUTPUT_LIMIT {
                    self.stop(stopping)
                } else if self.talk.output.reserve(SHORT).is_ok() {
                    self.take(buffer, stopping)
                } else {
                    self.starve(stopping)
                }
            }
            Stage::Over(why) => Turn::Ended(why),
        }
    }

    /// Goes on with its call. A call that found no memory is answered so, and one whose reply found none ends the
    /// session, since the next reply would be taken for its.
    fn go_on(&mut self, stopping: bool) -> Turn
        requires going { Going (see self.old.id self.old.stage (C.calling self.old.caller) (L.flow self.old.first.value) (L.flow self.old.link) self.old.talk) }
        requires calling { self.old.stage ≡ Stage.Calling }
        ensures turned { Turned result stopping (see self.old.id self.old.stage (C.calling self.old.caller) (L.flow self.old.first.value) (L.flow self.old.link) self.old.talk) (see self.new.id self.new.stage (C.calling self.new.caller) (L.flow self.new.first.value) (L.flow self.new.link) self.new.talk) }
        ensures ran { C.ran self.new.caller ≡ C.ran self.old.caller }
        ensures id { self.new.id ≡ self.old.id }
        ensures first { self.new.first.value ≡ self.old.first.value }
        ensures served { StaysServed self.old.stage self.new.stage }
    {
        match self.caller.step() {
            Went::Pending => Turn::NotYet,
            Went::Finished(slip) => match slip.reply.append_to(&mut self.talk.output) {
                Ok(()) => {
                    self.talk.slip = Some(slip);
                    self.stage = Stage::Open;
                    Turn::Moved
                }
                Err(_) => {
                    self.stage = Stage::Over(Why::NoMemory);
                    Turn::Ended(Why::NoMemory)
                }
            },
            Went::NoMemory(slip) => match encode_error(&ErrorText::Memory, &mut self.talk.output) {
                Ok(()) => {
                    self.talk.slip = Some(slip);
                    self.stage = Stage::Open;
                    Turn::Moved
                }
                Err(_) => {
                    self.stage = Stage::Over(Why::NoMemory);
                    Turn::Ended(Why::NoMemory)
                }
            },
            Went::Unsaid(_) => {
                self.stage = Stage::Over(Why::NoMemory);
                Turn::Ended(Why::NoMemory)
            }
            Went::Spent(_) => {
                self.stage = Stage::Over(Why::Spent);
                Turn::Ended(Why::Spent)
            }
        }
    }

    /// Takes a request, or else writes, or else reads.
    fn take(&mut self, buffer: &mut [u8], stopping: bool) -> Turn
        requires going { Going (see self.old.id self.old.stage (C.calling self.old.caller) (L.flow self.old.first.value) (L.flow self.old.link) self.old.talk) }
        requires open { self.old.stage ≡ Stage.Open }
        requires room { 0 < length buffer.old }
        ensures turned { Turned result stopping (see self.old.id self.old.stage (C.calling self.old.caller) (L.flow self.old.first.value) (L.flow self.old.link) self.old.talk) (see self.new.id self.new.stage (C.calling self.new.caller) (L.flow self.new.first.value) (L.flow self.new.link) self.new.talk) }
        ensures ran { C.ran self.new.caller ≡ C.ran self.old.caller }
        ensures id { self.new.id ≡ self.old.id }
        ensures first { self.new.first.value ≡ self.old.first.value }
        ensures served { StaysServed self.old.stage self.new.stage }
    {
        if let Some(turn) = self.take_next(stopping) {
            return turn;
        }
        if self.talk.waiting() > 0 {
            return self.write(stopping);
        }
        match self.stage {
            Stage::Closing(why) => self.close(why, stopping),
            Stage::Open => self.read(buffer, stopping),
            Stage::Calling | Stage::Over(_) => unreachable!(),
        }
    }

    /// Takes the next request, if one is whole.
    fn take_next(&mut self, stopping: bool) -> Option<Turn>
        requires going { Going (see self.old.id self.old.stage (C.calling self.old.caller) (L.flow self.old.first.value) (L.flow self.old.link) self.old.talk) }
        requires open { self.old.stage ≡ Stage.Open }
        ensures rests { MatchOption result (Rests self.new.stage (see self.old.id self.old.stage (C.calling self.old.caller) (L.flow self.old.first.value) (L.flow self.old.link) self.old.talk) (see self.new.id self.new.stage (C.calling self.new.caller) (L.flow self.new.first.value) (L.flow self.new.link) self.new.talk)) (λ turn. Turned turn stopping (see self.old.id self.old.stage (C.calling self.old.caller) (L.flow self.old.first.value) (L.flow self.old.link) self.old.talk) (see self.new.id self.new.stage (C.calling self.new.caller) (L.flow self.new.first.value) (L.flow self.new.link) self.new.talk)) }
        ensures ran { C.ran self.new.caller ≡ C.ran self.old.caller }
        ensures id { self.new.id ≡ self.old.id }
        ensures first { self.new.first.value ≡ self.old.first.value }
        ensures served { StaysServed self.old.stage self.new.stage }
    {
        match self.talk.take() {
            Taken::Replied => Some(Turn::Moved),
            Taken::Calls(slip) => {
                self.caller.begin(slip);
                self.stage = Stage::Calling;
                Some(Turn::Moved)
            }
            Taken::Quit => {
                self.stage = Stage::Closing(Why::Quit);
                Some(Turn::Moved)
            }
            Taken::Asked => {
                self.stage = Stage::Closing(Why::Asked);
                Some(Turn::Moved)
            }
            Taken::Dry => None,
            Taken::Bad(kind, at) => {
                self.stage = Stage::Closing(Why::Protocol(kind, at));
                None
            }
            Taken::NoMemory => {
                self.stage = Stage::Over(Why::NoMemory);
                Some(Turn::Ended(Why::NoMemory))
            }
        }
    }

    /// Writes what waits, and ends once nothing does.
    fn close(&mut self, why: Why, stopping: bool) -> Turn
        requires going { Going (see self.old.id self.old.stage (C.calling self.old.caller) (L.flow self.old.first.value) (L.flow self.old.link) self.old.talk) }
        requires closing { self.old.stage ≡ Stage.Closing why }
        ensures turned { Turned result stopping (see self.old.id self.old.stage (C.calling self.old.caller) (L.flow self.old.first.value) (L.flow self.old.link) self.old.talk) (see self.new.id self.new.stage (C.calling self.new.caller) (L.flow self.new.first.value) (L.flow self.new.link) self.new.talk) }
        ensures ran { C.ran self.new.caller ≡ C.ran self.old.caller }
        ensures id { self.new.id ≡ self.old.id }
        ensures first { self.new.first.value ≡ self.old.first.value }
        ensures served { StaysServed self.old.stage self.new.stage }
    {
        if self.talk.waiting() > 0 {
            return self.write(stopping);
        }
        self.stage = Stage::Over(why);
        Turn::Ended(why)
    }

    /// Writes what waits, or ends where all sessions are to end. No request is taken.
    fn stop(&mut self, stopping: bool) -> Turn
        requires going { Going (see self.old.id self.old.stage (C.calling self.old.caller) (L.flow self.old.first.value) (L.flow self.old.link) self.old.talk) }
        requires open { self.old.stage ≡ Stage.Open }
        requires holds_up { (stopping ≡ true) ⊎ (OUTPUT_LIMIT ≤ waiting_in self.old.talk) }
        ensures turned { Turned result stopping (see self.old.id self.old.stage (C.calling self.old.caller) (L.flow self.old.first.value) (L.flow self.old.link) self.old.talk) (see self.new.id self.new.stage (C.calling self.new.caller) (L.flow self.new.first.value) (L.flow self.new.link) self.new.talk) }
        ensures ran { C.ran self.new.caller ≡ C.ran self.old.caller }
        ensures id { self.new.id ≡ self.old.id }
        ensures first { self.new.first.value ≡ self.old.first.value }
        ensures served { StaysServed self.old.stage self.new.stage }
    {
        if self.talk.waiting() > 0 {
            return self.write(stopping);
        }
        self.stage = Stage::Over(Why::Stopped);
        Turn::Ended(Why::Stopped)
    }

    /// Writes what waits, which makes room, or ends for want of memory. No request is taken.
    fn starve(&mut self, stopping: bool) -> Turn
        requires going { Going (see self.old.id self.old.stage (C.calling self.old.caller) (L.flow self.old.first.value) (L.flow self.old.link) self.old.talk) }
        requires open { self.old.stage ≡ Stage.Open }
        ensures turned { Turned result stopping (see self.old.id self.old.stage (C.calling self.old.caller) (L.flow self.old.first.value) (L.flow self.old.link) self.old.talk) (see self.new.id self.new.stage (C.calling self.new.caller) (L.flow self.new.first.value) (L.flow self.new.link) self.new.talk) }
        ensures ran { C.ran self.new.caller ≡ C.ran self.old.caller }
        ensures id { self.new.id ≡ self.old.id }
        ensures first { self.new.first.value ≡ self.old.first.value }
        ensures served { StaysServed self.old.stage self.new.stage }
    {
        if self.talk.waiting() > 0 {
            return self.write(stopping);
        }
        self.stage = Stage::Over(Why::NoMemory);
        Turn::Ended(Why::NoMemory)
    }

    /// Writes some of what waits.
    fn write(&mut self, stopping: bool) -> Turn
        requires going { Going (see self.old.id self.old.stage (C.calling self.old.caller) (L.flow self.old.first.value) (L.flow self.old.link) self.old.talk) }
        requires writing { IsWriting self.old.stage }
        requires waits { 0 < waiting_in self.old.talk }
        ensures turned { Turned result stopping (see self.old.id self.old.stage (C.calling self.old.caller) (L.flow self.old.first.value) (L.flow self.old.link) self.old.talk) (see self.new.id self.new.stage (C.calling self.new.caller) (L.flow self.new.first.value) (L.flow self.new.link) self.new.talk) }
        ensures ran { C.ran self.new.caller ≡ C.ran self.old.caller }
        ensures id { self.new.id ≡ self.old.id }
        ensures first { self.new.first.value ≡ self.old.first.value }
        ensures served { StaysServed self.old.stage self.new.stage }
    {
        match self.link.write(self.talk.rest()) {
            Put::Took(count) => {
                self.talk.pass(count);
                Turn::Moved
            }
            Put::NotYet => {
                if stopping {
                    let why = cut_short(self.stage, Why::Stopped);
                    self.stage = Stage::Over(why);
                    return Turn::Ended(why);
                }
                Turn::NotYet
            }
            Put::Failed => {
                let why = cut_short(self.stage, Why::WriteFault);
                self.stage = Stage::Over(why);
                Turn::Ended(why)
            }
            Put::NoMemory => {
                self.stage = Stage::Over(Why::NoMemory);
                Turn::Ended(Why::NoMemory)
            }
        }
    }

    /// Reads once. No request is whole, and nothing waits to be written.
    fn read(&mut self, buffer: &mut [u8], stopping: bool) -> Turn
        requires dry { Rests Stage.Open (see self.old.id self.old.stage (C.calling self.old.caller) (L.flow self.old.first.value) (L.flow self.old.link) self.old.talk) (see self.old.id self.old.stage (C.calling self.old.caller) (L.flow self.old.first.value) (L.flow self.old.link) self.old.talk) }
        requires open { self.old.stage ≡ Stage.Open }
        requires none { waiting_in self.old.talk ≡ 0 }
        requires room { 0 < length buffer.old }
        ensures turned { Turned result stopping (see self.old.id self.old.stage (C.calling self.old.caller) (L.flow self.old.first.value) (L.flow self.old.link) self.old.talk) (see self.new.id self.new.stage (C.calling self.new.caller) (L.flow self.new.first.value) (L.flow self.new.link) self.new.talk) }
        ensures ran { C.ran self.new.caller ≡ C.ran self.old.caller }
        ensures id { self.new.id ≡ self.old.id }
        ensures first { self.new.first.value ≡ self.old.first.value }
        ensures served { StaysServed self.old.stage self.new.stage }
    {
        match self.link.read(buffer) {
            Got::Took(count) => {
                if self.talk.reader.feed(&buffer[..count]).is_err() {
                    self.stage = Stage::Over(Why::NoMemory);
                    return Turn::Ended(Why::NoMemory);
                }
                Turn::Moved
            }
            Got::End => {
                self.stage = Stage::Over(Why::InputEnd);
                Turn::Ended(Why::InputEnd)
            }
            Got::NotYet => Turn::NotYet,
            Got::Failed => {
                self.stage = Stage::Over(Why::ReadFault);
                Turn::Ended(Why::ReadFault)
            }
            Got::NoMemory => {
                self.stage = Stage::Over(Why::NoMemory);
                Turn::Ended(Why::NoMemory)
            }
        }
    }

    /// Lets memory go that it doesn't need while nothing comes. Its next request takes it anew.
    pub fn shrink(&mut self)
        ensures going { Going (see self.old.id self.old.stage (C.calling self.old.caller) (L.flow self.old.first.value) (L.flow self.old.link) self.old.talk) → Going (see self.new.id self.new.stage (C.calling self.new.caller) (L.flow self.new.first.value) (L.flow self.new.link) self.new.talk) }
        ensures id { self.new.id ≡ self.old.id }
        ensures stage { self.new.stage ≡ self.old.stage }
        ensures caller { self.new.caller ≡ self.old.caller }
        ensures first { self.new.first ≡ self.old.first }
        ensures link { self.new.link ≡ self.old.link }
        ensures rest { self.new.talk.reader.rest ≡ self.old.talk.reader.rest }
        ensures waits { waiting_in self.new.talk ≡ waiting_in self.old.talk }
    {
        self.talk.shrink();
    }

    /// Whether a turn has ended it.
    pub fn is_ended(&self) -> bool
        ensures { result ≡ is_over self.now.stage }
    {
        matches!(self.stage, Stage::Over(_))
    }

    /// Whether it is turned away, or ended so.
    pub fn is_away(&self) -> bool
        ensures { result ≡ is_away self.now.stage }
    {
        match self.stage {
            Stage::Closing(why) | Stage::Over(why) => is_too_many(why),
            Stage::Open | Stage::Calling => false,
        }
    }

    /// Bytes of output that it keeps.
    pub fn output_len(&self) -> usize
        ensures { result ≡ length self.now.talk.output.items }
    {
        self.talk.output.len()
    }

    /// Closes its link, and answers what it left, its caller, and the link as it was at the start.
    pub fn finish(self) -> (SessionEnd<L>, C, Snapshot<L>)
        requires going { Going (see self.id self.stage (C.calling self.caller) (L.flow self.first.value) (L.flow self.link) self.talk) }
        requires over { is_over self.stage ≡ true }
        ensures why { self.stage ≡ Stage.Over result.0.why }
        ensures id { result.0.id ≡ self.id }
        ensures link { L.flow result.0.link ≡ L.flow self.link }
        ensures caller { result.1 ≡ self.caller }
        ensures first { result.2.value ≡ self.first.value }
        ensures spoke { Ended self.id result.0.why (C.calling self.caller) (L.flow self.first.value) (L.flow self.link) }
    {
        let why = match self.stage {
            Stage::Over(why) => why,
            Stage::Open | Stage::Calling | Stage::Closing(_) => unreachable!(),
        };
        let Conn {
            id,
            stage: _,
            talk: _,
            caller,
            mut link,
            first,
        } = self;
        link.close();
        (SessionEnd { id, link, why }, caller, first)
    }
}

/// Whether a session that ends so is one too many.
fn is_too_many(why: Why) -> bool
    ensures { result ≡ is_too_many why }
{
    match why {
        Why::TooMany => true,
        Why::InputEnd
        | Why::Quit
        | Why::Asked
        | Why::Stopped
        | Why::Protocol(_, _)
        | Why::ReadFault
        | Why::WriteFault
        | Why::Spent
        | Why::NoMemory => false,
    }
}

/// How a session ends that can't go on writing: one that is turned away ends as that.
fn cut_short(stage: Stage, why: Why) -> Why
    ensures { result ≡ cut_at stage why }
{
    match stage {
        Stage::Closing(Why::TooMany) => Why::TooMany,
        Stage::Open | Stage::Calling | Stage::Closing(_) | Stage::Over(_) => why,
    }
}

/// The line of a session that is turned away.
pub fn turned_away_line(alloc: Global) -> Result<Vec<u8>, NoMemory>
    ensures { IfOk result (λ line. line.items ≡ expected_line) }
{
    let mut line = Vec::new(alloc);
    encode_error(&ErrorText::TooMany, &mut line)?;
    Ok(line)
}
