//! One call at a time.

ghost use Rattle.std.specs.Prelude.{◌≡◌, None, true, is_some, List};
ghost use Rattle.df_model.specs.Calls.{IsCall};
ghost use Rattle.df_caller.specs.Calling.{Calling, HasBegun, Steps};
ghost use Rattle.df_caller.specs.Told.{Told};

use crate::slip::Slip;

/// What a step of a call came to. After every answer but `Pending` no call is under way, and the slip comes back.
#[derive(Drop)]
pub enum Went {
    /// It goes on.
    Pending,
    /// It ran, and its reply lies in the slip.
    Finished(Box<Slip>),
    /// It ran, and there was no memory for its reply.
    Unsaid(Box<Slip>),
    /// It found no memory and never ran.
    NoMemory(Box<Slip>),
    /// A number was needed and no draw was left. It never ran.
    Spent(Box<Slip>),
}

/// What runs the calls of one connection, one after the other. It may go from thread to thread.
pub trait Caller: Drop + Send {
    /// The calls that were answered, the call under way, and how often it had to wait.
    ghost calling: { Self → Calling };

    /// The calls that were run for this connection by whoever else has hold of the caller. Nothing that a connection
    /// does changes it.
    ghost ran: { Self → List Told };

    /// Begins the call of the slip. Takes no memory: where there is none for the call, a step says so.
    fn begin(&mut self, slip: Box<Slip>)
        requires idle { (calling self.old).under ≡ None }
        requires is_call { IsCall slip.value.call }
        ensures begun { HasBegun (calling self.old) (calling self.new) slip.value.call }
        ensures ran { ran self.new ≡ ran self.old };

    /// Goes on with the call under way. The slip that comes back may hold anything for its call.
    fn step(&mut self) -> Went
        requires { is_some (calling self.old).under ≡ true }
        ensures went { Steps result (calling self.old) (calling self.new) }
        ensures ran { ran self.new ≡ ran self.old };
}
