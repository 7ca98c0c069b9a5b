//! The rule that all seats of a table keep, and what each kind of step tells who takes it.
use crate::view::{Said, View};
use atomic_table::{Join, Play, Split, TableRule};

/// How many shards a book has, and how many numbers may be drawn of it.
#[derive(Clone, Copy, Drop)]
pub struct Sizes {
    pub shards: u64,
    pub draws: u64,
}

pub struct Ruling;

impl TableRule<Said, View, Sizes> for Ruling {
    ghost use Rattle.std.specs.Prelude.{suc};
    ghost use Rattle.df_book.specs.Rule.{Kept};
    ghost use Rattle.df_book.specs.Views.{opening_view};

    ghost holds = { λ key. Kept (suc key.shards) };

    ghost first = { λ key. opening_view key.shards key.draws };
}

// The number that is announced will be cut off.
pub struct NoteCut;

impl Play<Said, View> for NoteCut {
    ghost use Rattle.df_book.specs.Steps.{NotedCut};

    ghost then = { NotedCut };
}

// The call that is announced will be drawn for, or the entry be entered.
pub struct NoteSaid;

impl Play<Said, View> for NoteSaid {
    ghost use Rattle.df_book.specs.Steps.{NotedSaid};

    ghost then = { NotedSaid };
}

pub struct DrawNumber;

impl Play<Said, View> for DrawNumber {
    ghost use Rattle.df_book.specs.Steps.{Drew};

    ghost then = { Drew };
}

pub struct EnterEntry;

impl Play<Said, View> for EnterEntry {
    ghost use Rattle.df_book.specs.Steps.{Entered};

    ghost then = { Entered };
}

// Two seats became one: what follows for this one.
pub struct Learn;

impl Play<Said, View> for Learn {
    ghost use Rattle.df_book.specs.Steps.{Learned};

    ghost then = { Learned };
}

// How many numbers were drawn.
pub struct Tally;

impl Play<Said, View> for Tally {
    ghost use Rattle.df_book.specs.Steps.{Counted};

    ghost then = { Counted };
}

pub struct Settle;

impl Play<Said, View> for Settle {
    ghost use Rattle.df_book.specs.Steps.{Settles};

    ghost then = { Settles };
}

pub struct CutCaller;

impl Split<View> for CutCaller {
    ghost use Rattle.df_book.specs.Views.{after_cut, cut_off};

    ghost left = { after_cut };

    ghost right = { cut_off };
}

pub struct CutShard;

impl Split<View> for CutShard {
    ghost use Rattle.df_book.specs.Views.{after_shard, shard_off};

    ghost left = { after_shard };

    ghost right = { shard_off };
}

pub struct CutTicket;

impl Split<View> for CutTicket {
    ghost use Rattle.df_book.specs.Views.{ticket_off};

    ghost left = { λ v. v };

    ghost right = { ticket_off };
}

pub struct CutRunning;

impl Split<View> for CutRunning {
    ghost use Rattle.df_book.specs.Views.{made_running, running_off};

    ghost left = { made_running };

    ghost right = { running_off };
}

pub struct CutReceipt;

impl Split<View> for CutReceipt {
    ghost use Rattle.df_book.specs.Views.{receipt_off};

    ghost left = { λ v. v };

    ghost right = { receipt_off };
}

pub struct Merge;

impl Join<View> for Merge {
    ghost use Rattle.df_book.specs.Views.{merged, blank};

    ghost both = { merged };

    ghost spent = { blank };
}
