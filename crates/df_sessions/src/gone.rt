//! A session that ended.

use df_desk::Answered;
use df_model::SessionEnd;
use df_outside::Link;
use std::marker::Model;
use std::snapshot::Snapshot;

/// What is left of a session. Of its calls no bytes are kept.
#[derive(Drop)]
pub struct Gone<L: Link> {
    pub end: SessionEnd<L>,
    pub first: Snapshot<L>,
    pub answered: Answered,
}

impl<L: Link> Model for Gone<L> {
    ghost use Rattle.df_model.specs.contracts.reply.Reply as reply_type;
    ghost use Rattle.std.specs.Coded.{codes};
    ghost use Rattle.df_sessions.specs.Sessions.{Parted};

    ghost Value = { Parted };

    ghost coded = { Prim.hlevel (codes, reply_type.the_row.coded) };

    ghost view = { λ g. record { id = g.end.id; why = g.end.why; told = g.answered; first = L.flow g.first.value; flow = L.flow g.end.link } };
}
