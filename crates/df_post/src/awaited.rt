//! What awaits its answer, and which answers fit it.

ghost use Rattle.std.specs.Prelude.{◌≡◌};
ghost use Rattle.df_post.specs.Fits.{awaited_by, fits, hop_of, kind_of, part_kind};

use crate::bodies::is_of;
use df_hops::{Answer, Body, Message, Part};

/// What a part of a Hop is answered by.
#[derive(Clone, Copy)]
pub enum PartKind {
    Run,
    Read,
    Stage,
    /// Apply, Unstage, Begin or Clear, which take no memory.
    Do,
    Walk,
    Count,
}

/// What a message is answered by.
#[derive(Clone, Copy)]
pub enum Kind {
    /// A Schedule.
    Place,
    Quick,
    Hop(PartKind),
    /// A Cancel, a Conclude or a DropCut.
    Free,
    Pull,
}

/// A message that was sent and isn't answered.
#[derive(Clone, Copy)]
pub struct Awaited {
    pub number: u64,
    /// That of a Quick, a Hop or a Pull, else 0.
    pub hop: u64,
    pub kind: Kind,
}

impl Awaited {
    /// What awaits where this message goes.
    pub fn of(m: &Message) -> Awaited
        ensures { result ≡ awaited_by m.now }
    {
        Awaited {
            number: m.number,
            hop: hop_of(&m.body),
            kind: kind_of(&m.body),
        }
    }

    /// Whether this is the answer, from this shard: it has the number and the hop, and a body of the kind.
    pub fn fits(&self, shard: u32, answer: &Answer) -> bool
        ensures { result ≡ fits self.now shard answer.now }
    {
        answer.shard == shard
            && answer.number == self.number
            && answer.hop == self.hop
            && is_of(self.kind, &answer.body)
    }
}

fn hop_of(body: &Body) -> u64
    ensures { result ≡ hop_of body.now }
{
    match body {
        Body::Schedule(_) => 0,
        Body::Quick(hop, _, _) => *hop as u64,
        Body::Hop(hop, _) => *hop as u64,
        Body::Cancel => 0,
        Body::Conclude => 0,
        Body::Pull(hop) => *hop,
        Body::DropCut => 0,
    }
}

fn kind_of(body: &Body) -> Kind
    ensures { result ≡ kind_of body.now }
{
    match body {
        Body::Schedule(_) => Kind::Place,
        Body::Quick(_, _, _) => Kind::Quick,
        Body::Hop(_, part) => Kind::Hop(part_kind(part)),
        Body::Cancel => Kind::Free,
        Body::Conclude => Kind::Free,
        Body::Pull(_) => Kind::Pull,
        Body::DropCut => Kind::Free,
    }
}

fn part_kind(part: &Part) -> PartKind
    ensures { result ≡ part_kind part.now }
{
    match part {
        Part::Run(_) => PartKind::Run,
        Part::Read(_) => PartKind::Read,
        Part::Stage(_) => PartKind::Stage,
        Part::Apply => PartKind::Do,
        Part::Unstage => PartKind::Do,
        Part::Begin => PartKind::Do,
        Part::Walk => PartKind::Walk,
        Part::Count => PartKind::Count,
        Part::Clear => PartKind::Do,
    }
}
