//! One entry.

ghost use Rattle.std.specs.Prelude.{◌≡◌};
ghost use Rattle.std.specs.Borrow.{ftrue};
ghost use Rattle.std.specs.Coded.{codes};
ghost use Rattle.df_model.specs.contracts.reply.Reply as reply;
ghost use Rattle.df_model.specs.Values.{coded_value};
ghost use Rattle.df_model.specs.Keyspace.{coded_keyspace};
ghost use Rattle.df_log.specs.Acts.{Act, Told};

use std::marker::Model;

/// What one callback did on a shard for a call, as it stands in the shard's log. The act and its answer are for
/// contracts alone and cost nothing.
#[derive(Drop)]
pub struct Entry {
    /// The call's number.
    pub number: u64,
    /// Which hop of the call: command i, from 0, has the hops 4i to 4i + 3.
    pub hop: u64,
    pub ghost act: { Act } by { Prim.hlevel (codes, reply.the_row.coded, coded_value, coded_keyspace) },
    pub ghost told: { Told } by { Prim.hlevel (codes, reply.the_row.coded, coded_value, coded_keyspace) },
}

impl Model for Entry {
    ghost also_owns = { λ _. ftrue };
}

impl Entry {
    /// An entry of this hop of the call with this number.
    pub fn new(number: u64, hop: u64) -> Entry
        ghost did: { Act × Told }
        ensures { (result.number ≡ number) × (result.hop ≡ hop) × (result.act ≡ did.0) × (result.told ≡ did.1) }
    {
        Entry { number, hop }
    }
}
