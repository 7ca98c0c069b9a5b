//! Commands that only look at the members.

ghost use Rattle.std.specs.Prelude.{◌≡◌, ◌++◌, Some, OnOk};
ghost use Rattle.std.specs.List.{flat_map};
ghost use Rattle.df_model.specs.Meaning.{one};
ghost use Rattle.df_model.specs.Meaning.Sets as sets;
ghost use Rattle.df_model.specs.Outcomes.{outcome, count};
ghost use Rattle.df_model.specs.Replies.{encoding_of};
ghost use Rattle.df_model.specs.Values as plain;
ghost use Rattle.df_model.specs.declared.reply.Reply.TheVariants.{Bulk};
ghost use Rattle.df_sets.specs.Looks.{IsLook};

use df_colls::SetVal;
use df_model::{Bin, NoMemory, OneOp};
use df_values::Pieces;

/// Writes what a command is to answer that only looks.
pub(crate) fn look(op: &OneOp, set: &SetVal, reply: &mut Pieces) -> Result<(), NoMemory>
    requires { IsLook op.now }
    ensures { OnOk result (reply.new ≡ encoding_of (outcome (one op.now) (Some (plain.Value.Set set.now.members))).0) }
{
    match op {
        OneOp::Scard => reply.put_count(set.len()),
        OneOp::Sismember(member) => has(member, set, reply),
        OneOp::Smismember(words) => has_each(words.as_slice(), set, reply),
        OneOp::Smembers => put_members(set, reply),
        _ => unreachable!(),
    }
}

fn has(member: &Bin, set: &SetVal, reply: &mut Pieces) -> Result<(), NoMemory>
    ensures { OnOk result (reply.new ≡ encoding_of (sets.sismember member.now set.now.members)) }
{
    reply.put_count(one_if_had(member, set))
}

/// 1 for a member, 0 for what isn't one.
fn one_if_had(member: &Bin, set: &SetVal) -> usize
    ensures { count result ≡ sets.sismember member.now set.now.members }
{
    if set.has(member.as_slice()) { 1 } else { 0 }
}

fn has_each(words: &[Bin], set: &SetVal, reply: &mut Pieces) -> Result<(), NoMemory>
    ensures { OnOk result (reply.new ≡ encoding_of (sets.smismember words.now set.now.members)) }
{
    reply.put_array_head(words.len())?;
    'words: for word in words {
        reply.add_count(one_if_had(word, set))?;
    }
    Ok(())
}

/// The reply that lists the members, in byte order.
pub fn put_members(set: &SetVal, reply: &mut Pieces) -> Result<(), NoMemory>
    ensures { OnOk result (reply.new ≡ encoding_of (sets.smembers set.now.members)) }
{
    reply.put_array_head(set.len())?;
    let mut at = 0;
    'runs: while at < set.len() {
        let run = set.run(at);
        add_bulks(run, reply)?;
        at += run.len();
    }
    Ok(())
}

fn add_bulks(run: &[(Bin, ())], reply: &mut Pieces) -> Result<(), NoMemory>
    ensures { OnOk result (reply.new ≡ reply.old ++ flat_map (λ entry. encoding_of (Bulk entry.0)) run.now) }
{
    'entries: for entry in run {
        reply.add_bulk(entry.0.as_slice())?;
    }
    Ok(())
}
