//! A hash as a whole: its fields, what they hold, or both, in byte order of the fields.

ghost use Rattle.std.specs.Prelude.{◌≡◌, ◌++◌, IfOk, OnOk};
ghost use Rattle.std.specs.List.{flat_map};
ghost use Rattle.df_model.specs.Replies.{encoding_of};
ghost use Rattle.df_hashes.specs.Parts.{part_row, entry_bytes, bulk_count};

use df_colls::HashVal;
use df_model::{Bin, NoMemory};
use df_values::Pieces;

/// What is told of each entry.
#[derive(Clone, Copy, Debug, Drop)]
pub(crate) enum Part {
    Fields,
    Words,
    Both,
}

/// Writes all entries' part.
pub(crate) fn list(part: Part, hash: &HashVal, reply: &mut Pieces) -> Result<(), NoMemory>
    ensures { OnOk result (reply.new ≡ encoding_of (part_row part hash.now.fields)) }
{
    reply.put_array_head(bulk_count(part, hash.len())?)?;
    let mut at = 0;
    'runs: while at < hash.len() {
        let run = hash.run(at);
        add_run(part, run, reply)?;
        at += run.len();
    }
    Ok(())
}

/// How many bulks that makes.
fn bulk_count(part: Part, entries: usize) -> Result<usize, NoMemory>
    ensures { IfOk result (λ count. count ≡ bulk_count part entries) }
{
    match part {
        Part::Both => entries.checked_add(entries).ok_or(NoMemory),
        _ => Ok(entries),
    }
}

fn add_run(part: Part, run: &[(Bin, Bin)], reply: &mut Pieces) -> Result<(), NoMemory>
    ensures { OnOk result (reply.new ≡ reply.old ++ flat_map (entry_bytes part) run.now) }
{
    'entries: for entry in run {
        add_entry(part, &entry.0, &entry.1, reply)?;
    }
    Ok(())
}

fn add_entry(part: Part, field: &Bin, word: &Bin, reply: &mut Pieces) -> Result<(), NoMemory>
    ensures { OnOk result (reply.new ≡ reply.old ++ entry_bytes part (field.now, word.now)) }
{
    match part {
        Part::Fields => reply.add_bulk(field.as_slice()),
        Part::Words => reply.add_bulk(word.as_slice()),
        Part::Both => {
            reply.add_bulk(field.as_slice())?;
            reply.add_bulk(word.as_slice())
        }
    }
}
