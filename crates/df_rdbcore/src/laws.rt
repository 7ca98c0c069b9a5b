//! Laws of the definitions, each the contract of a function that does nothing.

ghost use Rattle.df_rdbcore.specs.Laws.{SpellsOne, HasOneOrder, ShortIsLength, ShortIsShortest, WrittenSpells};

/// A file spells at most one keyspace, and has its entries in one order.
pub fn a_file_spells_one_keyspace()
    ensures keyspace { SpellsOne }
    ensures order { HasOneOrder }
{}

/// The written form of a length is one of its forms, and none is shorter.
pub fn written_lengths_are_shortest()
    ensures is_length { ShortIsLength }
    ensures shortest { ShortIsShortest }
{}

/// What is written of entries within the limits, no key twice, spells just these.
pub fn written_files_spell_their_entries()
    ensures { WrittenSpells }
{}
