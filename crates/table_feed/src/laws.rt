//! The laws of tables and of mixed words, each the contract of a function with nothing in it.

ghost use Rattle.table_feed.specs.Laws.{TableIsValue, MixedIsWord, MixedMeans, ScheduleDoesNotMatter, CanonsAreWords, CanonsAreMixed, NamedAreUsedUp, TextIsGood, TextIsRead};

/// A good table is a value of the past of its type.
pub fn table_is_value()
    ensures { TableIsValue }
{}

/// A mixed word is a word, whatever the schedule.
pub fn mixed_is_word()
    ensures { MixedIsWord }
{}

/// It stands for the prefixes of its words side by side, whatever the schedule.
pub fn mixed_means()
    ensures { MixedMeans }
{}

/// Words that are mixed by two schedules stand for one prefix.
pub fn schedule_does_not_matter()
    ensures { ScheduleDoesNotMatter }
{}

/// The canonical words of prefixes side by side are words of their types.
pub fn canons_are_words()
    ensures { CanonsAreWords }
{}

/// In whatever order they are mixed they stand for these prefixes side by side.
pub fn canons_are_mixed()
    ensures { CanonsAreMixed }
{}

/// After the rounds no word that the schedule names has an event left.
pub fn named_are_used_up()
    ensures { NamedAreUsedUp }
{}

/// What is written of rows is a good table, where it isn't too long.
pub fn text_is_good()
    ensures { TextIsGood }
{}

/// What is written of rows is read as these rows.
pub fn text_is_read()
    ensures { TextIsRead }
{}
