//! The laws of the load and of the load's program, each the contract of a function with nothing in it.

ghost use Rattle.delta_load.specs.LoadLaws.{LoadIsWord, LoadIsWhole, LoadHasLength, LoadHasBytes, LoadFits};
ghost use Rattle.delta_load.specs.ProgramLaws.{TextIsAccepted, CoreFitsLoad, LoadIsLight, LoadIsAnswered};

/// The load is a word of the type of its program's input.
pub fn load_is_word()
    ensures { LoadIsWord }
{}

/// The load is whole: it leaves nothing of that type.
pub fn load_is_whole()
    ensures { LoadIsWhole }
{}

/// The load has five events for each item, and one at its end.
pub fn load_has_length()
    ensures { LoadHasLength }
{}

/// As a stream of version 1 the load has four bytes of a header, thirty for each item, and two at its end.
pub fn load_has_bytes()
    ensures { LoadHasBytes }
{}

/// Each event of the load has a frame of version 1.
pub fn load_fits()
    ensures { LoadFits }
{}

/// The text of the load's program is accepted, with its tree and its core.
pub fn text_is_accepted()
    ensures { TextIsAccepted }
{}

/// The input of the load's program has the load's type, and its types are low enough to run.
pub fn core_fits_load()
    ensures { CoreFitsLoad }
{}

/// On the load its program makes one call before any event, one more at most at each event, and none at a
/// level above 0.
pub fn load_is_light()
    ensures { LoadIsLight }
{}

/// On the load its program puts out the keys whose values are above 500, and the end.
pub fn load_is_answered()
    ensures { LoadIsAnswered }
{}
