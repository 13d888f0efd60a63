//! The texts of variables.

ghost use Rattle.std.specs.Prelude.{◌≡◌, [], map, string_bytes, slice_index_or, IfOk};
ghost use Rattle.delta_meaning.specs.Elaborated.{texts_of};
ghost use Rattle.delta_elab.specs.Numbering.{origins_of};

use bunch::Name;
use std::alloc::Global;
use stream_type::Memory;

/// The text of each variable, in turn: that of its name in the program, or `#` and its number where it
/// was added. A name that has no text has the empty one. Its only error is want of memory.
pub fn texts(
    alloc: Global,
    names: &[String],
    origins: &[Option<Name>],
) -> Result<Vec<String>, Memory>
    ensures { IfOk result (λ v. map string_bytes v.items ≡ texts_of (map string_bytes names.now) 0 (origins_of origins.now)) }
{
    let mut texts = Vec::new(alloc);
    for (number, origin) in origins.iter().enumerate() {
        let text = match origin {
            Some(x) => text_of_name(alloc, names, *x)?,
            None => format!(in alloc; "#{number}")?,
        };
        texts.push(text)?;
    }
    Ok(texts)
}

// The text of a name of the program.
fn text_of_name(alloc: Global, names: &[String], x: Name) -> Result<String, Memory>
    ensures { IfOk result (λ s. string_bytes s ≡ slice_index_or (map string_bytes names.now) x.0 []) }
{
    match names.get(x.0 as usize) {
        Some(text) => Ok(String::from_str(alloc, text)?),
        None => Ok(String::new(alloc)),
    }
}
