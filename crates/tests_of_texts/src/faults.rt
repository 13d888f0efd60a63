//! That a text gets its answer where there is memory.

use delta_tree::Program;
use program_refusal::{Refusal, RefusalName};
use program_text::{TextFault, program_of};
use std::alloc::Global;
use std::test::Fail;

// Whether a program has one name and no declarations.
fn is_first(program: &Program) -> bool {
    program.names.len() == 1 && program.decls.is_empty()
}

// Whether the first program is read.
fn first_is_read(alloc: Global) -> bool {
    match &program_of(alloc, b"main(x : Int) : Int = x") {
        Ok(program) => is_first(program),
        Err(_) => false,
    }
}

#[test]
fn first_program_is_read(rt: HostRuntime) {
    assert!(rt; first_is_read(rt.alloc()));
}

// Whether that is wrong first with a text.
fn is_refused(alloc: Global, text: &[u8], name: RefusalName, at: u32) -> bool {
    let refusal = Refusal { name, at };
    program_of(alloc, text).err() == Some(TextFault::Refused(refusal))
}

// Each text and what is wrong with it first.
#[test]
fn texts_are_refused_by_name_and_place(rt: HostRuntime) {
    let rows: [(&[u8], RefusalName, u32); 6] = [
        (b"main(x : Int) : Int = ", RefusalName::Expected, 21),
        (b"", RefusalName::NoMain, 0),
        (b"#", RefusalName::BadChar, 0),
        (b"main(\xff", RefusalName::BadUtf8, 5),
        (b"9223372036854775808", RefusalName::BigNumber, 0),
        (b"main(x : Int, x : Int) : Int = x", RefusalName::Twice, 14),
    ];
    for (text, name, at) in rows {
        assert!(rt; is_refused(rt.alloc(), text, name, at));
    }
}

#[test]
fn long_text_is_refused_behind_its_last_byte(rt: HostRuntime) -> Result<(), Fail> {
    let text = vec![in rt.alloc(); b' '; 1_048_577]?;
    assert!(rt; is_refused(rt.alloc(), &text, RefusalName::LongText, 1_048_576));
    Ok(())
}
