//! Rows of lines, and each call on them that can want memory.

ghost use Rattle.std.specs.Prelude.{◌≤◌};

use event_text::{LineFault, read_line, write_line};
use event_word::{Event, Leaf, Step};
use std::alloc::Global;
use std::test::Fail;

// Whether an event is written as this line, and the line is read as the event.
fn is_line_of(alloc: Global, event: Event, line: &str) -> Result<bool, Fail> {
    let mut out = String::new(alloc);
    write_line(&event, &mut out)?;
    let written = out.as_str().strip_suffix('\n') == Some(line);
    Ok(written && read_line(line.as_bytes()) == Ok(event))
}

#[test]
fn number_is_written(rt: HostRuntime) -> Result<(), Fail> {
    let first = Event::new(Leaf::Int(7)).under(Step::First);
    let event = first.ok_or("full")?.under(Step::Left).ok_or("full")?;
    assert!(rt; is_line_of(rt.alloc(), event, "L F int 7")?);
    Ok(())
}

#[test]
fn least_number_is_written_and_read(rt: HostRuntime) -> Result<(), Fail> {
    let event = Event::new(Leaf::Int(i64::MIN));
    assert!(rt; is_line_of(rt.alloc(), event, "int -9223372036854775808")?);
    Ok(())
}

// Whether each of these lines has its fault.
fn have_faults(rows: &[(&[u8], LineFault)]) -> bool {
    let mut all = true;
    for (line, fault) in rows {
        all = all && read_line(line) == Err(*fault);
    }
    all
}

#[test]
fn faults_of_lines(rt: HostRuntime) {
    let rows: [(&[u8], LineFault); 8] = [
        (b"L F", LineFault::NoLeaf),
        (b"", LineFault::NoLeaf),
        (b"int ", LineFault::NoLeaf),
        (b"L  one", LineFault::BadWord(2)),
        (b"int +1", LineFault::BadWord(4)),
        (b"\xff", LineFault::BadWord(0)),
        (b"int 9223372036854775808", LineFault::BigNumber(4)),
        (b"one ", LineFault::Extra(3)),
    ];
    assert!(rt; have_faults(&rows));
    assert!(rt; read_line(b"int 007") == Ok(Event::new(Leaf::Int(7))));
}

// A line of so many steps and `one`.
fn long_line(steps: usize) -> [u8; 131]
    requires { steps ≤ 64 }
{
    let mut line = [b' '; 131];
    for k in 0..steps {
        line[2 * k] = b'R';
    }
    line[128] = b'o';
    line[129] = b'n';
    line[130] = b'e';
    line
}

#[test]
fn long_path(rt: HostRuntime) {
    let line = long_line(64);
    assert!(rt; read_line(&line) == Err(LineFault::LongPath));
    assert!(rt; read_line(&line[2..]).is_ok());
}
