//! Templates made of programs, each body once.

ghost use Rattle.std.specs.Prelude.{◌≡◌, map, IfOk};
ghost use Rattle.core_term.specs.CoreTerm.{core_body_of, core_of};
ghost use Rattle.template_state.specs.Templates.{body_in, bodies_in};

use core_term::{Body, Core, copy_past};
use std::alloc::Global;
use stream_type::Memory;
use template_state::{Code, Template, op};

/// The templates of a program. Its only error is want of memory.
pub fn compile(alloc: Global, c: &Core) -> Result<Code, Memory>
    ensures funs { IfOk result (λ r. bodies_in r ≡ (core_of c.now).funs) }
    ensures main { IfOk result (λ r. body_in r.main ≡ (core_of c.now).main) }
{
    let funs = templates(alloc, &c.funs)?;
    Ok(Code {
        funs,
        main: template(alloc, &c.main)?,
    })
}

fn templates(alloc: Global, bodies: &[Body]) -> Result<Vec<Template>, Memory>
    ensures { IfOk result (λ r. map body_in r.items ≡ map core_body_of bodies.now) }
{
    let mut made = Vec::new(alloc);
    for body in bodies {
        made.push(template(alloc, body)?)?;
    }
    Ok(made)
}

fn template(alloc: Global, b: &Body) -> Result<Template, Memory>
    ensures { IfOk result (λ r. body_in r ≡ core_body_of b.now) }
{
    Ok(Template {
        past: copy_past(alloc, &b.past)?,
        params: bunch::copy(alloc, &b.params)?,
        result: stream_type::copy(alloc, &b.result)?,
        body: op(alloc, &b.body)?,
    })
}
