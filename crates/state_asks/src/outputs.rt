//! What parts of templates give, by a run of their own that leaves nothing.

ghost use Rattle.std.specs.Prelude.{◌≡◌, ◌<◌, ◌++◌, map, IfOk, OnOk};
ghost use Rattle.stream_type.specs.StreamType.{type_of};
ghost use Rattle.stream_prefix.specs.StreamPrefix.{is_maximal};
ghost use Rattle.stream_prefix.specs.Tree.{prefix_of};
ghost use Rattle.machine_parts.specs.Parameters.{types_listed};
ghost use Rattle.template_state.specs.Readers.{op_term, operand_terms};
ghost use Rattle.delta_code.specs.Steps.{op_run, ops_run};

use bunch::Name;
use delta_code::start;
use machine_parts::scope::Scope;
use machine_parts::stop::Stop;
use std::alloc::Global;
use std::rc::Rc;
use stream_prefix::{Prefix, maximal};
use stream_type::Ty;
use template_state::{Code, Op, Operands, Past};

/// What a template gives in its scope. Its errors are those of a run of it with so many calls left and so many
/// levels.
#[inline(never)]
pub fn output_of<'a>(
    alloc: Global,
    code: &Code,
    k: u64,
    scope: &'a Scope<'a>,
    past: &Rc<Past>,
    n: &Rc<Op>,
    r: &Ty,
    left: u64,
    levels: u64,
) -> Result<Box<Prefix>, Stop>
    requires { left < k }
    ensures { IfOk result (λ p. prefix_of p.value ≡ (op_run code.now k scope.now past.now.value (op_term n.now.value) (type_of r.now)).out) }
{
    let begun = start(alloc, code, k, scope, past, n, r, left, levels)?;
    Ok(begun.output)
}

/// Whether what a template gives is whole. Its errors are those of a run of it.
#[inline(never)]
pub fn is_whole<'a>(
    alloc: Global,
    code: &Code,
    k: u64,
    scope: &'a Scope<'a>,
    past: &Rc<Past>,
    n: &Rc<Op>,
    r: &Ty,
    left: u64,
    levels: u64,
) -> Result<bool, Stop>
    requires { left < k }
    ensures { IfOk result (λ w. w ≡ is_maximal (op_run code.now k scope.now past.now.value (op_term n.now.value) (type_of r.now)).out) }
{
    let output = output_of(alloc, code, k, scope, past, n, r, left, levels)?;
    Ok(maximal(&output))
}

/// What arguments give, for parameters of these types; one without a parameter counts as of type `eps`. Its errors
/// are those of runs of them.
pub fn outputs_of<'a>(
    alloc: Global,
    code: &Code,
    k: u64,
    scope: &'a Scope<'a>,
    past: &Rc<Past>,
    es: &Operands,
    params: &[(Name, Ty)],
    left: u64,
    levels: u64,
) -> Result<Vec<Prefix>, Stop>
    requires { left < k }
    ensures { IfOk result (λ v. map prefix_of v.items ≡ (ops_run code.now k scope.now past.now.value (operand_terms es.now) (types_listed params.now)).outs) }
{
    let mut found = Vec::new(alloc);
    add_outputs(
        alloc, code, k, scope, past, es, params, left, levels, &mut found,
    )?;
    Ok(found)
}

// Puts what arguments give behind what was found.
fn add_outputs<'a>(
    alloc: Global,
    code: &Code,
    k: u64,
    scope: &'a Scope<'a>,
    past: &Rc<Past>,
    es: &Operands,
    params: &[(Name, Ty)],
    left: u64,
    levels: u64,
    found: &mut Vec<Prefix>,
) -> Result<(), Stop>
    requires { left < k }
    ensures { OnOk result (map prefix_of found.new.items ≡ map prefix_of found.old.items ++ (ops_run code.now k scope.now past.now.value (operand_terms es.now) (types_listed params.now)).outs) }
{
    let Operands::Before(e, more) = es else {
        return Ok(());
    };
    match params.split_first() {
        None => {
            let output = output_of(alloc, code, k, scope, past, e, &Ty::Eps, left, levels)?;
            found.push(Box::into_inner(output))?;
            add_outputs(
                alloc, code, k, scope, past, more, params, left, levels, found,
            )
        }
        Some((param, after)) => {
            let output = output_of(alloc, code, k, scope, past, e, &param.1, left, levels)?;
            found.push(Box::into_inner(output))?;
            add_outputs(
                alloc, code, k, scope, past, more, after, left, levels, found,
            )
        }
    }
}
