//! Terms as bytes.

ghost use Rattle.std.specs.Prelude.{◌∷◌, ◌++◌, map};
ghost use Rattle.stream_type.specs.StreamType.{type_of};
ghost use Rattle.hist_value.specs.HistExpr.{expr_of};
ghost use Rattle.core_term.specs.CoreTerm.{term_in};
ghost use Rattle.kept_state.specs.KeptBytes.{short_bytes, list_bytes, type_bytes, expr_bytes};
ghost use Rattle.kept_state.specs.KeptSizes.{FitsShort, FitsExprs, FitsTerm};
ghost use Rattle.delta_keep.specs.Putting.{Puts, IsCounted};
ghost use Rattle.delta_keep.specs.Reads.{FitsList, FitsNode};
ghost use Rattle.delta_keep.specs.Written.{written_node, written_term};

use crate::output::{Output, put_byte};
use crate::put_numbers::{put_count, put_form_names, put_name, put_short};
use crate::put_parts::{put_expr, put_exprs, put_type};
use bunch::Name;
use core_term::{Node, Term};
use hist_value::Expr;
use stream_type::Ty;

/// Appends a node: its place and its term.
#[cycle(put_nodes)]
pub(crate) fn put_node(out: &mut Output, n: &Node)
    ensures puts { Puts out.old out.new (written_node n.now) }
    ensures sizes { IsCounted out.new → FitsNode n.now }
{
    put_short(out, n.at);
    put_term(out, &n.term);
}

#[cycle(put_nodes)]
fn put_term(out: &mut Output, t: &Term)
    ensures puts { Puts out.old out.new (written_term t.now) }
    ensures sizes { IsCounted out.new → FitsTerm (term_in t.now) }
{
    match t {
        Term::Var(x) => {
            put_byte(out, 0);
            put_name(out, *x);
        }
        Term::Eps => put_byte(out, 1),
        Term::Unit => put_byte(out, 2),
        Term::Past(m) => {
            put_byte(out, 3);
            put_expr(out, m);
        }
        Term::Par(a, b) => put_two_nodes(out, 4, a, b),
        Term::Cat(a, b) => put_two_nodes(out, 5, a, b),
        Term::Inl(a) => put_one_node(out, 6, a),
        Term::Inr(a) => put_one_node(out, 7, a),
        Term::Nil => put_byte(out, 8),
        Term::Cons(a, b) => put_two_nodes(out, 9, a, b),
        Term::Let(x, s, a, b) => {
            put_form_name_type(out, 10, *x, s);
            put_node(out, a);
            put_node(out, b);
        }
        Term::LetPar(x, y, z, a) => {
            put_form_names(out, 11, *x, *y, *z);
            put_node(out, a);
        }
        Term::LetCat(x, y, z, a) => {
            put_form_names(out, 12, *x, *y, *z);
            put_node(out, a);
        }
        Term::CaseSum(z, t, x, a, y, b) => put_case_sum(out, *z, t, *x, a, *y, b),
        Term::CaseStar(z, t, a, y, ys, b) => put_case_star(out, *z, t, a, *y, *ys, b),
        Term::Wait(x, t, a) => {
            put_form_name_type(out, 15, *x, t);
            put_node(out, a);
        }
        Term::Call(f, ms, es) => put_call(out, es, ms, *f),
    }
}

/// Appends a form, a name and a type.
pub(crate) fn put_form_name_type(out: &mut Output, form: u8, x: Name, t: &Ty)
    ensures puts { Puts out.old out.new (form ∷ short_bytes x.0 ++ type_bytes (type_of t.now)) }
    ensures sizes { FitsShort x.0 }
{
    put_byte(out, form);
    put_name(out, x);
    put_type(out, t);
}

#[cycle(put_nodes)]
fn put_one_node(out: &mut Output, form: u8, a: &Node)
    ensures puts { Puts out.old out.new (form ∷ written_node a.now) }
    ensures sizes { IsCounted out.new → FitsNode a.now }
{
    put_byte(out, form);
    put_node(out, a);
}

#[cycle(put_nodes)]
fn put_two_nodes(out: &mut Output, form: u8, a: &Node, b: &Node)
    ensures puts { Puts out.old out.new (form ∷ written_node a.now ++ written_node b.now) }
    ensures sizes { IsCounted out.new → FitsNode a.now × FitsNode b.now }
{
    put_byte(out, form);
    put_node(out, a);
    put_node(out, b);
}

#[cycle(put_nodes)]
fn put_case_sum(out: &mut Output, z: Name, t: &Ty, x: Name, a: &Node, y: Name, b: &Node)
    ensures puts { Puts out.old out.new (13 ∷ short_bytes z.0 ++ (type_bytes (type_of t.now) ++ (short_bytes x.0 ++ (written_node a.now ++ (short_bytes y.0 ++ written_node b.now))))) }
    ensures sizes { IsCounted out.new → FitsShort z.0 × FitsShort x.0 × FitsNode a.now × FitsShort y.0 × FitsNode b.now }
{
    put_form_name_type(out, 13, z, t);
    put_name(out, x);
    put_node(out, a);
    put_name(out, y);
    put_node(out, b);
}

#[cycle(put_nodes)]
fn put_case_star(out: &mut Output, z: Name, t: &Ty, a: &Node, y: Name, ys: Name, b: &Node)
    ensures puts { Puts out.old out.new (14 ∷ short_bytes z.0 ++ (type_bytes (type_of t.now) ++ (written_node a.now ++ (short_bytes y.0 ++ (short_bytes ys.0 ++ written_node b.now))))) }
    ensures sizes { IsCounted out.new → FitsShort z.0 × FitsNode a.now × FitsShort y.0 × FitsShort ys.0 × FitsNode b.now }
{
    put_form_name_type(out, 14, z, t);
    put_node(out, a);
    put_name(out, y);
    put_name(out, ys);
    put_node(out, b);
}

// A call: its function, its historical arguments and its arguments.
#[cycle(put_nodes)]
fn put_call(out: &mut Output, es: &[Node], ms: &[Expr], f: u32)
    ensures puts { Puts out.old out.new (16 ∷ short_bytes f ++ (list_bytes expr_bytes (map expr_of ms.now) ++ list_bytes written_node es.now)) }
    ensures sizes { IsCounted out.new → FitsShort f × (FitsExprs (map expr_of ms.now) × FitsList FitsNode es.now) }
{
    put_byte(out, 16);
    put_short(out, f);
    put_exprs(out, ms);
    put_nodes(out, es);
}

#[cycle(put_nodes)]
fn put_nodes(out: &mut Output, nodes: &[Node])
    ensures puts { Puts out.old out.new (list_bytes written_node nodes.now) }
    ensures sizes { IsCounted out.new → FitsList FitsNode nodes.now }
{
    put_count(out, nodes.len());
    for node in nodes {
        put_node(out, node);
    }
}
