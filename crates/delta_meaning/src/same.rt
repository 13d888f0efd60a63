//! Whether values and prefixes are the same.

ghost use Rattle.std.specs.Prelude.{◌≡◌, true, map};
ghost use Rattle.stream_prefix.specs.Tree.{prefix_of, end_of};
ghost use Rattle.hist_value.specs.HistValue.{hist_value_of};

use hist_value::Value;
use stream_prefix::{Prefix, StarEnd};

// Whether two prefixes are the same.
#[cycle(prefixes)]
#[tactic(auto, using(stream_prefix::proofs::Rows::rows))]
fn is_same_prefix(p: &Prefix, q: &Prefix) -> bool
    ensures { result ≡ true → prefix_of p.now ≡ prefix_of q.now }
{
    match p {
        Prefix::EpsEmp => matches!(q, Prefix::EpsEmp),
        Prefix::OneEmp => matches!(q, Prefix::OneEmp),
        Prefix::OneFull => matches!(q, Prefix::OneFull),
        Prefix::IntEmp => matches!(q, Prefix::IntEmp),
        Prefix::IntFull(n) => match q {
            Prefix::IntFull(m) => *n == *m,
            _ => false,
        },
        Prefix::Par(a, b) => match q {
            Prefix::Par(c, d) => is_same_prefix(a, c) && is_same_prefix(b, d),
            _ => false,
        },
        Prefix::CatFst(a) => match q {
            Prefix::CatFst(c) => is_same_prefix(a, c),
            _ => false,
        },
        Prefix::CatBoth(a, b) => match q {
            Prefix::CatBoth(c, d) => is_same_prefix(a, c) && is_same_prefix(b, d),
            _ => false,
        },
        Prefix::SumEmp => matches!(q, Prefix::SumEmp),
        Prefix::Inl(a) => match q {
            Prefix::Inl(c) => is_same_prefix(a, c),
            _ => false,
        },
        Prefix::Inr(a) => match q {
            Prefix::Inr(c) => is_same_prefix(a, c),
            _ => false,
        },
        Prefix::Star(items, end) => match q {
            Prefix::Star(others, other_end) => {
                are_same_prefixes(items, others) && is_same_end(end, other_end)
            }
            _ => false,
        },
    }
}

/// Whether prefixes are the same, each with the one at its place.
#[cycle(prefixes)]
pub fn are_same_prefixes(ps: &[Prefix], qs: &[Prefix]) -> bool
    ensures { result ≡ true → map prefix_of ps.now ≡ map prefix_of qs.now }
{
    let mut others = qs;
    for p in ps {
        let Some((q, rest)) = others.split_first() else {
            return false;
        };
        if !is_same_prefix(p, q) {
            return false;
        }
        others = rest;
    }
    others.is_empty()
}

#[cycle(prefixes)]
fn is_same_end(a: &StarEnd, b: &StarEnd) -> bool
    ensures { result ≡ true → end_of a.now ≡ end_of b.now }
{
    match a {
        StarEnd::Emp => matches!(b, StarEnd::Emp),
        StarEnd::Done => matches!(b, StarEnd::Done),
        StarEnd::First(p) => match b {
            StarEnd::First(q) => is_same_prefix(p, q),
            _ => false,
        },
    }
}

// Whether two values are the same.
#[cycle(values)]
#[tactic(auto, using(hist_value::proofs::Rows::rows))]
fn is_same_value(v: &Value, w: &Value) -> bool
    ensures { result ≡ true → hist_value_of v.now ≡ hist_value_of w.now }
{
    match v {
        Value::Unit => matches!(w, Value::Unit),
        Value::Int(n) => match w {
            Value::Int(m) => *n == *m,
            _ => false,
        },
        Value::Pair(a, b) => match w {
            Value::Pair(c, d) => is_same_value(a, c) && is_same_value(b, d),
            _ => false,
        },
        Value::Inl(a) => match w {
            Value::Inl(c) => is_same_value(a, c),
            _ => false,
        },
        Value::Inr(a) => match w {
            Value::Inr(c) => is_same_value(a, c),
            _ => false,
        },
        Value::List(items) => match w {
            Value::List(others) => are_same_values(items, others),
            _ => false,
        },
    }
}

/// Whether values are the same, each with the one at its place.
#[cycle(values)]
pub fn are_same_values(vs: &[Value], ws: &[Value]) -> bool
    ensures { result ≡ true → map hist_value_of vs.now ≡ map hist_value_of ws.now }
{
    let mut others = ws;
    for v in vs {
        let Some((w, rest)) = others.split_first() else {
            return false;
        };
        if !is_same_value(v, w) {
            return false;
        }
        others = rest;
    }
    others.is_empty()
}
