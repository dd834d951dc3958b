//! What is found by going over the pairs of a link table.
ghost use Rattle.std.specs.Prelude.{◌≡◌, IfOk, filter};
ghost use Rattle.std.specs.Ordering.{is_lt, is_gt};
ghost use Rattle.qe_schema.specs.Pairs.{pair_cmp, is_pair, with_pair, without_pair};

use qe_base::Value;
use qe_text::{Items, Memory};
use std::alloc::Global;
use std::cmp::Ordering;

/// How a pair stands to another: by the first values, and then by the second ones.
fn compare(pair: &(Value, Value), a: &Value, b: &Value) -> Ordering
    ensures { result ≡ pair_cmp pair.now (a.now, b.now) }
{
    pair.0.cmp(a).then(pair.1.cmp(b))
}

/// Whether a pair is this one.
fn is_pair(pair: &(Value, Value), a: &Value, b: &Value) -> bool
    ensures { result ≡ is_pair (a.now, b.now) pair.now }
{
    *a == pair.0 && *b == pair.1
}

/// The same pairs for one more owner.
pub fn share_pairs(alloc: Global, pairs: &[(Value, Value)]) -> Result<Vec<(Value, Value)>, Memory>
    ensures { IfOk result (λ shared. shared.items ≡ pairs.now) }
{
    let mut shared = Vec::new(alloc);
    for pair in pairs {
        shared.push((pair.0.share()?, pair.1.share()?))?;
    }
    Ok(shared)
}

/// The pairs that come before this one.
fn pairs_before(
    alloc: Global,
    pairs: &[(Value, Value)],
    a: &Value,
    b: &Value,
) -> Result<Items<(Value, Value)>, Memory>
    ensures { IfOk result (λ found. found ≡ filter (λ other. is_lt (pair_cmp other (a.now, b.now))) pairs.now) }
{
    let mut found = share_pairs(alloc, pairs)?;
    found.retain(|pair| compare(pair, a, b).is_lt());
    Ok(Items::from_vec(found))
}

/// The pairs that come behind this one.
fn pairs_behind(
    alloc: Global,
    pairs: &[(Value, Value)],
    a: &Value,
    b: &Value,
) -> Result<Items<(Value, Value)>, Memory>
    ensures { IfOk result (λ found. found ≡ filter (λ other. is_gt (pair_cmp other (a.now, b.now))) pairs.now) }
{
    let mut found = share_pairs(alloc, pairs)?;
    found.retain(|pair| compare(pair, a, b).is_gt());
    Ok(Items::from_vec(found))
}

/// The pairs with this one at its place.
pub fn with_pair(
    alloc: Global,
    pairs: &[(Value, Value)],
    a: &Value,
    b: &Value,
) -> Result<Items<(Value, Value)>, Memory>
    ensures { IfOk result (λ all. all ≡ with_pair (a.now, b.now) pairs.now) }
{
    let mut all = pairs_before(alloc, pairs, a, b)?;
    all.push((a.share()?, b.share()?))?;
    all.append(pairs_behind(alloc, pairs, a, b)?)?;
    Ok(all)
}

/// The pairs but for this one.
pub fn without_pair(
    alloc: Global,
    pairs: &[(Value, Value)],
    a: &Value,
    b: &Value,
) -> Result<Items<(Value, Value)>, Memory>
    ensures { IfOk result (λ found. found ≡ without_pair (a.now, b.now) pairs.now) }
{
    let mut found = share_pairs(alloc, pairs)?;
    found.retain(|pair| !is_pair(pair, a, b));
    Ok(Items::from_vec(found))
}
