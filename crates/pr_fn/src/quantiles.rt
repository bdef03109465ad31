// The quantile among the buckets of one histogram, which are in order of their bounds.
ghost use Rattle.std.specs.Prelude.{◌≡◌, ◌≤◌, ◌<◌, ◌-◌, ◌+◌, length, vec_len, position, unwrap_or, IfOk, IfSome, Ok, Err};
ghost use Rattle.std.specs.Bool.{OnFalse};
ghost use Rattle.std.specs.List.{list_any};
ghost use Rattle.pr_num.specs.Arithmetic.{product_of};
ghost use Rattle.std.specs.Ordering.{is_lt};
ghost use Rattle.pr_num.specs.Order.{order_of};
ghost use Rattle.spec_vectors.specs.Histogram.{at_place, at_rank, bucket_at, greatest, has_no_quantile, in_bucket, in_first, inside, is_same, is_special, last_bucket, part_way, bucket_place, quantile_in, raised, reaches, then_value};

use pr_num::{Num, TooWide};
use spec_vectors::Bucket;
use std::alloc::{AllocError, Global};
use std::cmp::Ordering;

fn greatest(a: &Num, b: &Num) -> Num
    ensures { result ≡ greatest a.now b.now }
{
    match a.order(*b) {
        Ordering::Less => *b,
        Ordering::Equal | Ordering::Greater => *a,
    }
}

/// The same buckets, where each count is the greatest so far.
pub fn raised(alloc: Global, buckets: &[Bucket]) -> Result<Vec<Bucket>, AllocError>
    ensures raised { IfOk result (λ v. v.items ≡ raised buckets.now) }
    ensures long { IfOk result (λ v. vec_len v ≡ length buckets.now) }
{
    let mut rising = Vec::new(alloc);
    let mut most = Num::NegInf;
    for bucket in buckets {
        most = greatest(&most, &bucket.count);
        rising.push(Bucket {
            bound: bucket.bound,
            count: most,
        })?;
    }
    Ok(rising)
}

fn is_special(value: &Num) -> bool
    ensures { result ≡ is_special value.now }
{
    match value {
        Num::Finite(_) => false,
        Num::NaN | Num::PosInf | Num::NegInf => true,
    }
}

fn is_same(a: &Num, b: &Num) -> bool
    ensures { result ≡ is_same a.now b.now }
{
    matches!(a.order(*b), Ordering::Equal)
}

fn is_below(a: &Num, b: &Num) -> bool
    ensures { result ≡ is_lt (order_of a.now b.now) }
{
    matches!(a.order(*b), Ordering::Less)
}

// So far between two bounds as a rank lies between their counts.
fn part_way(start: &Num, end: &Num, missing: &Num, width: &Num) -> Result<Num, TooWide>
    ensures { result ≡ part_way start.now end.now missing.now width.now }
{
    let span = end.sub(*start)?;
    let share = missing.div(*width)?;
    let step = span.mul(share)?;
    start.add(step)
}

fn inside(rank: &Num, start: &Num, before: &Num, bucket: &Bucket) -> Result<Num, TooWide>
    ensures { result ≡ inside rank.now start.now before.now bucket.now }
{
    let width = bucket.count.sub(*before)?;
    if is_same(&width, &Num::whole(0)) {
        return Ok(*start);
    }
    let missing = rank.sub(*before)?;
    part_way(start, &bucket.bound, &missing, &width)
}

fn in_first(rank: &Num, bucket: &Bucket) -> Result<Num, TooWide>
    ensures { result ≡ in_first rank.now bucket.now }
{
    let zero = Num::whole(0);
    if is_below(&zero, &bucket.bound) {
        inside(rank, &zero, &zero, bucket)
    } else {
        Ok(bucket.bound)
    }
}

fn in_bucket(rank: &Num, buckets: &[Bucket], place: usize) -> Result<Num, TooWide>
    requires { place < length buckets.now }
    ensures { result ≡ in_bucket rank.now buckets.now place }
{
    if place == 0 {
        return in_first(rank, &buckets[0]);
    }
    let before = &buckets[place - 1];
    inside(rank, &before.bound, &before.count, &buckets[place])
}

fn reaches(rank: &Num, bucket: &Bucket) -> bool
    ensures { result ≡ reaches rank.now bucket.now }
{
    !is_below(&bucket.count, rank)
}

fn first_reached(rank: &Num, buckets: &[Bucket]) -> Option<usize>
    ensures place { result ≡ position (reaches rank.now) buckets.now }
    ensures within { IfSome result (λ i. i < length buckets.now) }
{
    buckets.iter().position(|bucket| reaches(rank, bucket))
}

// The bucket of a rank: the first one whose count is at least that, else the last.
fn bucket_place(rank: &Num, buckets: &[Bucket]) -> usize
    requires { 0 < length buckets.now }
    ensures place { result ≡ bucket_place rank.now buckets.now }
    ensures within { result < length buckets.now }
{
    first_reached(rank, buckets).unwrap_or(buckets.len() - 1)
}

fn at_rank(buckets: &[Bucket], rank: &Num) -> Result<Num, TooWide>
    requires { 1 < length buckets.now }
    ensures { result ≡ at_rank buckets.now rank.now }
{
    let place = bucket_place(rank, buckets);
    if place + 1 == buckets.len() {
        Ok(buckets[buckets.len() - 2].bound)
    } else {
        in_bucket(rank, buckets, place)
    }
}

// The last bucket, and one without numbers where there is none.
fn last_bucket(buckets: &[Bucket]) -> Bucket
    ensures { result ≡ last_bucket buckets.now }
{
    match buckets.len() {
        0 => Bucket {
            bound: Num::NaN,
            count: Num::NaN,
        },
        len => buckets[len - 1],
    }
}

fn has_special(buckets: &[Bucket]) -> bool
    ensures { result ≡ list_any (λ b. is_special b.count) buckets.now }
{
    buckets.iter().any(|bucket| is_special(&bucket.count))
}

fn has_no_quantile(phi: &Num, buckets: &[Bucket], rising: &[Bucket]) -> bool
    requires { rising.now ≡ raised buckets.now }
    ensures none { result ≡ has_no_quantile phi.now buckets.now }
    ensures two { OnFalse result (1 < length buckets.now) }
{
    if is_same(phi, &Num::NaN) || has_special(buckets) || buckets.len() < 2 {
        return true;
    }
    let last = last_bucket(buckets);
    if !is_same(&last.bound, &Num::PosInf) {
        return true;
    }
    let top = last_bucket(rising);
    is_same(&top.count, &Num::whole(0))
}

// The quantile by the rank that it has among the observations.
fn at_share(phi: &Num, rising: &[Bucket]) -> Result<Num, TooWide>
    requires { 1 < length rising.now }
    ensures { result ≡ then_value (product_of phi.now (last_bucket rising.now).count) (at_rank rising.now) }
{
    let top = last_bucket(rising);
    match phi.mul(top.count) {
        Ok(rank) => at_rank(rising, &rank),
        Err(wide) => Err(wide),
    }
}

/// The quantile among buckets, and the same where each count is the greatest so far.
pub fn quantile_in(phi: &Num, buckets: &[Bucket], rising: &[Bucket]) -> Result<Num, TooWide>
    requires rising { rising.now ≡ raised buckets.now }
    requires long { length rising.now ≡ length buckets.now }
    ensures { result ≡ quantile_in phi.now buckets.now }
{
    if has_no_quantile(phi, buckets, rising) {
        return Ok(Num::NaN);
    }
    if is_below(phi, &Num::whole(0)) {
        return Ok(Num::NegInf);
    }
    if is_below(&Num::whole(1), phi) {
        return Ok(Num::PosInf);
    }
    at_share(phi, rising)
}
